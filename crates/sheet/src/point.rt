// The points of both tables, as they stand in a sheet.
ghost use Rattle.std.specs.Prelude.{◌≡◌, ℕ, ◌+◌, ◌*◌, ◌^◌, ◌<◌, List, length};
ghost use Rattle.std.proofs.Common.{rules};
ghost use Rattle.refusal.specs.Refusal.{number_of};
ghost use Rattle.figures.specs.Unused.{no_linearity, no_temperature};
ghost use Rattle.sheet.specs.Places.{temperature_point_size, linearity_point_size};
ghost use Rattle.sheet.specs.Judge.{short_of, not_below, too_steep, against, temperature_point_number, linearity_point_number};
ghost use Rattle.sheet.specs.Read.{temperature_point_at, linearity_point_at};

use crate::bytes::figure_at;
use crate::judgement::{Place, below, gentle};
use crate::places;
use figures::{Calibration, LinearityPoint, Point, TemperaturePoint};
use refusal::Refusal;

pub trait SheetPoint: Point {
    ghost SIZE: { ℕ };

    ghost point_at: { List ℕ → ℕ → Self };

    ghost point_number: { (ℕ → ℕ) → ℕ → List Self → ℕ → ℕ };

    // How many bytes a point takes.
    const SIZE: usize;

    // The point at a place; 0 in each figure that the sheet ends before.
    fn read(sheet: &[u8], at: usize) -> Self
        requires { at < 2 ^ 31 }
        ensures { result ≡ point_at sheet.now at };

    // Point `i` of a table, against the one before.
    fn judge(points: &[Self], i: usize, place: Place) -> Result<(), Refusal>
        requires { (place.at < 2 ^ 31) × (i < length points.now) }
        ensures { number_of result ≡ point_number (short_of place.room) place.at points.now i };

    ghost is_small: { SIZE < 2 ^ 8 };
}

// Kept as functions of their own, here and below: where an `if` joins before a later call, what it found is lost to the proof.
// 4, if CT is not above the one before.
fn ct_rises(points: &[TemperaturePoint], i: usize) -> Result<(), Refusal>
    requires { i < length points.now }
    ensures { number_of result ≡ against no_temperature (λ p q. not_below 4 p.ct q.ct) points.now i }
{
    if i == 0 {
        return Ok(());
    }
    below(points[i - 1].ct, points[i].ct, Refusal::Order)
}

impl SheetPoint for TemperaturePoint {
    ghost SIZE = { temperature_point_size };

    ghost point_at = { temperature_point_at };

    ghost point_number = { temperature_point_number };

    const SIZE: usize = places::TEMPERATURE_POINT_SIZE;

    #[tactic(auto, using(crate::proofs::Refused::holds), unfolding(crate::specs::Read::temperature_point_at))]
    fn read(sheet: &[u8], at: usize) -> TemperaturePoint {
        let ct = figure_at(sheet, at);
        let cto = figure_at(sheet, at + 8);
        let ctg = figure_at(sheet, at + 16);
        TemperaturePoint { ct, cto, ctg }
    }

    #[tactic(auto, using(crate::proofs::Refused::steps), unfolding(crate::specs::Judge::temperature_point_number))]
    fn judge(points: &[TemperaturePoint], i: usize, place: Place) -> Result<(), Refusal> {
        let point = points[i];
        place.figure(Calibration::CT_MOST, point.ct)?;
        ct_rises(points, i)?;
        place.after(8).figure(Calibration::CTO_MOST, point.cto)?;
        place.after(16).figure(Calibration::CTG_MOST, point.ctg)
    }

    ghost is_small = { Prim.search rules };
}

// 4, if CLX is not above the one before.
fn clx_rises(points: &[LinearityPoint], i: usize) -> Result<(), Refusal>
    requires { i < length points.now }
    ensures { number_of result ≡ against no_linearity (λ p q. not_below 4 p.clx q.clx) points.now i }
{
    if i == 0 {
        return Ok(());
    }
    below(points[i - 1].clx, points[i].clx, Refusal::Order)
}

// 5, if CLK changes too much from the one before.
fn clk_follows(points: &[LinearityPoint], i: usize) -> Result<(), Refusal>
    requires { i < length points.now }
    ensures { number_of result ≡ against no_linearity too_steep points.now i }
{
    if i == 0 {
        return Ok(());
    }
    gentle(points[i - 1], points[i])
}

impl SheetPoint for LinearityPoint {
    ghost SIZE = { linearity_point_size };

    ghost point_at = { linearity_point_at };

    ghost point_number = { linearity_point_number };

    const SIZE: usize = places::LINEARITY_POINT_SIZE;

    #[tactic(auto, using(crate::proofs::Refused::holds), unfolding(crate::specs::Read::linearity_point_at))]
    fn read(sheet: &[u8], at: usize) -> LinearityPoint {
        let clx = figure_at(sheet, at);
        let clk = figure_at(sheet, at + 8);
        LinearityPoint { clx, clk }
    }

    #[tactic(auto, using(crate::proofs::Refused::steps), unfolding(crate::specs::Judge::linearity_point_number))]
    fn judge(points: &[LinearityPoint], i: usize, place: Place) -> Result<(), Refusal> {
        let point = points[i];
        place.figure(Calibration::CLX_MOST, point.clx)?;
        clx_rises(points, i)?;
        place.after(8).figure(Calibration::CLK_MOST, point.clk)?;
        clk_follows(points, i)
    }

    ghost is_small = { Prim.search rules };
}
