// How figures are judged (01, "Turned-down calls"), left to right: the first fault counts.
ghost use Rattle.std.specs.Prelude.{◌≡◌, ◌+◌, ◌*◌, ◌^◌, ◌<◌, ◌≤◌, neg_ℤ, unsigned_abs, length};
ghost use Rattle.refusal.specs.Refusal.{number, number_of};
ghost use Rattle.sheet.specs.Places.{sheet_length};
ghost use Rattle.sheet.specs.Judge.{short_of, not_below, too_steep, points_number, count_number, range_number, cell_number, temperature_number, linearity_number, system_number, filter_number, sections_number, figures_number};

use crate::places;
use crate::point::SheetPoint;
use figures::{Calibration, Cell, Filter, Linearity, LinearityPoint, System, Temperature};
use refusal::Refusal;

// Where a count, a figure or a section starts, in a sheet of `room` bytes.
#[derive(Clone, Copy)]
pub struct Place {
    pub room: usize,
    pub at: usize,
}

impl Place {
    // So many bytes further on.
    pub fn after(self, bytes: usize) -> Place
        requires { self.at + bytes < 2 ^ 64 }
        ensures { result ≡ record { room = self.room; at = self.at + bytes } }
    {
        Place {
            room: self.room,
            at: self.at + bytes,
        }
    }

    // 1 or 3.
    #[tactic(auto, using(crate::proofs::Refused::steps, crate::proofs::Refused::tests), unfolding(crate::specs::Judge::short_of, crate::specs::Judge::out_of_range))]
    pub fn range(self, least: i64, most: i64, v: i64) -> Result<(), Refusal>
        requires { self.at < 2 ^ 32 }
        ensures { number_of result ≡ range_number (short_of self.room) self.at least most v }
    {
        if self.room < self.at + 8 {
            return Err(Refusal::ShortSheet);
        }
        if v < least || most < v {
            return Err(Refusal::Figure);
        }
        Ok(())
    }

    // A figure of magnitude `most` or less.
    pub fn figure(self, most: i64, v: i64) -> Result<(), Refusal>
        requires { (self.at < 2 ^ 32) × (unsigned_abs most ≤ 2 ^ 62) }
        ensures { number_of result ≡ range_number (short_of self.room) self.at (neg_ℤ most) most v }
    {
        self.range(-most, most, v)
    }

    // 1 or 2.
    #[tactic(auto, using(crate::proofs::Refused::steps, crate::proofs::Refused::tests), unfolding(crate::specs::Judge::short_of, crate::specs::Judge::wrong_count))]
    pub fn count(self, least: u8, most: u8, count: u8) -> Result<(), Refusal>
        requires { self.at < 2 ^ 32 }
        ensures { number_of result ≡ count_number (short_of self.room) self.at least most count }
    {
        if self.room < self.at + 1 {
            return Err(Refusal::ShortSheet);
        }
        if count < least || most < count {
            return Err(Refusal::WrongCount);
        }
        Ok(())
    }
}

#[tactic(auto, using(crate::proofs::Refused::tests), unfolding(crate::specs::Judge::not_below))]
pub fn below(a: i64, b: i64, otherwise: Refusal) -> Result<(), Refusal>
    ensures { number_of result ≡ not_below (number otherwise) a b }
{
    if a < b { Ok(()) } else { Err(otherwise) }
}

// 4 × the change of CLK against the change of CLX, by a quarter of the latter, so that no product overflows.
#[tactic(auto, using(crate::proofs::Refused::tests), unfolding(crate::specs::Judge::too_steep))]
pub fn gentle(p: LinearityPoint, q: LinearityPoint) -> Result<(), Refusal>
    ensures { number_of result ≡ too_steep p q }
{
    let clx = q.clx.abs_diff(p.clx);
    let clk = q.clk.abs_diff(p.clk);
    if clx / 4 < clk {
        return Err(Refusal::TooSteep);
    }
    Ok(())
}

// Every point of a table; the counts and the places around them are each table's own.
fn judge_points<P: SheetPoint>(place: Place, points: &[P]) -> Result<(), Refusal>
    requires { (place.at < 2 ^ 30) × (length points.now < 2 ^ 8) }
    ensures { number_of result ≡ points_number (λ i. P.point_number (short_of place.room) (place.at + P.SIZE * i) points.now i) (length points.now) }
{
    for i in 0..points.len() {
        P::judge(points, i, place.after(P::SIZE * i))?;
    }
    Ok(())
}

#[tactic(auto, using(crate::proofs::Refused::steps), unfolding(crate::specs::Judge::cell_number))]
fn judge_cell(place: Place, count: u8, cell: Cell) -> Result<(), Refusal>
    requires { place.at < 2 ^ 31 }
    ensures { number_of result ≡ cell_number (short_of place.room) place.at count cell }
{
    place.count(4, 4, count)?;
    place.after(1).figure(Calibration::COFS_MOST, cell.cofs)?;
    place.after(9).figure(Calibration::CGAI_MOST, cell.cgai)?;
    place
        .after(17)
        .figure(Calibration::CMIN_CMAX_MOST, cell.cmin)?;
    place
        .after(25)
        .figure(Calibration::CMIN_CMAX_MOST, cell.cmax)?;
    below(cell.cmin, cell.cmax, Refusal::Crossed)
}

// Kept, with its twin below and those that read and write: Temperature and Linearity are C's records, their arrays of fixed sizes,
// and no array has a type parameter for its elements.
#[tactic(auto, using(crate::proofs::Refused::steps), unfolding(crate::specs::Judge::temperature_number))]
fn judge_temperature(place: Place, temperature: Temperature) -> Result<(), Refusal>
    requires { place.at < 2 ^ 29 }
    ensures { number_of result ≡ temperature_number (short_of place.room) place.at temperature }
{
    let ctn = temperature.ctn;
    place.count(2, 5, ctn)?;
    judge_points(place.after(1), &temperature.points[..ctn as usize])
}

#[tactic(auto, using(crate::proofs::Refused::steps), unfolding(crate::specs::Judge::linearity_number))]
fn judge_linearity(place: Place, linearity: Linearity) -> Result<(), Refusal>
    requires { place.at < 2 ^ 29 }
    ensures { number_of result ≡ linearity_number (short_of place.room) place.at linearity }
{
    let cln = linearity.cln;
    place.count(2, 7, cln)?;
    judge_points(place.after(1), &linearity.points[..cln as usize])
}

#[tactic(auto, using(crate::proofs::Refused::steps), unfolding(crate::specs::Judge::system_number))]
fn judge_system(place: Place, count: u8, system: System) -> Result<(), Refusal>
    requires { place.at < 2 ^ 31 }
    ensures { number_of result ≡ system_number (short_of place.room) place.at count system }
{
    place.count(5, 5, count)?;
    place.after(1).figure(Calibration::SOFS_MOST, system.sofs)?;
    place.after(9).figure(Calibration::SGAI_MOST, system.sgai)?;
    place
        .after(17)
        .figure(Calibration::SMIN_SMAX_MOST, system.smin)?;
    place
        .after(25)
        .figure(Calibration::SMIN_SMAX_MOST, system.smax)?;
    below(system.smin, system.smax, Refusal::Crossed)?;
    place.after(33).figure(Calibration::SZ_MOST, system.sz)
}

#[tactic(auto, using(crate::proofs::Refused::steps), unfolding(crate::specs::Judge::filter_number))]
fn judge_filter(place: Place, count: u8, filter: Filter) -> Result<(), Refusal>
    requires { place.at < 2 ^ 31 }
    ensures { number_of result ≡ filter_number (short_of place.room) place.at count filter }
{
    place.count(2, 2, count)?;
    place
        .after(1)
        .range(0, Calibration::FFLV_MOST, filter.fflv)?;
    place.after(9).range(0, Calibration::FFST_MOST, filter.ffst)
}

// The counts that stand before cell, system and filter.
#[derive(Clone, Copy)]
pub struct Counts {
    pub cell: u8,
    pub system: u8,
    pub filter: u8,
}

// All five sections, in a sheet of so many bytes.
#[tactic(auto, using(crate::proofs::Refused::steps), unfolding(crate::specs::Judge::sections_number))]
pub fn judge_sections(room: usize, counts: Counts, figures: Calibration) -> Result<(), Refusal>
    ensures { number_of result ≡ sections_number (short_of room) counts.cell counts.system counts.filter figures }
{
    let ctn = figures.temperature.ctn;
    let cln = figures.linearity.cln;
    let place = Place { room, at: 0 };
    judge_cell(place, counts.cell, figures.cell)?;
    judge_temperature(place.after(places::TEMPERATURE_START), figures.temperature)?;
    judge_linearity(place.after(places::linearity_start(ctn)), figures.linearity)?;
    judge_system(
        place.after(places::system_start(ctn, cln)),
        counts.system,
        figures.system,
    )?;
    judge_filter(
        place.after(places::filter_start(ctn, cln)),
        counts.filter,
        figures.filter,
    )
}

// How many bytes these figures take.
pub fn sheet_length(figures: Calibration) -> usize
    ensures { (result ≡ sheet_length figures) × (result < 2 ^ 14) }
{
    places::sheet_end(figures.temperature.ctn, figures.linearity.cln)
}

// Figures by themselves, 2 to 6 in sheet order: as in a sheet with room for all of them.
pub fn judge(figures: Calibration) -> Result<(), Refusal>
    ensures { number_of result ≡ figures_number figures }
{
    let counts = Counts {
        cell: 4,
        system: 5,
        filter: 2,
    };
    judge_sections(sheet_length(figures), counts, figures)
}
