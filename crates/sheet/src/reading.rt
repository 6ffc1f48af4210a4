// Reading a sheet of the old form: the figures that stand at their places, and the judgement of them.
ghost use Rattle.std.specs.Prelude.{◌≡◌, ◌+◌, ◌*◌, ◌^◌, ◌<◌, ◌≤◌, IfOk, length, replicate};
ghost use Rattle.refusal.specs.Refusal.{number_of};
ghost use Rattle.sheet.specs.Read.{cell_at, points_at, temperature_at, linearity_at, system_at, filter_at, ctn_of, cln_of, figures_of, old_number, no_figures, read_old};

use crate::bytes::{count_at, figure_at};
use crate::judgement::{Counts, judge_sections};
use crate::places;
use crate::point::SheetPoint;
use figures::{
    Calibration, Cell, Filter, Linearity, LinearityPoint, Point, System, Temperature,
    TemperaturePoint,
};
use refusal::Refusal;

#[tactic(auto, using(crate::proofs::Refused::holds), unfolding(crate::specs::Read::cell_at))]
fn cell_at(sheet: &[u8], at: usize) -> Cell
    requires { at < 2 ^ 31 }
    ensures { result ≡ cell_at sheet.now at }
{
    Cell {
        cofs: figure_at(sheet, at + 1),
        cgai: figure_at(sheet, at + 9),
        cmin: figure_at(sheet, at + 17),
        cmax: figure_at(sheet, at + 25),
    }
}

// Reads points into a part of a table in which nothing stands yet.
fn read_points<P: SheetPoint>(sheet: &[u8], at: usize, points: &mut [P])
    requires { (at < 2 ^ 30) × (length points.old < 2 ^ 8) × (points.old ≡ replicate (length points.old) P.unused) }
    ensures { points.new ≡ points_at P.unused P.point_at P.SIZE (length points.old) sheet.now at (length points.old) }
{
    for i in 0..points.len() {
        points[i] = P::read(sheet, at + P::SIZE * i);
    }
}

fn temperature_at(sheet: &[u8], at: usize) -> Temperature
    requires { at < 2 ^ 29 }
    ensures { result ≡ temperature_at sheet.now at }
{
    let ctn = count_at(sheet, at);
    let mut points = [TemperaturePoint::unused(); 5];
    let n = (ctn as usize).min(5);
    read_points(sheet, at + 1, &mut points[..n]);
    Temperature { ctn, points }
}

fn linearity_at(sheet: &[u8], at: usize) -> Linearity
    requires { at < 2 ^ 29 }
    ensures { result ≡ linearity_at sheet.now at }
{
    let cln = count_at(sheet, at);
    let mut points = [LinearityPoint::unused(); 7];
    let n = (cln as usize).min(7);
    read_points(sheet, at + 1, &mut points[..n]);
    Linearity { cln, points }
}

#[tactic(auto, using(crate::proofs::Refused::holds), unfolding(crate::specs::Read::system_at))]
fn system_at(sheet: &[u8], at: usize) -> System
    requires { at < 2 ^ 31 }
    ensures { result ≡ system_at sheet.now at }
{
    System {
        sofs: figure_at(sheet, at + 1),
        sgai: figure_at(sheet, at + 9),
        smin: figure_at(sheet, at + 17),
        smax: figure_at(sheet, at + 25),
        sz: figure_at(sheet, at + 33),
    }
}

#[tactic(auto, using(crate::proofs::Refused::holds), unfolding(crate::specs::Read::filter_at))]
fn filter_at(sheet: &[u8], at: usize) -> Filter
    requires { at < 2 ^ 31 }
    ensures { result ≡ filter_at sheet.now at }
{
    Filter {
        fflv: figure_at(sheet, at + 1),
        ffst: figure_at(sheet, at + 9),
    }
}

// The counts of points that stand in a sheet.
fn ctn_of(sheet: &[u8]) -> u8
    ensures { result ≡ ctn_of sheet.now }
{
    count_at(sheet, places::TEMPERATURE_START)
}

fn cln_of(sheet: &[u8]) -> u8
    ensures { result ≡ cln_of sheet.now }
{
    count_at(sheet, places::linearity_start(ctn_of(sheet)))
}

#[tactic(auto, unfolding(crate::specs::Read::figures_of))]
fn figures_of(sheet: &[u8]) -> Calibration
    ensures { result ≡ figures_of sheet.now }
{
    let ctn = ctn_of(sheet);
    let cln = cln_of(sheet);
    Calibration {
        cell: cell_at(sheet, 0),
        temperature: temperature_at(sheet, places::TEMPERATURE_START),
        linearity: linearity_at(sheet, places::linearity_start(ctn)),
        system: system_at(sheet, places::system_start(ctn, cln)),
        filter: filter_at(sheet, places::filter_start(ctn, cln)),
    }
}

// The sheet's first fault, given the figures that stand in it.
#[tactic(auto, using(crate::proofs::Refused::steps, crate::proofs::Refused::tests), unfolding(crate::specs::Read::old_number, crate::specs::Judge::trailing))]
fn judge_all(sheet: &[u8], figures: Calibration) -> Result<(), Refusal>
    requires { figures ≡ figures_of sheet.now }
    ensures { number_of result ≡ old_number sheet.now }
{
    let ctn = ctn_of(sheet);
    let cln = cln_of(sheet);
    let counts = Counts {
        cell: count_at(sheet, 0),
        system: count_at(sheet, places::system_start(ctn, cln)),
        filter: count_at(sheet, places::filter_start(ctn, cln)),
    };
    judge_sections(sheet.len(), counts, figures)?;
    if places::sheet_end(ctn, cln) < sheet.len() {
        return Err(Refusal::Trailing);
    }
    Ok(())
}

#[tactic(auto, unfolding(crate::specs::Read::no_figures))]
pub fn no_figures() -> Calibration
    ensures { result ≡ no_figures }
{
    Calibration {
        cell: Cell {
            cofs: 0,
            cgai: 0,
            cmin: 0,
            cmax: 0,
        },
        temperature: Temperature {
            ctn: 0,
            points: [TemperaturePoint::unused(); 5],
        },
        linearity: Linearity {
            cln: 0,
            points: [LinearityPoint::unused(); 7],
        },
        system: System {
            sofs: 0,
            sgai: 0,
            smin: 0,
            smax: 0,
            sz: 0,
        },
        filter: Filter { fflv: 0, ffst: 0 },
    }
}

// Reads an old sheet: its figures, or its first fault.
#[tactic(auto, using(crate::proofs::Refused::steps, crate::proofs::Refused::tests), unfolding(crate::specs::Read::read_old))]
pub fn read_old(sheet: &[u8]) -> Result<Calibration, Refusal>
    ensures number { number_of result ≡ (read_old sheet.now).number }
    ensures figures { IfOk result (λ figures. figures ≡ (read_old sheet.now).figures) }
{
    let figures = figures_of(sheet);
    judge_all(sheet, figures)?;
    Ok(figures)
}
