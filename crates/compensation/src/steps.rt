// Steps 2 to 5 (01, "The reading").
ghost use Rattle.std.specs.Prelude.{◌≡◌, ◌+ℤ◌, ◌-ℤ◌, ◌*ℤ◌};
ghost use Rattle.integers.specs.Within.{◌within◌};
ghost use Rattle.figures.specs.Acceptable.{TemperatureAcceptable};
ghost use Rattle.compensation.specs.Reading.{one, scaled};
ghost use Rattle.compensation.specs.ForCode.{input_at, cell_values_at, values_from, CellInput, ValuesInput, GainInput, AdjustInput, SystemInput};

use crate::stat::stat_bits;
use crate::tables::{Adjustment, adjustments, correction};
use figures::{Calibration, Cell, Linearity, System, Temperature};

// What steps 1 and 2 give: ELEC as the filter holds it, and o and g at TEMP.
#[derive(Clone, Copy)]
pub struct Input {
    pub elec: i64,
    pub o: i64,
    pub g: i64,
}

// What steps 3 and 4 give: the raw cell value, CRAW and CELL.
#[derive(Clone, Copy)]
pub struct CellValues {
    pub raw: i64,
    pub craw: i64,
    pub cell: i64,
}

// What a reading leaves.
#[repr(C)]
#[derive(Clone, Copy, Default)]
pub struct Values {
    pub craw: i64,
    pub cell: i64,
    pub sraw: i64,
    pub sys: i64,
    pub stat: u16,
}

// Each function below takes only the part of the figures that its steps need, so that a caller who keeps the figures in a record
// reads each part when it is due, and copies no other.

// Step 2, beside ELEC as the filter holds it.
pub fn input_at(temperature: Temperature, elec: i64, temp: i64) -> Input
    requires { TemperatureAcceptable temperature }
    ensures { result ≡ input_at temperature elec temp }
{
    let Adjustment { o, g } = adjustments(temperature, temp);
    Input { elec, o, g }
}

// Steps 3 and 4.
pub fn cell_values(cell: Cell, linearity: Linearity, input: Input) -> CellValues
    requires { CellInput cell linearity input }
    ensures { result ≡ cell_values_at cell linearity input }
{
    let y = gained(cell, input.o, input.elec);
    let raw = adjusted(y, input.g);
    let craw = raw.clamp(cell.cmin, cell.cmax);
    let corrected = craw + correction(linearity, craw);
    CellValues {
        raw,
        craw,
        cell: corrected,
    }
}

// Step 5, and STAT.
pub fn values_from(
    cell: Cell,
    system: System,
    values: CellValues,
    elec: i64,
    temp: i64,
    integrity: u8,
) -> Values
    requires { ValuesInput cell system values }
    ensures { result ≡ values_from cell system values elec temp integrity }
{
    let raw_system = scaled_system(system, values.cell);
    let sraw = raw_system.clamp(system.smin, system.smax);
    let sys = sraw - system.sz;
    let stat = stat_bits(
        elec,
        temp,
        integrity,
        values.raw,
        values.craw,
        raw_system,
        sraw,
    );
    Values {
        craw: values.craw,
        cell: values.cell,
        sraw,
        sys,
        stat,
    }
}

// 2^27: half of the 2^28 parts that are 1.
const HALF: i64 = 134_217_728;

// round(x × gain ÷ 2^28): for y, raw cell and raw system. Halves away from zero it is ⌊(product + 2^27) ÷ 2^28⌋, and of a negative
// product one less goes in front: a shift by 63 is then −1, and else 0. A shift divides by a power of two downwards. The sum stays
// within an i64, of which the product takes at most 99.18 %.
fn scale(x: i64, gain: i64) -> i64
    requires { (x *ℤ gain) within 9147936743096320000 }
    ensures { result ≡ scaled x gain }
{
    let product = x * gain;
    (product + HALF + (product >> 63)) >> 28
}

// y.
fn gained(c: Cell, o: i64, elec: i64) -> i64
    requires { GainInput c o elec }
    ensures { result ≡ scaled (elec -ℤ c.cofs -ℤ o) c.cgai }
{
    scale(elec - c.cofs - o, c.cgai)
}

// The raw cell value.
fn adjusted(y: i64, g: i64) -> i64
    requires { AdjustInput y g }
    ensures { result ≡ scaled y (one +ℤ g) }
{
    scale(y, Calibration::UNIT + g)
}

// The raw system value.
fn scaled_system(s: System, cell: i64) -> i64
    requires { SystemInput s cell }
    ensures { result ≡ scaled (cell -ℤ s.sofs) s.sgai }
{
    scale(cell - s.sofs, s.sgai)
}
