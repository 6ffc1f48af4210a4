// Writing a calibration sheet (01, "The calibration sheet") straight into a lent buffer: a section is its count, one byte, and then
// its figures.
#![tactic(auto)]

ghost use Rattle.std.specs.Prelude.{◌≡◌, ◌∷◌, ◌+◌, ◌*◌, ◌^◌, ◌<◌, ◌≤◌, List, ℕ, IfOk, length};
ghost use Rattle.std.specs.List.{flat_map};
ghost use Rattle.integers.specs.Bytes.{Put};
ghost use Rattle.refusal.specs.Refusal.{number_of};
ghost use Rattle.figures.specs.Unused.{no_linearity, no_temperature};
ghost use Rattle.sheet.specs.Bytes.{figure_bytes};
ghost use Rattle.sheet.specs.Places.{sheet_length, temperature_point_size, linearity_point_size};
ghost use Rattle.sheet.specs.Write.{temperature_point_bytes, linearity_point_bytes, points_bytes, temperature_bytes, linearity_bytes, sheet_bytes};
ghost use Rattle.sheet_writer.specs.Write.{written, written_of, out_after};

use figures::{Calibration, Linearity, LinearityPoint, Temperature, TemperaturePoint};
use refusal::Refusal;
use sheet::{SheetPoint, judge, places, sheet_length};

// What C is told: 0 and the bytes written; or the number of the refusal, and 0. Kept: C reads this record.
#[repr(C)]
#[derive(Clone, Copy)]
pub struct Written {
    pub number: u8,
    pub length: usize,
}

impl From<Result<usize, Refusal>> for Written {
    ghost from_gives = { λ outcome told. told ≡ written outcome };

    fn from(outcome: Result<usize, Refusal>) -> Written {
        match outcome {
            Ok(length) => Written { number: 0, length },
            Err(refusal) => Written {
                number: refusal.number(),
                length: 0,
            },
        }
    }
}

pub fn put_figure(out: &mut [u8], at: usize, v: i64)
    requires { at + 8 ≤ length out.old }
    ensures { Put (figure_bytes v) out.old at out.new (at + 8) }
{
    out[at..at + 8].copy_from_slice(&v.to_le_bytes());
}

fn put_figures(out: &mut [u8], at: usize, figures: &[i64])
    requires { at + 8 * length figures.now ≤ length out.old }
    ensures { Put (flat_map figure_bytes figures.now) out.old at out.new (at + 8 * length figures.now) }
{
    let mut next = at;
    for &figure in figures {
        put_figure(out, next, figure);
        next += 8;
    }
}

// A section whose figures have their places, the new form's identity too.
pub fn put_section(out: &mut [u8], at: usize, figures: &[i64])
    requires { (length figures.now < 2 ^ 8) × (at + 1 + 8 * length figures.now ≤ length out.old) }
    ensures { Put (length figures.now ∷ flat_map figure_bytes figures.now) out.old at out.new (at + 1 + 8 * length figures.now) }
{
    out[at] = figures.len() as u8;
    put_figures(out, at + 1, figures);
}

// A point of a table as it is written.
trait WrittenPoint: SheetPoint {
    ghost point_bytes: { Self → List ℕ };

    fn put(self, out: &mut [u8], at: usize)
        requires { at + Self.SIZE ≤ length out.old }
        ensures { Put (point_bytes self) out.old at out.new (at + Self.SIZE) };
}

impl WrittenPoint for TemperaturePoint {
    ghost point_bytes = { temperature_point_bytes };

    fn put(self, out: &mut [u8], at: usize) {
        put_figures(out, at, &[self.ct, self.cto, self.ctg]);
    }
}

impl WrittenPoint for LinearityPoint {
    ghost point_bytes = { linearity_point_bytes };

    fn put(self, out: &mut [u8], at: usize) {
        put_figures(out, at, &[self.clx, self.clk]);
    }
}

fn put_points<P: WrittenPoint>(out: &mut [u8], at: usize, points: &[P])
    requires { at + P.SIZE * length points.now ≤ length out.old }
    ensures { Put (points_bytes P.unused P.point_bytes points.now (length points.now)) out.old at out.new (at + P.SIZE * length points.now) }
{
    let mut next = at;
    for point in points {
        point.put(out, next);
        next += P::SIZE;
    }
}

fn put_temperature(out: &mut [u8], at: usize, temperature: Temperature)
    requires { (temperature.ctn ≤ 5) × (at + 1 + temperature_point_size * temperature.ctn ≤ length out.old) }
    ensures { Put (temperature_bytes temperature) out.old at out.new (at + 1 + temperature_point_size * temperature.ctn) }
{
    let ctn = temperature.ctn;
    out[at] = ctn;
    put_points(out, at + 1, &temperature.points[..ctn as usize]);
}

fn put_linearity(out: &mut [u8], at: usize, linearity: Linearity)
    requires { (linearity.cln ≤ 7) × (at + 1 + linearity_point_size * linearity.cln ≤ length out.old) }
    ensures { Put (linearity_bytes linearity) out.old at out.new (at + 1 + linearity_point_size * linearity.cln) }
{
    let cln = linearity.cln;
    out[at] = cln;
    put_points(out, at + 1, &linearity.points[..cln as usize]);
}

// The whole sheet at the front of the buffer.
fn put_sheet(out: &mut [u8], figures: Calibration)
    requires { (figures.temperature.ctn ≤ 5) × (figures.linearity.cln ≤ 7) × (sheet_length figures ≤ length out.old) }
    ensures { Put (sheet_bytes figures) out.old 0 out.new (sheet_length figures) }
{
    let Calibration {
        cell,
        temperature,
        linearity,
        system,
        filter,
    } = figures;
    let system_at = places::system_start(temperature.ctn, linearity.cln);
    let filter_at = system_at + places::SYSTEM_SIZE;
    let system = [
        system.sofs,
        system.sgai,
        system.smin,
        system.smax,
        system.sz,
    ];
    put_section(out, 0, &[cell.cofs, cell.cgai, cell.cmin, cell.cmax]);
    put_temperature(out, places::TEMPERATURE_START, temperature);
    put_linearity(out, places::linearity_start(temperature.ctn), linearity);
    put_section(out, system_at, &system);
    put_section(out, filter_at, &[filter.fflv, filter.ffst]);
}

// Writes a sheet at the front of `out`, and gives the bytes written; or refuses with 2 to 6, then 12, and leaves `out` as it was.
#[tactic(auto, using(sheet::proofs::Refused::steps, sheet::proofs::Refused::tests), unfolding(crate::specs::Write::written_of, crate::specs::Write::out_after, crate::specs::Write::write_number))]
pub fn write(figures: Calibration, out: &mut [u8]) -> Result<usize, Refusal>
    ensures number { number_of result ≡ (written_of figures out.old).number }
    ensures length { IfOk result (λ length. length ≡ (written_of figures out.old).length) }
    ensures out { out.new ≡ out_after figures out.old }
{
    judge(figures)?;
    let length = sheet_length(figures);
    if out.len() < length {
        return Err(Refusal::ShortBuffer);
    }
    put_sheet(out, figures);
    Ok(length)
}
