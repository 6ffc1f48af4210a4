// What a laboratory does with calibration sheets, of both forms (02, Change 6), as entries that C links: firmware has no need of them,
// so they are an archive of their own. Each takes any bytes and numbers; what does not fit is refused with a number of 01's table, or 19.
#![tactic(auto)]

ghost use Rattle.std.specs.Prelude.{◌≡◌};
ghost use Rattle.sheet.specs.Forms.{sheet_number, contents_of};
ghost use Rattle.sheet_writer.specs.Write.{written_of, out_after};
ghost use Rattle.laboratory.specs.Moves.{MovedToNew, MovedToOld};

pub mod moves;

use figures::Calibration;
use moves::MovedBack;
use refusal::number_of;
use sheet::{Contents, Identity};
use sheet_writer::Written;

// A sheet of either form: 0, or the number of its first fault, 1 to 7.
#[unsafe(no_mangle)]
pub extern "C" fn converter_judge_sheet(sheet: &[u8]) -> u8
    ensures { result ≡ sheet_number sheet.now }
{
    number_of(&sheet::judge_sheet(sheet))
}

// Its figures, its form and its identity, and 0; or the number of its first fault, and zeros.
#[unsafe(no_mangle)]
pub extern "C" fn converter_read_sheet(sheet: &[u8]) -> Contents
    ensures { result ≡ contents_of sheet.now }
{
    Contents::from(sheet::read_contents(sheet))
}

// Writes figures as an old sheet at the front of `out`: 0 and the bytes written; or 2 to 6, then 12, and `out` is as it was.
#[unsafe(no_mangle)]
pub extern "C" fn converter_write_sheet(figures: Calibration, out: &mut [u8]) -> Written
    ensures { (result ≡ written_of figures out.old) × (out.new ≡ out_after figures out.old) }
{
    Written::from(sheet_writer::write(figures, out))
}

// Moves an old sheet to the new form: 0 and the bytes written; or 1 to 7, then 3, then 19, and both buffers are as they were.
#[unsafe(no_mangle)]
pub extern "C" fn converter_move_to_new(
    sheet: &[u8],
    identity: Identity,
    out: &mut [u8],
    scratch: &mut [u8],
) -> Written
    ensures { MovedToNew sheet.now identity out.old out.new scratch.old scratch.new result }
{
    Written::from(moves::to_new(sheet, identity, out, scratch))
}

// Moves a new sheet back: 0, the bytes written and the identity; or 1 to 7, then 19, zeros, and both buffers are as they were.
#[unsafe(no_mangle)]
pub extern "C" fn converter_move_to_old(
    sheet: &[u8],
    out: &mut [u8],
    scratch: &mut [u8],
) -> MovedBack
    ensures { MovedToOld sheet.now out.old out.new scratch.old scratch.new result }
{
    MovedBack::from(moves::to_old(sheet, out, scratch))
}
