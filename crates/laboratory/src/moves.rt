// The moves between the two forms of a sheet (02, Change 6), over a lent output and a lent scratch buffer.
ghost use Rattle.std.specs.Prelude.{◌≡◌, ◌+◌, ◌≤◌, length, take};
ghost use Rattle.integers.specs.Bytes.{Put};
ghost use Rattle.refusal.specs.Refusal.{number_of};
ghost use Rattle.sheet.specs.Places.{identity_size};
ghost use Rattle.sheet.specs.Forms.{identity_bytes};
ghost use Rattle.sheet_writer.specs.Write.{written};
ghost use Rattle.laboratory.specs.Moves.{to_new, to_old, put_at_front, copy_of, buffers_number, to_new_number, to_old_number, told_back, MovedToNew, MovedToOld};

use refusal::Refusal;
use sheet::{Identity, places};
use sheet_writer::put_section;

const SCRATCH_LEAST: usize = 342;

// What C is told of a move back: 0, the bytes written and the identity beside them; or the number of the refusal, and zeros.
// Kept: C reads this record.
#[repr(C)]
#[derive(Clone, Copy)]
pub struct MovedBack {
    pub number: u8,
    pub length: usize,
    pub identity: Identity,
}

impl From<Result<(usize, Identity), Refusal>> for MovedBack {
    ghost from_gives = { λ outcome told. told ≡ told_back outcome };

    fn from(outcome: Result<(usize, Identity), Refusal>) -> MovedBack {
        match outcome {
            Ok((length, identity)) => MovedBack {
                number: 0,
                length,
                identity,
            },
            Err(refusal) => MovedBack {
                number: refusal.number(),
                length: 0,
                identity: Identity { serial: 0, day: 0 },
            },
        }
    }
}

// 19, where the output has no room for what is to be written, or the scratch is too short.
#[tactic(auto, using(sheet::proofs::Refused::tests), unfolding(crate::specs::Moves::buffers_number))]
fn judge_buffers(written: usize, out: usize, scratch: usize) -> Result<(), Refusal>
    ensures { number_of result ≡ buffers_number written out scratch }
{
    if out < written || scratch < SCRATCH_LEAST {
        return Err(Refusal::Buffers);
    }
    Ok(())
}

// The sheet, then the identity, then the buffers.
#[tactic(auto, using(sheet::proofs::Refused::steps), unfolding(crate::specs::Moves::to_new_number))]
fn judge_to_new(sheet: &[u8], identity: Identity, out: usize, scratch: usize) -> Result<(), Refusal>
    ensures { number_of result ≡ to_new_number sheet.now identity out scratch }
{
    sheet::judge_old(sheet)?;
    sheet::judge_identity(identity)?;
    judge_buffers(places::IDENTITY_SIZE + sheet.len(), out, scratch)
}

// The sheet, then the buffers.
#[tactic(auto, using(sheet::proofs::Refused::steps), unfolding(crate::specs::Moves::to_old_number))]
fn judge_to_old(sheet: &[u8], out: usize, scratch: usize) -> Result<(), Refusal>
    ensures { number_of result ≡ to_old_number sheet.now out scratch }
{
    sheet::judge_new(sheet)?;
    judge_buffers(sheet.len() - places::IDENTITY_SIZE, out, scratch)
}

fn put_identity(to: &mut [u8], identity: Identity)
    requires { identity_size ≤ length to.old }
    ensures { Put (identity_bytes identity) to.old 0 to.new identity_size }
{
    put_section(to, 0, &[identity.serial, identity.day]);
}

// Copies all of `from` into a buffer from a place on.
// Kept: the library's copy of a length that only the run knows asks a C link for memmove (docs/DECISIONS.md, 74).
fn copy(from: &[u8], to: &mut [u8], at: usize)
    requires { at + length from.now ≤ length to.old }
    ensures { Put from.now to.old at to.new (at + length from.now) }
{
    for i in 0..from.len() {
        to[at + i] = from[i];
    }
}

// The new form of an old sheet, at the front of a buffer.
fn put_new(to: &mut [u8], identity: Identity, sheet: &[u8])
    requires { identity_size + length sheet.now ≤ length to.old }
    ensures { to.new ≡ put_at_front (to_new identity sheet.now) to.old }
{
    put_identity(to, identity);
    copy(sheet, to, places::IDENTITY_SIZE);
}

// The old sheet in a new one, at the front of a buffer.
fn put_old(to: &mut [u8], sheet: &[u8])
    requires { (identity_size ≤ length sheet.now) × (length sheet.now ≤ identity_size + length to.old) }
    ensures { to.new ≡ put_at_front (to_old sheet.now) to.old }
{
    copy(&sheet[places::IDENTITY_SIZE..], to, 0);
}

// A copy of the bytes written, at the front of the scratch.
fn keep_copy(out: &[u8], written: usize, scratch: &mut [u8])
    requires { (written ≤ length out.now) × (written ≤ length scratch.old) }
    ensures { scratch.new ≡ put_at_front (copy_of (take written out.now)) scratch.old }
{
    copy(&out[..written], scratch, 0);
}

// An old sheet to the new form, with a given identity: the bytes written; or a refusal, and both buffers are as they were.
pub fn to_new(
    sheet: &[u8],
    identity: Identity,
    out: &mut [u8],
    scratch: &mut [u8],
) -> Result<usize, Refusal>
    ensures { MovedToNew sheet.now identity out.old out.new scratch.old scratch.new (written result) }
{
    judge_to_new(sheet, identity, out.len(), scratch.len())?;
    let length = places::IDENTITY_SIZE + sheet.len();
    put_new(out, identity, sheet);
    keep_copy(out, length, scratch);
    Ok(length)
}

// A new sheet back to the old form: the bytes written, and its identity; or a refusal, likewise.
pub fn to_old(
    sheet: &[u8],
    out: &mut [u8],
    scratch: &mut [u8],
) -> Result<(usize, Identity), Refusal>
    ensures { MovedToOld sheet.now out.old out.new scratch.old scratch.new (told_back result) }
{
    judge_to_old(sheet, out.len(), scratch.len())?;
    let length = sheet.len() - places::IDENTITY_SIZE;
    put_old(out, sheet);
    keep_copy(out, length, scratch);
    Ok((length, sheet::identity_at(sheet)))
}
