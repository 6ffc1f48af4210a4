// The two forms of a sheet (02, Change 6): the new one is an identity, and then a whole old sheet.
ghost use Rattle.std.specs.Prelude.{◌≡◌, IfOk, if◌then◌else◌};
ghost use Rattle.refusal.specs.Refusal.{number_of};
ghost use Rattle.sheet.specs.Places.{identity_size};
ghost use Rattle.sheet.specs.Judge.{short_of};
ghost use Rattle.sheet.specs.Read.{old_number};
ghost use Rattle.sheet.specs.Forms.{identity_at, identity_number, given_number, own_identity_number, is_new, new_number, sheet_number, read_sheet, contents_of, told};

use crate::bytes::{count_at, figure_at};
use crate::judgement::Place;
use crate::reading::read_old;
use crate::{Identity, places};
use figures::Calibration;
use refusal::Refusal;

const SERIAL_MOST: i64 = 4_294_967_295;

const DAY_MOST: i64 = 65_535;

// The identity that stands in front of a new sheet.
#[tactic(auto, using(crate::proofs::Refused::holds), unfolding(crate::specs::Forms::identity_at))]
pub fn identity_at(sheet: &[u8]) -> Identity
    ensures { result ≡ identity_at sheet.now }
{
    let serial = figure_at(sheet, 1);
    let day = figure_at(sheet, 9);
    Identity { serial, day }
}

#[tactic(auto, using(crate::proofs::Refused::steps, crate::proofs::Refused::holds), unfolding(crate::specs::Forms::identity_number))]
fn judge_section(room: usize, count: u8, identity: Identity) -> Result<(), Refusal>
    ensures { number_of result ≡ identity_number (short_of room) count identity }
{
    let place = Place { room, at: 0 };
    place.count(2, 2, count)?;
    place.after(1).range(0, SERIAL_MOST, identity.serial)?;
    place.after(9).range(0, DAY_MOST, identity.day)
}

// A given identity, 3 if it is out of range.
pub fn judge_identity(identity: Identity) -> Result<(), Refusal>
    ensures { number_of result ≡ given_number identity }
{
    judge_section(places::IDENTITY_SIZE, 2, identity)
}

// The section of a sheet's identity.
#[tactic(auto, using(crate::proofs::Refused::steps), unfolding(crate::specs::Forms::own_identity_number))]
fn judge_own_identity(sheet: &[u8]) -> Result<(), Refusal>
    ensures { number_of result ≡ own_identity_number sheet.now }
{
    let count = count_at(sheet, 0);
    judge_section(sheet.len(), count, identity_at(sheet))
}

fn is_new(sheet: &[u8]) -> bool
    ensures { result ≡ is_new sheet.now }
{
    count_at(sheet, 0) == 2
}

// Where the old sheet starts, once what stands in front of it is judged.
fn old_start(sheet: &[u8]) -> Result<usize, Refusal>
    ensures number { number_of result ≡ (if is_new sheet.now then own_identity_number sheet.now else 0) }
    ensures start { IfOk result (λ start. start ≡ (if is_new sheet.now then identity_size else 0)) }
{
    if !is_new(sheet) {
        return Ok(0);
    }
    judge_own_identity(sheet)?;
    Ok(places::IDENTITY_SIZE)
}

// A sheet of the old form, the other one being refused with 2.
#[tactic(auto, unfolding(crate::specs::Read::read_old))]
pub fn judge_old(sheet: &[u8]) -> Result<(), Refusal>
    ensures { number_of result ≡ old_number sheet.now }
{
    read_old(sheet)?;
    Ok(())
}

// A sheet of the new form, likewise.
#[tactic(auto, using(crate::proofs::Refused::steps), unfolding(crate::specs::Forms::new_number))]
pub fn judge_new(sheet: &[u8]) -> Result<(), Refusal>
    ensures { number_of result ≡ new_number sheet.now }
{
    judge_own_identity(sheet)?;
    judge_old(&sheet[places::IDENTITY_SIZE..])
}

// Reads a sheet of either form: its figures, or its first fault.
pub fn read(sheet: &[u8]) -> Result<Calibration, Refusal>
    ensures number { number_of result ≡ (read_sheet sheet.now).number }
    ensures figures { IfOk result (λ figures. figures ≡ (read_sheet sheet.now).figures) }
{
    let start = old_start(sheet)?;
    read_old(&sheet[start..])
}

// A sheet of either form.
#[tactic(auto, unfolding(crate::specs::Forms::read_sheet))]
pub fn judge_sheet(sheet: &[u8]) -> Result<(), Refusal>
    ensures { number_of result ≡ sheet_number sheet.now }
{
    read(sheet)?;
    Ok(())
}

// What is read, and the identity in front of a new sheet; C is told it as `Contents`.
#[tactic(auto, using(crate::proofs::EitherForm::told_contents))]
pub fn read_contents(sheet: &[u8]) -> Result<(Option<Identity>, Calibration), Refusal>
    ensures { told result ≡ contents_of sheet.now }
{
    let figures = read(sheet)?;
    if is_new(sheet) {
        return Ok((Some(identity_at(sheet)), figures));
    }
    Ok((None, figures))
}
