// The calibration sheet (01, "The calibration sheet"; 02, Change 6): bytes to figures, and the judgement of figures. `sheet_writer`
// writes one.
#![tactic(auto)]

ghost use Rattle.std.specs.Prelude.{◌≡◌, IfOk};
ghost use Rattle.refusal.specs.Refusal.{number_of};
ghost use Rattle.sheet.specs.Step.{started, count_step, figure_step};
ghost use Rattle.sheet.specs.Forms.{told};

mod bytes;
mod forms;
mod judgement;
pub mod places;
mod point;
mod reading;

use bytes::figure_in;
use figures::Calibration;
pub use forms::{
    identity_at, judge_identity, judge_new, judge_old, judge_sheet, read, read_contents,
};
pub use judgement::{judge, sheet_length};
pub use point::SheetPoint;
pub use reading::no_figures;
use refusal::Refusal;

// What marks one sheet (02, Change 6): its serial number, and its day, in days after 1 January 2000.
#[repr(C)]
#[derive(Clone, Copy)]
pub struct Identity {
    pub serial: i64,
    pub day: i64,
}

// What C is told of a sheet of either form, and 0; or the number of its first fault, and zeros. The form is the first count, 4 for the
// old one, which has no identity, and 2 for the new. Kept: C reads this record.
#[repr(C)]
#[derive(Clone, Copy)]
pub struct Contents {
    pub number: u8,
    pub form: u8,
    pub identity: Identity,
    pub figures: Calibration,
}

impl From<Result<(Option<Identity>, Calibration), Refusal>> for Contents {
    ghost from_gives = { λ read contents. contents ≡ told read };

    fn from(read: Result<(Option<Identity>, Calibration), Refusal>) -> Contents {
        let none = Identity { serial: 0, day: 0 };
        match read {
            Ok((None, figures)) => Contents {
                number: 0,
                form: 4,
                identity: none,
                figures,
            },
            Ok((Some(identity), figures)) => Contents {
                number: 0,
                form: 2,
                identity,
                figures,
            },
            Err(refusal) => Contents {
                number: refusal.number(),
                form: 0,
                identity: none,
                figures: no_figures(),
            },
        }
    }
}

// The lent sheet itself, and how far it has been read. A step that finds too few bytes left is refused, and leaves the cursor as it is.
#[derive(Clone, Copy)]
pub struct Cursor<'a> {
    pub sheet: &'a [u8],
    pub at: usize,
}

impl<'a> Cursor<'a> {
    // At the sheet's first byte.
    pub fn start(sheet: &'a [u8]) -> Cursor<'a>
        ensures { result ≡ started sheet.entry }
    {
        Cursor { sheet, at: 0 }
    }

    // The count that stands where the cursor is.
    #[tactic(auto, using(crate::proofs::Refused::tests), unfolding(crate::specs::Step::count_found))]
    pub fn count(&mut self) -> Result<u8, Refusal>
        ensures number { number_of result ≡ (count_step self.old).number }
        ensures value { IfOk result (λ value. value ≡ (count_step self.old).value) }
        ensures next { self.new ≡ (count_step self.old).next }
    {
        let value = *self.sheet.get(self.at).ok_or(Refusal::ShortSheet)?;
        self.at += 1;
        Ok(value)
    }

    // The figure that stands where the cursor is.
    #[tactic(auto, using(crate::proofs::Refused::tests), unfolding(crate::specs::Step::figure_found))]
    pub fn figure(&mut self) -> Result<i64, Refusal>
        ensures number { number_of result ≡ (figure_step self.old).number }
        ensures value { IfOk result (λ value. value ≡ (figure_step self.old).value) }
        ensures next { self.new ≡ (figure_step self.old).next }
    {
        let value = figure_in(self.sheet, self.at).ok_or(Refusal::ShortSheet)?;
        self.at += 8;
        Ok(value)
    }
}
