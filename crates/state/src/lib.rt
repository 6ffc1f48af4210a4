// What a device keeps of its readings, and what a reading, a report and a frame make of it (01, "The reading", "The bus").
#![tactic(auto)]

ghost use Rattle.std.specs.Prelude.{◌≡◌};
ghost use Rattle.state.specs.Known.{known};

mod joining;
mod reporting;
mod requests;

use compensation::Values;
pub use joining::bad_reading;
use refusal::Refusal;
pub use reporting::{Report, Reported};

// What the readings since the start or RST left: whether there is one; of the last, its input before the filter, ELEC as the filter
// holds it, TEMP and its values; PEAK and TROF.
// Kept: the flag beside the values, and `taken` below, are fields of C's record; and since C hands in any record, no invariant of the type
// holds the values within the floats that are sent (`ReadingsWithin`).
#[repr(C)]
#[derive(Clone, Copy, Default)]
pub struct Readings {
    pub any: bool,
    pub input: i64,
    pub elec: i64,
    pub temp: i64,
    pub values: Values,
    pub peak: i64,
    pub trof: i64,
}

// SYSN, where one was taken.
#[repr(C)]
#[derive(Clone, Copy, Default)]
pub struct Snapshot {
    pub taken: bool,
    pub sysn: i64,
}

// What a start makes anew.
#[repr(C)]
#[derive(Clone, Copy)]
pub struct State {
    pub readings: Readings,
    pub flag: u16,
    pub snapshot: Snapshot,
}

impl Readings {
    // Is there a reading? What asks for one is turned down before the first since a start or RST.
    pub fn known(&self) -> Result<(), Refusal>
        ensures { result ≡ known self.now }
    {
        if self.any {
            Ok(())
        } else {
            Err(Refusal::NoReading)
        }
    }
}
