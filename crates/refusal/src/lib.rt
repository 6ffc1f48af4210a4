// Why a call is turned down: 01's numbered table, with the rows that the changes of 02 added.
#![tactic(auto)]

ghost use Rattle.std.specs.Prelude.{◌≡◌};
ghost use Rattle.refusal.specs.Refusal.{number, number_of};

use std::error::Error;
use std::fmt;

#[derive(Clone, Copy, Debug, PartialEq, Eq)]
pub enum Refusal {
    ShortSheet = 1,
    WrongCount,
    Figure,
    Order,
    TooSteep,
    Crossed,
    Trailing,
    Station,
    BadReading,
    NoReading,
    NoSnapshot,
    ShortBuffer,
    NotForUs,
    Function,
    Address,
    Value,
    UnfitCopy,
    CornerRefused,
    Buffers,
    Probe,
}

impl Refusal {
    // Its number in the table.
    pub fn number(self) -> u8
        ensures { result ≡ number self }
    {
        self as u8
    }
}

// What C is told of a call: 0, or the number of its refusal.
pub fn number_of<T>(outcome: &Result<T, Refusal>) -> u8
    ensures { result ≡ number_of outcome.now }
{
    match outcome {
        Ok(_) => 0,
        Err(refusal) => refusal.number(),
    }
}

impl fmt::Display for Refusal {
    fn fmt<W: fmt::Write>(&self, f: &mut fmt::Formatter<W>) -> fmt::Result {
        f.write_str(match self {
            Refusal::ShortSheet => "short sheet",
            Refusal::WrongCount => "wrong count",
            Refusal::Figure => "figure",
            Refusal::Order => "order",
            Refusal::TooSteep => "too steep",
            Refusal::Crossed => "crossed",
            Refusal::Trailing => "trailing",
            Refusal::Station => "station",
            Refusal::BadReading => "bad reading",
            Refusal::NoReading => "no reading",
            Refusal::NoSnapshot => "no snapshot",
            Refusal::ShortBuffer => "short buffer",
            Refusal::NotForUs => "not for us",
            Refusal::Function => "function",
            Refusal::Address => "address",
            Refusal::Value => "value",
            Refusal::UnfitCopy => "unfit copy",
            Refusal::CornerRefused => "corner refused",
            Refusal::Buffers => "buffers",
            Refusal::Probe => "probe",
        })
    }
}

impl Error for Refusal {}
