// The report (01, "The reading").
ghost use Rattle.std.specs.Prelude.{◌≡◌};
ghost use Rattle.state.specs.Within.{ReadingsWithin};
ghost use Rattle.state.specs.Report.{report_of, reported};

use crate::Readings;
use binary32::sent::float_of_steps;
use refusal::Refusal;

#[repr(C)]
#[derive(Clone, Copy, Default)]
pub struct Report {
    pub sys: f32,
    pub peak: f32,
    pub trof: f32,
    pub cell: f32,
}

// A report as C is given it: 0 beside it, or the number of the refusal, and zeros.
// Kept: C has no Result.
#[repr(C)]
#[derive(Clone, Copy)]
pub struct Reported {
    pub number: u8,
    pub report: Report,
}

impl Readings {
    // SYS, PEAK, TROF and CELL; not before the first reading.
    #[tactic(auto, unfolding(crate::specs::Report::report_of))]
    pub fn report(&self) -> Result<Report, Refusal>
        requires { ReadingsWithin self.now }
        ensures { reported result ≡ report_of self.now }
    {
        self.known()?;
        Ok(Report {
            sys: float_of_steps(self.values.sys),
            peak: float_of_steps(self.peak),
            trof: float_of_steps(self.trof),
            cell: float_of_steps(self.values.cell),
        })
    }
}

impl From<Result<Report, Refusal>> for Reported {
    ghost from_gives = { λ outcome made. made ≡ reported outcome };

    fn from(outcome: Result<Report, Refusal>) -> Reported {
        Reported {
            number: refusal::number_of(&outcome),
            report: outcome.unwrap_or_default(),
        }
    }
}
