// What a frame makes of a device but for its figures (01, "The bus"). Its bytes are judged before (`modbus`).
ghost use Rattle.std.specs.Prelude.{◌≡◌};
ghost use Rattle.state.specs.Known.{known};
ghost use Rattle.state.specs.Request.{fresh as fresh_state, restarted, snapped, peaks_reset, flag_whole, flagged};
ghost use Rattle.register.specs.Number.{FLAG};

use crate::{Readings, Snapshot, State};
use refusal::Refusal;

// FLAG after a start.
const REBOOT: u16 = 32_768;

// The whole number that is written to FLAG.
fn flag_whole(x: f32) -> u16
    ensures { result ≡ flag_whole x }
{
    binary32::received::count(register::range_of(register::FLAG), x) as u16
}

impl State {
    // A start: no reading, no snapshot, and FLAG says REBOOT.
    #[tactic(auto, unfolding(crate::specs::Request::fresh))]
    pub fn fresh() -> Self
        ensures { result ≡ fresh_state }
    {
        State {
            readings: Readings::default(),
            flag: REBOOT,
            snapshot: Snapshot::default(),
        }
    }

    // RST: as at a start, but for the flags that stood, to which REBOOT is added (02, Change 7).
    #[tactic(auto, unfolding(crate::specs::Request::restarted))]
    pub fn restart(&mut self)
        ensures { self.new ≡ restarted self.old }
    {
        self.readings = Readings::default();
        self.flag |= REBOOT;
        self.snapshot = Snapshot::default();
    }

    // SNAP, after a reading.
    #[tactic(auto, unfolding(crate::specs::Request::snapped))]
    pub fn snap(&mut self) -> Result<(), Refusal>
        ensures outcome { result ≡ known self.old.readings }
        ensures state { self.new ≡ snapped self.old }
    {
        self.readings.known()?;
        self.snapshot = Snapshot {
            taken: true,
            sysn: self.readings.values.sys,
        };
        Ok(())
    }

    // Peak reset, after a reading.
    #[tactic(auto, unfolding(crate::specs::Request::peaks_reset))]
    pub fn reset_peaks(&mut self) -> Result<(), Refusal>
        ensures outcome { result ≡ known self.old.readings }
        ensures state { self.new ≡ peaks_reset self.old }
    {
        self.readings.known()?;
        self.readings.peak = self.readings.values.sys;
        self.readings.trof = self.readings.values.sys;
        Ok(())
    }

    // FLAG keeps the bits that are written.
    #[tactic(auto, unfolding(crate::specs::Request::flagged))]
    pub fn write_flag(&mut self, x: f32)
        ensures { self.new ≡ flagged self.old FLAG x }
    {
        self.flag &= flag_whole(x);
    }
}
