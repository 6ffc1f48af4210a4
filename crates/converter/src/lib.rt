// The converter (01): a device and its calls, making, reading, report and bus frame. Each takes any bytes and numbers, and any
// device that a making and these calls gave; a call that is turned down says why, by 01's table.
#![tactic(auto)]

ghost use Rattle.std.specs.Prelude.{◌≡◌, false};
ghost use Rattle.refusal.specs.Refusal.{number_of};
ghost use Rattle.state.specs.Reading.{bad_reading};
ghost use Rattle.state.specs.Report.{report_of, reported};
ghost use Rattle.answers.specs.Answer.{answer_as};
ghost use Rattle.converter.specs.Call.{reading, frame as a_frame, answer_to_bytes, after_call};
ghost use Rattle.converter.specs.Corner.{bad_sample};
ghost use Rattle.converter.specs.Corners.{reading_of};
ghost use Rattle.converter.specs.Making.{outcome_of};
ghost use Rattle.converter.specs.Reached.{Reached, Making, Reading, Probing, Serving};

mod bus;
mod corner;
mod making;

pub use bus::{Answered, deliver};
pub use corner::{Sample, Samples};
use in_force::Setup;
use refusal::Refusal;
use state::{Report, State};

#[repr(C)]
#[derive(Clone, Copy)]
pub struct Device {
    pub setup: Setup,
    pub state: State,
}

// A making as C is given it: 0 and the device; or the number of the refusal, and a record of zeros.
// Kept: C has no Result.
#[repr(C)]
#[derive(Clone, Copy)]
pub struct Outcome {
    pub number: u8,
    pub device: Device,
}

impl Device {
    // A device of a calibration sheet and a station: 8, then 1 to 7.
    pub fn make(sheet: &[u8], station: u8) -> Result<Device, Refusal>
        ensures { Making sheet.now station (outcome_of result) }
    {
        if !making::station_fits(station) {
            return Err(Refusal::Station);
        }
        let figures = sheet::read(sheet)?;
        Ok(Device {
            setup: Setup {
                figures,
                copy: figures,
                station,
            },
            state: State::fresh(),
        })
    }

    // A reading: 9.
    pub fn reading(&mut self, sample: Sample) -> Result<(), Refusal>
        requires { Reached self.old }
        ensures { Reading self.old sample.elec sample.temp sample.integrity (record { number = number_of result; device = self.new }) }
    {
        if sample.is_bad() {
            return Err(Refusal::BadReading);
        }
        self.join(sample);
        Ok(())
    }

    // A reading from the resistance of a platinum probe, in 0.0001 ohm, in place of TEMP (02, Change 8): 20, then 9.
    pub fn probe(&mut self, elec: i64, resistance: i64, integrity: u8) -> Result<(), Refusal>
        requires { Reached self.old }
        ensures { Probing self.old elec resistance integrity (record { number = number_of result; device = self.new }) }
    {
        if probe::is_beyond(resistance) {
            return Err(Refusal::Probe);
        }
        let temp = probe::temp_of(resistance);
        self.reading(Sample {
            elec,
            temp,
            integrity,
        })
    }

    // A good reading joins, by steps 1 to 5.
    pub fn join(&mut self, sample: Sample)
        requires reached { Reached self.old }
        requires good { bad_sample sample ≡ false }
        ensures { self.new ≡ after_call self.old (reading_of sample) }
    {
        self.join_parts(sample.elec, sample.temp, sample.integrity);
    }

    // Kept: the parts of a sample, which stay in registers. As one they are stored and loaded again: 6 of a reading's 156 instructions,
    // 17 of the 675 of four corners.
    #[inline(never)]
    fn join_parts(&mut self, elec: i64, temp: i64, integrity: u8)
        requires reached { Reached self.old }
        requires good { bad_reading elec temp integrity ≡ false }
        ensures { self.new ≡ after_call self.old (reading elec temp integrity) }
    {
        // The input is stored before the filter, by what stood before it: no register is to keep it over the reading.
        let before = self.state.readings;
        self.state.remember(elec);
        let held = before.held_after(self.setup.figures.filter, elec);
        let input = compensation::input_at(self.setup.figures.temperature, held, temp);
        let cell = compensation::cell_values(
            self.setup.figures.cell,
            self.setup.figures.linearity,
            input,
        );
        let values = compensation::values_from(
            self.setup.figures.cell,
            self.setup.figures.system,
            cell,
            held,
            temp,
            integrity,
        );
        self.state.take(held, temp, values);
    }

    // SYS, PEAK, TROF and CELL of the readings: 10.
    pub fn report(&self) -> Result<Report, Refusal>
        requires { Reached self.now }
        ensures { reported result ≡ report_of self.now.state.readings }
    {
        self.state.readings.report()
    }

    // A bus frame, and a buffer for the reply, of which the bytes past the reply stay as they are: 12 to 16, then 10, 11 or 17.
    pub fn frame(&mut self, frame: &[u8], reply: &mut [u8]) -> Answered
        requires { Reached self.old }
        ensures { Serving self.old frame.now reply.old reply.new (record { number = result.number; length = result.length; device = self.new }) }
    {
        let answer = self.obey(frame, reply.len());
        deliver(frame, reply, answer)
    }

    // A frame is judged and obeyed, and answered with a value if it is a read.
    #[tactic(auto, unfolding(crate::specs::Call::answer_to_bytes, answers::specs::Register::answer_of, in_force::specs::InForce::setup_by, state::specs::Request::state_by))]
    fn obey(&mut self, frame: &[u8], room: usize) -> Result<Option<f32>, Refusal>
        requires { Reached self.old }
        ensures answer { answer_as result ≡ answer_to_bytes self.old frame.now room }
        ensures device { self.new ≡ after_call self.old (a_frame frame.now room) }
    {
        let request = modbus::frame::judge(frame, room, self.setup.station)?;
        answers::obey(&mut self.state, &mut self.setup, request)
    }
}
