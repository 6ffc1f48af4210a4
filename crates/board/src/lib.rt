// The entries that firmware links (01): "A board keeps one device record for months, and each frame updates that record". Each hands on
// to a call of `converter` or `platform` on the lent record, and says in C's words what that gave.
#![tactic(auto)]

ghost use Rattle.std.specs.Prelude.{◌≡◌};
ghost use Rattle.state.specs.Report.{report_of};
ghost use Rattle.platform.specs.Platform.{AllReached, Weighing};
ghost use Rattle.converter.specs.Reached.{Reached, Making, Reading, Probing, Serving};

use converter::{Answered, Device, Outcome, Sample, Samples};
use platform::Weighed;
use refusal::number_of;
use state::Reported;

// A device of a calibration sheet and a station: 8, then 1 to 7, and a record in which every field is 0, which is no device. The
// outcome is given by value, so that a sheet that is refused leaves the board's record as it is.
#[unsafe(no_mangle)]
pub extern "C" fn converter_make(sheet: &[u8], station: u8) -> Outcome
    ensures { Making sheet.now station result }
{
    Outcome::from(Device::make(sheet, station))
}

// A reading, from ELEC, TEMP and the integrity byte: 0, or 9.
#[unsafe(no_mangle)]
pub extern "C" fn converter_reading(device: &mut Device, elec: i64, temp: i64, integrity: u8) -> u8
    requires { Reached device.old }
    ensures { Reading device.old elec temp integrity (record { number = result; device = device.new }) }
{
    let sample = Sample {
        elec,
        temp,
        integrity,
    };
    number_of(&device.reading(sample))
}

// A reading from the resistance of a platinum probe, in 0.0001 ohm, in place of TEMP (02, Change 8): 0, or 20, then 9.
#[unsafe(no_mangle)]
pub extern "C" fn converter_probe(
    device: &mut Device,
    elec: i64,
    resistance: i64,
    integrity: u8,
) -> u8
    requires { Reached device.old }
    ensures { Probing device.old elec resistance integrity (record { number = result; device = device.new }) }
{
    number_of(&device.probe(elec, resistance, integrity))
}

// A reading of each corner of a platform (02, Change 4), of four records: 0 and the weights, in steps; or 18, zeros, and no corner takes
// its own.
#[unsafe(no_mangle)]
pub extern "C" fn converter_weigh(
    one: &mut Device,
    two: &mut Device,
    three: &mut Device,
    four: &mut Device,
    samples: &Samples,
) -> Weighed
    requires { AllReached (record { one = one.old; two = two.old; three = three.old; four = four.old }) }
    ensures { Weighing (record { one = one.old; two = two.old; three = three.old; four = four.old }) samples.now (record { weighed = result; platform = record { one = one.new; two = two.new; three = three.new; four = four.new } }) }
{
    Weighed::from(platform::weigh(one, two, three, four, samples))
}

// A bus frame, and a buffer for the reply, of which the bytes past the reply stay as they are: 0, or 10 to 17.
#[unsafe(no_mangle)]
pub extern "C" fn converter_frame(device: &mut Device, frame: &[u8], reply: &mut [u8]) -> Answered
    requires { Reached device.old }
    ensures { Serving device.old frame.now reply.old reply.new (record { number = result.number; length = result.length; device = device.new }) }
{
    device.frame(frame, reply)
}

// SYS, PEAK, TROF and CELL of the readings: 0, or 10, and 0.0 each. The record stays as it is.
#[unsafe(no_mangle)]
pub extern "C" fn converter_report(device: &Device) -> Reported
    requires { Reached device.now }
    ensures { result ≡ report_of device.now.state.readings }
{
    Reported::from(device.report())
}
