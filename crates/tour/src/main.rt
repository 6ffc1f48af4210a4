// The library by example: a sheet is written and read back by its cursor, a device is made of it, takes two readings, serves frames and
// gives reports, is calibrated from the panel, and reads a hot hopper by its probe; four weigh a lorry. Each call prints a line: what was
// called, its number, and what it gave. What standard output does not take is left out, and the calls go on.
#![tactic(auto)]

ghost use Rattle.figures.specs.Default.{default_sheet};
ghost use Rattle.sheet.specs.Write.{sheet_bytes};
ghost use Rattle.converter.specs.Call.{reading, frame, probe};
ghost use Rattle.converter.specs.Making.{outcome_of};
ghost use Rattle.converter.specs.Reached.{Reached, Making};
ghost use Rattle.tour.specs.Next.{Next};

mod contents;
mod lines;
mod lorry;
mod sections;

use converter::{Device, Sample};
use figures::Calibration;
use lines::{Hex, Pattern};
use refusal::{Refusal, number_of};

fn main(rt: HostRuntime) {
    if let Ok(made) = make_device(&rt) {
        let mut device = made;
        go_through(&rt, &mut device);
        lorry::weigh_lorry(&rt, made);
    }
}

// All that one device does here.
fn go_through(rt: &impl Print, device: &mut Device)
    requires { Reached device.old }
{
    take_readings(rt, device);
    read_values(rt, device);
    write_zero(rt, device);
    print_report(rt, "with a reading", device);
    restart(rt, device);
    calibrate(rt, device);
    set_copy_back(rt, device);
    read_hot_hopper(rt, device);
}

// A device of the default sheet, at station 52. The buffer has room for the longest sheet.
fn make_device(rt: &impl Print) -> Result<Device, Refusal>
    ensures { Making (sheet_bytes default_sheet) 52 (outcome_of result) }
{
    let mut buffer = [0u8; 325];
    let written = sheet_writer::write(Calibration::new(), &mut buffer);
    let number = number_of(&written);
    let length = written.unwrap_or(0);
    let _ = println!(rt; "sheet_writer::write default figures: {number}, {length} bytes");
    device_of(rt, &buffer[..length])
}

// The sheet is read by its cursor, and so are the first 9 bytes of another, a count and a figure; then a device is made of the sheet.
fn device_of(rt: &impl Print, sheet: &[u8]) -> Result<Device, Refusal>
    ensures { Making sheet.now 52 (outcome_of result) }
{
    sections::print_sheet(rt, sheet);
    sections::print_cell(rt, "cell, 9 bytes", b"\x04\x07\x00\x00\x00\x00\x00\x00\x00");
    let made = Device::make(sheet, 52);
    let number = number_of(&made);
    let _ = println!(rt; "Device::make station 52: {number}");
    made
}

// 100 %; then a load below the range of the cell, which FLAG latches.
fn take_readings(rt: &impl Print, device: &mut Device)
    requires { Reached device.old }
    ensures { Reached device.new }
{
    take_reading(rt, device, "100 %", sample_of(6_553_600));
    take_reading(rt, device, "below the range", sample_of(-9_830_401));
}

// A write of SNAP (register 103), and reads of SYS (10), PEAK (24), TROF (25), SYSN (23) and FLAG (14). A frame is station 52,
// function, wire address (twice the register), quantity 2, for a write the byte count 4 and the value, and the checksum.
fn read_values(rt: &impl Print, device: &mut Device)
    requires { Reached device.old }
    ensures { Reached device.new }
{
    send(
        rt,
        device,
        "write SNAP",
        b"\x34\x10\x00\xce\x00\x02\x04\x00\x00\x00\x00\x90\xbf",
    );
    send(rt, device, "read SYS", b"\x34\x03\x00\x14\x00\x02\x81\xaa");
    send(rt, device, "read PEAK", b"\x34\x03\x00\x30\x00\x02\xc1\xa1");
    send(rt, device, "read TROF", b"\x34\x03\x00\x32\x00\x02\x60\x61");
    send(rt, device, "read SYSN", b"\x34\x03\x00\x2e\x00\x02\xa1\xa7");
    send(rt, device, "read FLAG", b"\x34\x03\x00\x1c\x00\x02\x00\x68");
}

// SZ (22) becomes 2.5, the float 40200000, whose words are swapped on the wire. Register 7 is not listed.
fn write_zero(rt: &impl Print, device: &mut Device)
    requires { Reached device.old }
    ensures { Reached device.new }
{
    send(
        rt,
        device,
        "write SZ",
        b"\x34\x10\x00\x2c\x00\x02\x04\x00\x00\x40\x20\x2f\x36",
    );
    send(rt, device, "read SZ", b"\x34\x03\x00\x2c\x00\x02\x00\x67");
    send(rt, device, "read 7", b"\x34\x03\x00\x0e\x00\x02\xa0\x6d");
}

// RST (100) forgets the readings: no report until the next one. FLAG still warns, until a write that lacks the bits (02, Change 7).
fn restart(rt: &impl Print, device: &mut Device)
    requires { Reached device.old }
    ensures { Reached device.new }
{
    send(
        rt,
        device,
        "write RST",
        b"\x34\x10\x00\xc8\x00\x02\x04\x00\x00\x00\x00\x10\x95",
    );
    print_report(rt, "after RST", device);
    send(rt, device, "read FLAG", b"\x34\x03\x00\x1c\x00\x02\x00\x68");
    send(
        rt,
        device,
        "write FLAG",
        b"\x34\x10\x00\x1c\x00\x02\x04\x00\x00\x47\x00\x2f\xca",
    );
    send(rt, device, "read FLAG", b"\x34\x03\x00\x1c\x00\x02\x00\x68");
}

// CGAI (40) of the waiting copy becomes 2.0. SYS, at 40 %, is by the figures in force until a write to register 99 puts the copy in
// force, from the next reading.
fn calibrate(rt: &impl Print, device: &mut Device)
    requires { Reached device.old }
    ensures { Reached device.new }
{
    send(
        rt,
        device,
        "write CGAI",
        b"\x34\x10\x00\x50\x00\x02\x04\x00\x00\x40\x00\x29\x9f",
    );
    send(rt, device, "read CGAI", b"\x34\x03\x00\x50\x00\x02\xc1\xbf");
    take_reading(rt, device, "40 %", sample_of(2_621_440));
    send(rt, device, "read SYS", b"\x34\x03\x00\x14\x00\x02\x81\xaa");
    send(
        rt,
        device,
        "write 99",
        b"\x34\x10\x00\xc6\x00\x02\x04\x00\x00\x00\x00\x91\x19",
    );
    take_reading(rt, device, "40 %", sample_of(2_621_440));
    send(rt, device, "read SYS", b"\x34\x03\x00\x14\x00\x02\x81\xaa");
}

// CMIN (44) of the copy becomes 160, above CMAX: no sheet with these figures would be accepted, so 99 is refused and the copy stays as
// written. RST sets it back to the figures in force.
fn set_copy_back(rt: &impl Print, device: &mut Device)
    requires { Reached device.old }
    ensures { Reached device.new }
{
    send(
        rt,
        device,
        "write CMIN",
        b"\x34\x10\x00\x58\x00\x02\x04\x00\x00\x43\x20\x29\x11",
    );
    send(
        rt,
        device,
        "write 99",
        b"\x34\x10\x00\xc6\x00\x02\x04\x00\x00\x00\x00\x91\x19",
    );
    send(rt, device, "read CMIN", b"\x34\x03\x00\x58\x00\x02\x40\x7d");
    send(
        rt,
        device,
        "write RST",
        b"\x34\x10\x00\xc8\x00\x02\x04\x00\x00\x00\x00\x10\x95",
    );
    send(rt, device, "read CMIN", b"\x34\x03\x00\x58\x00\x02\x40\x7d");
    send(rt, device, "read CGAI", b"\x34\x03\x00\x50\x00\x02\xc1\xbf");
}

// 50 %, and 138.5055 ohm of a platinum probe: TEMP (11) is 100 °C. A probe that is torn off has no resistance in the table, and the
// reading before it stands (02, Change 8).
fn read_hot_hopper(rt: &impl Print, device: &mut Device)
    requires { Reached device.old }
    ensures { Reached device.new }
{
    take_probe(rt, device, "138.5055 ohm", 3_276_800, 1_385_055, 0);
    send(rt, device, "read TEMP", b"\x34\x03\x00\x16\x00\x02\x20\x6a");
    take_probe(rt, device, "torn off", 3_276_800, i64::MAX, 0);
    send(rt, device, "read TEMP", b"\x34\x03\x00\x16\x00\x02\x20\x6a");
}

// ELEC in steps, at 20 °C and sound.
pub(crate) fn sample_of(elec: i64) -> Sample {
    Sample {
        elec,
        temp: 1_310_720,
        integrity: 0,
    }
}

fn take_reading(rt: &impl Print, device: &mut Device, what: &str, sample: Sample)
    requires { Reached device.old }
    ensures { Next device.old (reading sample.elec sample.temp sample.integrity) device.new }
{
    let number = number_of(&device.reading(sample));
    let _ = println!(rt; "reading {what}: {number}");
}

// A reading of ELEC, in steps, the resistance of a platinum probe, in 0.0001 ohm, and the integrity byte.
fn take_probe(
    rt: &impl Print,
    device: &mut Device,
    what: &str,
    elec: i64,
    resistance: i64,
    integrity: u8,
)
    requires { Reached device.old }
    ensures { Next device.old (probe elec resistance integrity) device.new }
{
    let number = number_of(&device.probe(elec, resistance, integrity));
    let _ = println!(rt; "probe {what}: {number}");
}

// A frame, with a buffer of 16 bytes lent for its reply.
fn send(rt: &impl Print, device: &mut Device, what: &str, sent: &[u8])
    requires { Reached device.old }
    ensures { Next device.old (frame sent.now 16) device.new }
{
    let mut reply = [0u8; 16];
    let answered = device.frame(sent, &mut reply);
    let number = answered.number;
    let replied = Hex(&reply[..answered.length]);
    let _ = println!(rt; "frame {what}: {number},{replied}");
}

// SYS, PEAK, TROF and CELL.
pub(crate) fn print_report(rt: &impl Print, what: &str, device: &Device)
    requires { Reached device.now }
{
    let reported = device.report();
    let number = number_of(&reported);
    let report = reported.unwrap_or_default();
    let sys = Pattern(report.sys);
    let peak = Pattern(report.peak);
    let trof = Pattern(report.trof);
    let cell = Pattern(report.cell);
    let _ = println!(rt; "report {what}: {number}{sys}{peak}{trof}{cell}");
}
