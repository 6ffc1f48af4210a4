// Cases with their expected values: the messages of 001, known checksums, floats both ways, and a frame and a reply of each kind
// (01, "Conditions of acceptance"). Each is a proof obligation, that the definitions give the expected value, and is run as well:
// a case that comes out otherwise ends the run before its kind is named.
#![tactic(auto)]

mod checksums;
mod floats;
mod frames;
mod received;
mod replies;

use std::io;

fn main(rt: HostRuntime) -> io::Result<()> {
    checksums::cases();
    println!(rt; "checksums: as expected")?;
    floats::of_001();
    floats::steps_out();
    floats::parts_out();
    println!(rt; "floats: as expected")?;
    received::zeros();
    received::flags();
    received::gains();
    received::adjustments();
    received::offsets();
    received::filters();
    received::counts();
    println!(rt; "received: as expected")?;
    frames::asked();
    frames::acted();
    frames::written();
    frames::panel();
    frames::figures_written();
    frames::points_written();
    frames::temperature_points_written();
    frames::not_served();
    frames::misdirected();
    frames::unlisted();
    frames::unfit();
    frames::unfit_figures();
    frames::long();
    println!(rt; "frames: as expected")?;
    replies::replies();
    replies::exceptions();
    replies::exceptions_to_writes();
    replies::silences();
    println!(rt; "replies: as expected")
}
