// What a frame is answered with and what it changes, and the registers as they read (01, "The bus"; Change 1).
#![tactic(auto)]

ghost use Rattle.std.specs.Prelude.{◌≡◌, true, Ok};
ghost use Rattle.modbus.specs.Judgement.{frame_of};
ghost use Rattle.panel.specs.ForCode.{InRange};
ghost use Rattle.answers.specs.Answer.{register_as, answer_as};
ghost use Rattle.answers.specs.Parts.{is_read, Parted};
ghost use Rattle.answers.specs.Register.{steps_at, reading_float, reading_at, panel_at, register_at, answer_of};
ghost use Rattle.answers.specs.Within.{StateWithin};
ghost use Rattle.in_force.specs.InForce.{setup_by};
ghost use Rattle.state.specs.Request.{state_by};
ghost use Rattle.state.specs.Within.{ReadingsWithin};

use binary32::sent::{float_of_steps, float_of_whole};
use figures::Calibration;
use in_force::Setup;
use modbus::frame::Request;
use refusal::Refusal;
use state::{Readings, State};

// The registers of a reading that count in steps.
#[tactic(auto, unfolding(crate::specs::Register::steps_at))]
fn steps_at(readings: &Readings, register: u32) -> i64
    ensures { result ≡ steps_at readings.now register }
{
    match register {
        register::SOUT | register::SYS => readings.values.sys,
        register::TEMP => readings.temp,
        register::SRAW => readings.values.sraw,
        register::CELL => readings.values.cell,
        register::CRAW => readings.values.craw,
        register::ELEC => readings.elec,
        register::PEAK => readings.peak,
        register::TROF => readings.trof,
        _ => 0,
    }
}

#[tactic(auto, using(crate::proofs::Within::steps_within), unfolding(crate::specs::Register::reading_float))]
fn reading_float(readings: &Readings, register: u32) -> f32
    requires { ReadingsWithin readings.now }
    ensures { result ≡ reading_float readings.now register }
{
    match register {
        register::STAT => float_of_whole(readings.values.stat),
        _ => float_of_steps(steps_at(readings, register)),
    }
}

#[tactic(auto, unfolding(crate::specs::Register::reading_at))]
fn reading_at(readings: &Readings, register: u32) -> Result<f32, Refusal>
    requires { ReadingsWithin readings.now }
    ensures { register_as result ≡ reading_at readings.now register }
{
    readings.known()?;
    Ok(reading_float(readings, register))
}

// The copy's figures; the actions read 0.0.
#[tactic(auto, unfolding(crate::specs::Register::panel_at))]
fn panel_at(copy: &Calibration, register: u32) -> f32
    requires { InRange copy.now }
    ensures { register_as (Ok result) ≡ panel_at copy.now register }
{
    if panel::is_figure(register) {
        panel::figure_float(copy, register)
    } else {
        0.0
    }
}

// FLAG, SZ, SYSN; from CGAI on the panel's; all others are of a reading.
#[tactic(auto, unfolding(crate::specs::Register::register_at))]
fn register_at(state: &State, setup: &Setup, register: u32) -> Result<f32, Refusal>
    requires { StateWithin state.now setup.now.figures.system.sz setup.now.copy }
    ensures { register_as result ≡ register_at state.now setup.now.figures.system.sz setup.now.copy register }
{
    match register {
        register::CGAI.. => Ok(panel_at(&setup.copy, register)),
        register::FLAG => Ok(float_of_whole(state.flag)),
        register::SZ => Ok(float_of_steps(setup.figures.system.sz)),
        register::SYSN if state.snapshot.taken => Ok(float_of_steps(state.snapshot.sysn)),
        register::SYSN => Err(Refusal::NoSnapshot),
        _ => reading_at(&state.readings, register),
    }
}

// A judged frame is answered, and what it changes is stored, and nothing else; by the tests of a frame, too.
pub fn obey(state: &mut State, setup: &mut Setup, request: Request) -> Result<Option<f32>, Refusal>
    requires { is_read (frame_of (Ok request)) ≡ true → StateWithin state.old setup.old.figures.system.sz setup.old.copy }
    ensures answer { answer_as result ≡ answer_of state.old setup.old (frame_of (Ok request)) }
    ensures state { state.new ≡ state_by state.old (frame_of (Ok request)) }
    ensures setup { setup.new ≡ setup_by setup.old (frame_of (Ok request)) }
    ensures parts { Parted state.old setup.old (frame_of (Ok request)) (answer_as result) state.new setup.new }
{
    answer(state, setup, request)
}

#[tactic(auto, unfolding(crate::specs::Parts::is_read, crate::specs::Register::answer_of, crate::specs::Register::on_copy, crate::specs::Register::on_reading, in_force::specs::InForce::setup_acted, in_force::specs::InForce::setup_by, in_force::specs::InForce::setup_written, panel::specs::Figure::is_figure, state::specs::Request::acted, state::specs::Request::flagged, state::specs::Request::state_by))]
fn answer(state: &mut State, setup: &mut Setup, request: Request) -> Result<Option<f32>, Refusal>
    requires { is_read (frame_of (Ok request)) ≡ true → StateWithin state.old setup.old.figures.system.sz setup.old.copy }
    ensures answer { answer_as result ≡ answer_of state.old setup.old (frame_of (Ok request)) }
    ensures state { state.new ≡ state_by state.old (frame_of (Ok request)) }
    ensures setup { setup.new ≡ setup_by setup.old (frame_of (Ok request)) }
{
    match request {
        Request::Read(register) => return Ok(Some(register_at(state, setup, register)?)),
        Request::Write(register::FLAG, x) => state.write_flag(x),
        Request::Write(register, x) => setup.write(register, x),
        Request::Act(register::APPLY) => setup.apply()?,
        Request::Act(register::RST) => {
            state.restart();
            setup.restart();
        }
        Request::Act(register::SNAP) => state.snap()?,
        Request::Act(register::PEAK_RESET) => state.reset_peaks()?,
        Request::Act(_) => state.readings.known()?, // no other is listed
    }
    Ok(None)
}
