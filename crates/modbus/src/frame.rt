// What a frame asks, judged by its bytes, the room for a reply and the station alone (01, "The bus").
ghost use Rattle.std.specs.Prelude.{◌≡◌, ◌+◌, ◌*◌, ◌%◌, ◌≤◌, ◌<◌, length, Err, IfOk, OnErr};
ghost use Rattle.refusal.specs.declared.Refusal.TheVariants.{Address};
ghost use Rattle.binary32.specs.ForCode.{Computable};
ghost use Rattle.register.specs.Number.{SZ};
ghost use Rattle.register.specs.Register.{access_of, range_in};
ghost use Rattle.modbus.specs.Judgement.{frame_of};
ghost use Rattle.modbus.specs.Frame.{word_at, to_us, checked, for_us, read_asked, write_of, write_asked, judged};

use refusal::Refusal;
use register::Access;

// What a good frame asks. A write carries the float that it sends, which its register takes. A register's
// number has 32 bits, so that a request fills more than one word: one that fits is packed and unpacked by
// the compiler, some 20 instructions for each call.
#[derive(Clone, Copy)]
pub enum Request {
    Read(u32),
    Write(u32, f32),
    Act(u32),
}

// Two bytes, the high one first. (Kept: no `from_be_bytes`, which takes an array; tools/no-copy sees that none holds bytes.)
fn word_at(bytes: &[u8], at: usize) -> u32
    requires { at + 1 < length bytes.now }
    ensures { result ≡ word_at bytes.now at }
{
    (bytes[at] as u32) * 256 + (bytes[at + 1] as u32)
}

// To this station, or to all and no read?
#[tactic(auto, unfolding(crate::specs::Frame::to_us))]
fn to_us(receiver: u8, function: u8, station: u8) -> bool
    ensures { result ≡ to_us receiver function station }
{
    if receiver == 0 {
        function != 3
    } else {
        receiver == station
    }
}

// Do the last two bytes hold the checksum of the others? Then all of them together leave 0.
fn checksum_right(frame: &[u8]) -> bool
    requires { 4 ≤ length frame.now }
    ensures { result ≡ checked frame.now }
{
    checksum::checksum(frame, frame.len()) == 0
}

#[tactic(auto, unfolding(crate::specs::Frame::for_us))]
fn for_us(frame: &[u8], station: u8) -> bool
    ensures { result ≡ for_us frame.now station }
{
    let n = frame.len();
    4 <= n && n <= 256 && to_us(frame[0], frame[1], station) && checksum_right(frame)
}

// The register that the frame addresses: "Wire address = 2 × register number".
fn register_asked(frame: &[u8]) -> Result<u32, Refusal>
    requires { 4 ≤ length frame.now }
    ensures even { IfOk result (λ register. word_at frame.now 2 ≡ 2 * register) }
    ensures odd { OnErr result ((result ≡ Err Address) × (word_at frame.now 2 % 2 ≡ 1)) }
{
    let address = word_at(frame, 2);
    if address % 2 == 0 {
        Ok(address / 2)
    } else {
        Err(Refusal::Address)
    }
}

// Function 3.
#[tactic(auto, unfolding(crate::specs::Frame::read_asked, crate::specs::Frame::access_asked))]
fn read_asked(frame: &[u8]) -> Result<Request, Refusal>
    ensures { frame_of result ≡ read_asked frame.now }
{
    if frame.len() != 8 || word_at(frame, 4) != 2 {
        return Err(Refusal::Value);
    }
    let register = register_asked(frame)?;
    if register::is_listed(register) {
        Ok(Request::Read(register))
    } else {
        Err(Refusal::Address)
    }
}

// A write of x to a register.
#[tactic(auto, unfolding(crate::specs::Frame::write_of))]
fn write_of(access: Access, register: u32, x: f32) -> Result<Request, Refusal>
    requires { Computable (range_in access) }
    ensures { frame_of result ≡ write_of access register x }
{
    match access {
        Access::Unlisted => Err(Refusal::Address),
        Access::Takes(range) if binary32::received::takes(range, x) => {
            Ok(Request::Write(register, x))
        }
        Access::ReadOnly | Access::Takes(_) => Err(Refusal::Value),
        Access::Action => Ok(Request::Act(register)),
    }
}

// A write of x to SZ, the one register that is written all day: by a test of its own.
#[tactic(auto, unfolding(crate::specs::Frame::write_of, register::specs::Register::access_of))]
fn zero_write(x: f32) -> Result<Request, Refusal>
    ensures { frame_of result ≡ write_of (access_of SZ) SZ x }
{
    if binary32::received::zero_fits(x) {
        Ok(Request::Write(register::SZ, x))
    } else {
        Err(Refusal::Value)
    }
}

// Function 16.
#[tactic(auto, unfolding(crate::specs::Frame::write_asked, crate::specs::Frame::access_asked, crate::specs::Frame::write_of))]
fn write_asked(frame: &[u8]) -> Result<Request, Refusal>
    ensures { frame_of result ≡ write_asked frame.now }
{
    if frame.len() != 13 || word_at(frame, 4) != 2 || frame[6] != 4 {
        return Err(Refusal::Value);
    }
    let x = binary32::wire::float_of_bytes(frame[7], frame[8], frame[9], frame[10]);
    let address = word_at(frame, 2);
    if address == 2 * register::SZ {
        return zero_write(x);
    }
    let register = register_asked(frame)?;
    write_of(register::access_to(register), register, x)
}

// What the frame asks of the device of a station, given the room for a reply: 12, 13, 14, 15 and 16
// are judged here, in 01's order; 10 and 11 are left to the device.
#[tactic(auto, unfolding(crate::specs::Frame::judged))]
pub fn judge(frame: &[u8], room: usize, station: u8) -> Result<Request, Refusal>
    ensures { frame_of result ≡ judged frame.now room station }
{
    if room < 9 {
        return Err(Refusal::ShortBuffer);
    }
    if !for_us(frame, station) {
        return Err(Refusal::NotForUs);
    }
    match frame[1] {
        3 => read_asked(frame),
        16 => write_asked(frame),
        _ => Err(Refusal::Function),
    }
}
