// What frames ask.
ghost use Rattle.std.specs.Prelude.{◌≡◌, Ok};
ghost use Rattle.refusal.specs.Refusal.{number};
ghost use Rattle.modbus.specs.Judgement.{Refused, frame_of};
ghost use Rattle.modbus.specs.Frame.{judged};
ghost use Rattle.vectors.specs.Asked.{asked_number, float_of};

use crate::checksums;
use modbus::frame::Request;
use refusal::Refusal;

// The number of a refusal; else the register, with what is done to it.
// Kept: compared as numbers, and the floats by their patterns. By `==` −0.0 is 0.0, which the cases tell apart.
#[tactic(auto, unfolding(crate::specs::Asked::asked_number))]
fn asked_number(asked: Result<Request, Refusal>) -> u64
    ensures { result ≡ asked_number (frame_of asked) }
{
    match asked {
        Err(refusal) => refusal.number() as u64,
        Ok(Request::Read(register)) => 0x1_0000_0000 + (register as u64),
        Ok(Request::Write(register, _)) => 0x2_0000_0000 + (register as u64),
        Ok(Request::Act(register)) => 0x3_0000_0000 + (register as u64),
    }
}

// The pattern of a write's float; else 0.
#[tactic(auto, unfolding(crate::specs::Asked::float_of))]
fn float_of(asked: Result<Request, Refusal>) -> u32
    ensures { result ≡ float_of (frame_of asked) }
{
    match asked {
        Ok(Request::Write(_, x)) => binary32::wire::bits_of_float(x),
        _ => 0,
    }
}

// The frame is judged as expected, given the room for a reply and the station.
fn judged_as(frame: &[u8], room: usize, station: u8, expected: Result<Request, Refusal>)
    requires { judged frame.now room station ≡ frame_of expected }
{
    let asked = modbus::frame::judge(frame, room, station);
    check::expect(asked_number(asked) == asked_number(expected));
    check::expect(float_of(asked) == float_of(expected));
}

// The frame asks what is expected.
fn asks(frame: &[u8], room: usize, station: u8, expected: Request)
    requires { judged frame.now room station ≡ frame_of (Ok expected) }
{
    judged_as(frame, room, station, Ok(expected));
}

// The frame is turned down for a reason.
fn refused(frame: &[u8], room: usize, station: u8, refusal: Refusal)
    requires { judged frame.now room station ≡ Refused (number refusal) }
{
    judged_as(frame, room, station, Err(refusal));
}

#[tactic(auto, unfolding(crate::proofs::Cases::frames))]
pub(crate) fn asked() {
    // Reads: SYS, 001's read of STAT, and RST.
    asks(
        b"\x01\x03\x00\x14\x00\x02\x84\x0f",
        9,
        1,
        Request::Read(register::SYS),
    );
    asks(
        b"\x34\x03\x00\x0c\x00\x02\x01\xad",
        9,
        52,
        Request::Read(register::STAT),
    );
    asks(
        b"\x01\x03\x00\xc8\x00\x02\x45\xf5",
        9,
        1,
        Request::Read(register::RST),
    );
}

#[tactic(auto, unfolding(crate::proofs::Cases::frames))]
pub(crate) fn acted() {
    // RST, SNAP and peak reset: the value is ignored, a NaN too.
    asks(
        b"\x01\x10\x00\xc8\x00\x02\x04\x00\x00\x7f\xc0\xde\x39",
        9,
        1,
        Request::Act(register::RST),
    );
    asks(
        b"\x01\x10\x00\xce\x00\x02\x04\x00\x00\x00\x00\x7e\x73",
        9,
        1,
        Request::Act(register::SNAP),
    );
    asks(
        b"\x00\x10\x00\xd0\x00\x02\x04\x00\x00\xff\x80\xba\x5f",
        9,
        1,
        Request::Act(register::PEAK_RESET),
    );
}

#[tactic(auto, unfolding(crate::proofs::Cases::frames))]
pub(crate) fn written() {
    // Writes: SZ, FLAG with −0.0, and a broadcast of SZ at its end.
    asks(
        b"\x01\x10\x00\x2c\x00\x02\x04\x00\x00\x3f\xc0\xe0\x42",
        9,
        1,
        Request::Write(register::SZ, 1.5),
    );
    asks(
        b"\x01\x10\x00\x1c\x00\x02\x04\x00\x00\x80\x00\x93\x36",
        9,
        1,
        Request::Write(register::FLAG, -0.0),
    );
    asks(
        b"\x00\x10\x00\x2c\x00\x02\x04\x00\x00\x46\xfa\x47\x3d",
        9,
        1,
        Request::Write(register::SZ, 32000.0),
    );
}

#[tactic(auto, unfolding(crate::proofs::Cases::frames))]
pub(crate) fn panel() {
    // Change 1, reads: the first of the figures and the last, and register 99.
    asks(
        b"\x01\x03\x00\x50\x00\x02\xc4\x1a",
        9,
        1,
        Request::Read(register::CGAI),
    );
    asks(
        b"\x01\x03\x00\xfa\x00\x02\xe4\x3a",
        9,
        1,
        Request::Read(register::CTO_LAST),
    );
    asks(
        b"\x01\x03\x00\xc6\x00\x02\x24\x36",
        9,
        1,
        Request::Read(register::APPLY),
    );
    // A write to 99 ignores the value, a NaN too; to all stations as well.
    asks(
        b"\x01\x10\x00\xc6\x00\x02\x04\x00\x00\x7f\xc0\x5f\xb5",
        9,
        1,
        Request::Act(register::APPLY),
    );
    asks(
        b"\x00\x10\x00\xc6\x00\x02\x04\x00\x00\x00\x00\x7b\x29",
        9,
        1,
        Request::Act(register::APPLY),
    );
}

#[tactic(auto, unfolding(crate::proofs::Cases::frames))]
pub(crate) fn figures_written() {
    // Writes of the figures that stand alone: gains, offset, limit, filter level and steps; one to all stations.
    asks(
        b"\x01\x10\x00\x50\x00\x02\x04\x00\x00\x40\x00\xc7\x53",
        9,
        1,
        Request::Write(register::CGAI, 2.0),
    );
    asks(
        b"\x00\x10\x00\x52\x00\x02\x04\x00\x00\xc3\x96\xa3\x28",
        9,
        1,
        Request::Write(register::COFS, -300.0),
    );
    asks(
        b"\x01\x10\x00\x8c\x00\x02\x04\x00\x00\xc1\x00\xaa\x0a",
        9,
        1,
        Request::Write(register::SGAI, -8.0),
    );
    asks(
        b"\x01\x10\x00\x94\x00\x02\x04\x00\x00\xbf\x80\x8a\xa0",
        9,
        1,
        Request::Write(register::SMIN, -1.0),
    );
    asks(
        b"\x01\x10\x00\xb8\x00\x02\x04\x00\x00\x80\x00\x98\xbd",
        9,
        1,
        Request::Write(register::FFLV, -0.0),
    );
    asks(
        b"\x01\x10\x00\xba\x00\x02\x04\x00\x00\x44\x7a\xca\x47",
        9,
        1,
        Request::Write(register::FFST, 1000.0),
    );
}

#[tactic(auto, unfolding(crate::proofs::Cases::frames))]
pub(crate) fn points_written() {
    // Writes of the points: each table's count, and its columns.
    asks(
        b"\x01\x10\x00\x64\x00\x02\x04\x00\x00\x40\xe0\xc4\x3c",
        9,
        1,
        Request::Write(register::CLN, 7.0),
    );
    asks(
        b"\x01\x10\x00\x72\x00\x02\x04\x00\x00\x42\xc8\x44\x64",
        9,
        1,
        Request::Write(register::CLX_LAST, 100.0),
    );
    asks(
        b"\x01\x10\x00\x7a\x00\x02\x04\x00\x00\x3f\xc0\x65\x54",
        9,
        1,
        Request::Write(register::CLK, 1.5),
    );
}

#[tactic(auto, unfolding(crate::proofs::Cases::frames))]
pub(crate) fn temperature_points_written() {
    // CTG at the largest float that it takes, 13,421,772 ÷ 2^27.
    asks(
        b"\x01\x10\x00\xdc\x00\x02\x04\x00\x00\x40\xa0\xcf\x1e",
        9,
        1,
        Request::Write(register::CTN, 5.0),
    );
    asks(
        b"\x01\x10\x00\xde\x00\x02\x04\x00\x00\x41\xc8\x4e\xb9",
        9,
        1,
        Request::Write(register::CT, 25.0),
    );
    asks(
        b"\x01\x10\x00\xe8\x00\x02\x04\xcc\xcc\x3d\xcc\x13\xeb",
        9,
        1,
        Request::Write(register::CTG, 13421772.0 / 134217728.0),
    );
    asks(
        b"\x01\x10\x00\xfa\x00\x02\x04\x00\x00\x41\xa0\x4c\xbc",
        9,
        1,
        Request::Write(register::CTO_LAST, 20.0),
    );
}

#[tactic(auto, unfolding(crate::proofs::Cases::frames))]
pub(crate) fn not_served() {
    // 12 comes before all else.
    refused(
        b"\x01\x03\x00\x14\x00\x02\x84\x0f",
        8,
        1,
        Refusal::ShortBuffer,
    );
    refused(b"\x01\x03\x00", 0, 1, Refusal::ShortBuffer);
    // 13: too short, a wrong or swapped checksum, another station, a broadcast read of any length.
    refused(b"\x01\x03\x00", 9, 1, Refusal::NotForUs);
    refused(b"\x01\x03\x00\x14\x00\x02\x84\x0e", 9, 1, Refusal::NotForUs);
    refused(b"\x01\x03\x00\x14\x00\x02\x0f\x84", 9, 1, Refusal::NotForUs);
    refused(b"\x02\x03\x00\x14\x00\x02\x84\x3c", 9, 1, Refusal::NotForUs);
    refused(b"\x00\x03\x00\x14\x00\x02\x85\xde", 9, 1, Refusal::NotForUs);
    refused(b"\x00\x03\x41\xb1", 9, 1, Refusal::NotForUs);
    // 14: also a function of 128 or more, and of a broadcast.
    refused(b"\x01\x04\x00\x14\x00\x02\x31\xcf", 9, 1, Refusal::Function);
    refused(b"\x01\x83\x41\x81", 9, 1, Refusal::Function);
    refused(b"\x00\x06\x81\xb2", 9, 1, Refusal::Function);
}

#[tactic(auto, unfolding(crate::proofs::Cases::frames))]
pub(crate) fn misdirected() {
    // 16: length, quantity and byte count, before the address.
    refused(b"\x01\x03\x40\x21", 9, 1, Refusal::Value);
    refused(
        b"\x01\x03\x00\x15\x00\x02\x00\x0e\x9f",
        9,
        1,
        Refusal::Value,
    );
    refused(b"\x01\x03\x00\x15\x00\x01\x95\xce", 9, 1, Refusal::Value);
    refused(
        b"\x01\x10\x00\x2d\x00\x02\x03\x00\x00\x00\x00\x85\xee",
        9,
        1,
        Refusal::Value,
    );
    refused(
        b"\x01\x10\x00\x2d\x00\x01\x04\x00\x00\x00\x00\x30\x1d",
        9,
        1,
        Refusal::Value,
    );
    // 15: odd, not listed, and the address of 001's write.
    refused(b"\x01\x03\x00\x15\x00\x02\xd5\xcf", 9, 1, Refusal::Address);
    refused(b"\x01\x03\x00\x0e\x00\x02\xa5\xc8", 9, 1, Refusal::Address);
    refused(
        b"\x04\x10\x00\x38\x00\x02\x04\x70\xa4\x3f\x9d\x6b\xab",
        9,
        4,
        Refusal::Address,
    );
    // 16: 001's execute is a write of 0.0 to CLN (Change 1), which takes 2 to 7.
    refused(
        b"\x11\x10\x00\x64\x00\x02\x04\x00\x00\x00\x00\xa0\xb4",
        9,
        17,
        Refusal::Value,
    );
}

#[tactic(auto, unfolding(crate::proofs::Cases::frames))]
pub(crate) fn unlisted() {
    // 15: beside the figures' registers, 42, 43, 46, 58, 60, 68 and 126 (Change 1), and a write there.
    refused(b"\x01\x03\x00\x54\x00\x02\x85\xdb", 9, 1, Refusal::Address);
    refused(b"\x01\x03\x00\x56\x00\x02\x24\x1b", 9, 1, Refusal::Address);
    refused(b"\x01\x03\x00\x5c\x00\x02\x04\x19", 9, 1, Refusal::Address);
    refused(b"\x01\x03\x00\x74\x00\x02\x84\x11", 9, 1, Refusal::Address);
    refused(b"\x01\x03\x00\x78\x00\x02\x44\x12", 9, 1, Refusal::Address);
    refused(b"\x01\x03\x00\x88\x00\x02\x44\x21", 9, 1, Refusal::Address);
    refused(b"\x01\x03\x00\xfc\x00\x02\x04\x3b", 9, 1, Refusal::Address);
    refused(
        b"\x01\x10\x00\x54\x00\x02\x04\x00\x00\x00\x00\xf7\x60",
        9,
        1,
        Refusal::Address,
    );
    refused(
        b"\x01\x10\x00\xfc\x00\x02\x04\x00\x00\x00\x00\xfc\xbe",
        9,
        1,
        Refusal::Address,
    );
}

#[tactic(auto, unfolding(crate::proofs::Cases::frames))]
pub(crate) fn unfit() {
    // 16: a read-only register, and what SZ and FLAG do not take, of a broadcast too.
    refused(
        b"\x01\x10\x00\x14\x00\x02\x04\x00\x00\x00\x00\xf3\x50",
        9,
        1,
        Refusal::Value,
    );
    refused(
        b"\x01\x10\x00\x2c\x00\x02\x04\x00\x00\x7f\xc0\xd1\x82",
        9,
        1,
        Refusal::Value,
    );
    refused(
        b"\x01\x10\x00\x2c\x00\x02\x04\x00\x01\x46\xfa\x12\x01",
        9,
        1,
        Refusal::Value,
    );
    refused(
        b"\x01\x10\x00\x1c\x00\x02\x04\x00\x00\x3f\x00\xe3\x06",
        9,
        1,
        Refusal::Value,
    );
    refused(
        b"\x00\x10\x00\x1c\x00\x02\x04\x00\x00\xff\x80\xb6\x5a",
        9,
        1,
        Refusal::Value,
    );
}

#[tactic(auto, unfolding(crate::proofs::Cases::frames))]
pub(crate) fn unfit_figures() {
    // 16: CTG 0.1, FFLV −2^−149, FFST 0.5, CTO just beyond 20, and a gain that is a NaN, sent to all stations.
    refused(
        b"\x01\x10\x00\xe8\x00\x02\x04\xcc\xcd\x3d\xcc\x42\x2b",
        9,
        1,
        Refusal::Value,
    );
    refused(
        b"\x01\x10\x00\xb8\x00\x02\x04\x00\x01\x80\x00\xc9\x7d",
        9,
        1,
        Refusal::Value,
    );
    refused(
        b"\x01\x10\x00\xba\x00\x02\x04\x00\x00\x3f\x00\x69\x54",
        9,
        1,
        Refusal::Value,
    );
    refused(
        b"\x01\x10\x00\xf2\x00\x02\x04\x00\x01\x41\xa0\x1c\xda",
        9,
        1,
        Refusal::Value,
    );
    refused(
        b"\x00\x10\x00\x50\x00\x02\x04\x00\x00\x7f\xc0\xd2\x0f",
        9,
        1,
        Refusal::Value,
    );
}

#[tactic(auto, unfolding(crate::proofs::Cases::frames))]
pub(crate) fn long() {
    // 256 bytes, the most, are judged, and of a wrong length (16); 257 are not, though the checksum is right.
    let mut longest = [0u8; 256];
    longest[0] = 1;
    longest[1] = 3;
    longest[254] = 0x10;
    longest[255] = 0xde;
    refused(&longest, 9, 1, Refusal::Value);
    let mut longer = [0u8; 257];
    longer[0] = 1;
    longer[1] = 3;
    longer[255] = 0xdf;
    longer[256] = 0xcc;
    checksums::is(&longer, 0);
    refused(&longer, 9, 1, Refusal::NotForUs);
}
