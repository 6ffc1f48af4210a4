// Replies, with the untouched rest of a buffer of twelve bytes.
ghost use Rattle.std.specs.Prelude.{replicate};
ghost use Rattle.modbus.specs.Reply.{Replied, value_reply, write_reply, exception_reply};

// The reply to a read has the expected length and leaves the expected buffer.
fn value_is(frame: &[u8], x: f32, expected: &[u8], length: usize)
    requires { Replied (value_reply frame.now 12 x) (replicate 12 0xee) expected.now length }
{
    let mut buffer = [0xeeu8; 12];
    check::expect(modbus::reply::value(frame, &mut buffer, x) == length);
    check::expect(check::same(&buffer, expected));
}

// The same of the reply to a write.
fn write_is(frame: &[u8], expected: &[u8], length: usize)
    requires { Replied (write_reply frame.now 12) (replicate 12 0xee) expected.now length }
{
    let mut buffer = [0xeeu8; 12];
    check::expect(modbus::reply::acknowledgement(frame, &mut buffer) == length);
    check::expect(check::same(&buffer, expected));
}

// The same of an exception.
fn exception_is(frame: &[u8], number: u8, expected: &[u8], length: usize)
    requires { Replied (exception_reply frame.now 12 number) (replicate 12 0xee) expected.now length }
{
    let mut buffer = [0xeeu8; 12];
    check::expect(modbus::reply::exception(frame, &mut buffer, number) == length);
    check::expect(check::same(&buffer, expected));
}

#[tactic(auto, using(crate::proofs::Cases::replied), unfolding(crate::proofs::Cases::replies))]
pub(crate) fn replies() {
    // 001's read reply, another value, and the silence of a broadcast.
    value_is(
        b"\x34\x03\x00\x0c\x00\x02\x01\xad",
        -14478673.0 / 262144.0,
        b"\x34\x03\x04\xed\x51\xc2\x5c\xaa\xd4\xee\xee\xee",
        9,
    );
    value_is(
        b"\x01\x03\x00\x14\x00\x02\x84\x0f",
        100.0,
        b"\x01\x03\x04\x00\x00\x42\xc8\xcb\x05\xee\xee\xee",
        9,
    );
    value_is(
        b"\x00\x03\x00\x14\x00\x02\x85\xde",
        100.0,
        b"\xee\xee\xee\xee\xee\xee\xee\xee\xee\xee\xee\xee",
        0,
    );
    // 001's write and execute replies, and the silence of a broadcast.
    write_is(
        b"\x04\x10\x00\x38\x00\x02\x04\x70\xa4\x3f\x9d\x6b\xab",
        b"\x04\x10\x00\x38\x00\x02\xc0\x50\xee\xee\xee\xee",
        8,
    );
    write_is(
        b"\x11\x10\x00\x64\x00\x02\x04\x00\x00\x00\x00\xa0\xb4",
        b"\x11\x10\x00\x64\x00\x02\x02\x87\xee\xee\xee\xee",
        8,
    );
    write_is(
        b"\x00\x10\x00\x2c\x00\x02\x04\x00\x00\x00\x00\xf5\x1e",
        b"\xee\xee\xee\xee\xee\xee\xee\xee\xee\xee\xee\xee",
        0,
    );
}

#[tactic(auto, using(crate::proofs::Cases::replied), unfolding(crate::proofs::Cases::replies))]
pub(crate) fn exceptions() {
    // 10, 11 and 16 on a read.
    exception_is(
        b"\x34\x03\x00\x14\x00\x02\x81\xaa",
        10,
        b"\x34\x83\x02\xd0\xff\xee\xee\xee\xee\xee\xee\xee",
        5,
    );
    exception_is(
        b"\x34\x03\x00\x2e\x00\x02\xa1\xa7",
        11,
        b"\x34\x83\x02\xd0\xff\xee\xee\xee\xee\xee\xee\xee",
        5,
    );
    exception_is(
        b"\x34\x03\x00\x14\x00\x01\xc1\xab",
        16,
        b"\x34\x83\x03\x11\x3f\xee\xee\xee\xee\xee\xee\xee",
        5,
    );
    // 14, also of a function byte whose top bit is set already.
    exception_is(
        b"\x34\x04\x16\xb3",
        14,
        b"\x34\x84\x01\x92\xce\xee\xee\xee\xee\xee\xee\xee",
        5,
    );
    exception_is(
        b"\x34\x83\x56\xd1",
        14,
        b"\x34\x83\x01\x90\xfe\xee\xee\xee\xee\xee\xee\xee",
        5,
    );
}

#[tactic(auto, using(crate::proofs::Cases::replied), unfolding(crate::proofs::Cases::replies))]
pub(crate) fn exceptions_to_writes() {
    // 15, 10 and 16 on a write, and 17 (Change 1).
    exception_is(
        b"\x34\x10\x00\x38\x00\x02\x04\x00\x00\x00\x00\x1f\xd1",
        15,
        b"\x34\x90\x02\xdd\xcf\xee\xee\xee\xee\xee\xee\xee",
        5,
    );
    exception_is(
        b"\x34\x10\x00\xce\x00\x02\x04\x00\x00\x00\x00\x90\xbf",
        10,
        b"\x34\x90\x03\x1c\x0f\xee\xee\xee\xee\xee\xee\xee",
        5,
    );
    exception_is(
        b"\x34\x10\x00\x14\x00\x02\x04\x00\x00\x00\x00\x1d\x9c",
        16,
        b"\x34\x90\x03\x1c\x0f\xee\xee\xee\xee\xee\xee\xee",
        5,
    );
    exception_is(
        b"\x34\x10\x00\xc6\x00\x02\x04\x00\x00\x00\x00\x91\x19",
        17,
        b"\x34\x90\x03\x1c\x0f\xee\xee\xee\xee\xee\xee\xee",
        5,
    );
}

#[tactic(auto, using(crate::proofs::Cases::replied), unfolding(crate::proofs::Cases::replies))]
pub(crate) fn silences() {
    // No reply to a broadcast, nor with 13 or 12.
    exception_is(
        b"\x00\x10\x00\x14\x00\x02\x04\x00\x00\x00\x00\xf7\xac",
        16,
        b"\xee\xee\xee\xee\xee\xee\xee\xee\xee\xee\xee\xee",
        0,
    );
    exception_is(
        b"\x00\x10\x00\xc6\x00\x02\x04\x00\x00\x00\x00\x7b\x29",
        17,
        b"\xee\xee\xee\xee\xee\xee\xee\xee\xee\xee\xee\xee",
        0,
    );
    exception_is(
        b"\x02\x03\x00\x14\x00\x02\x84\x3c",
        13,
        b"\xee\xee\xee\xee\xee\xee\xee\xee\xee\xee\xee\xee",
        0,
    );
    exception_is(
        b"\x01\x03\x00\x14\x00\x02\x84\x0f",
        12,
        b"\xee\xee\xee\xee\xee\xee\xee\xee\xee\xee\xee\xee",
        0,
    );
}
