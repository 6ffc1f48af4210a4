// Modbus CRC-16 against known values.
ghost use Rattle.std.specs.Prelude.{◌≡◌};
ghost use Rattle.checksum.specs.Checksum.{checksum_of};

// The checksum of all the bytes is the expected one.
pub(crate) fn is(bytes: &[u8], expected: u16)
    requires { checksum_of bytes.now ≡ expected }
{
    check::expect(checksum::checksum(bytes, bytes.len()) == expected);
}

#[tactic(auto, unfolding(checksum::specs::Checksum::with_byte))]
pub(crate) fn cases() {
    // The CRC catalogue's check value, the standard's worked example, and the start value.
    is(b"123456789", 0x4b37);
    is(b"\x02\x07", 0x1241);
    is(b"", 0xffff);
    // Common examples; and a message followed by its own checksum, low byte first, which leaves 0.
    is(b"\x01\x03\x00\x00\x00\x0a", 0xcdc5);
    is(b"\x11\x03\x00\x6b\x00\x03", 0x8776);
    is(b"\x11\x05\x00\xac\xff\x00", 0x8b4e);
    is(b"\x11\x06\x00\x01\x00\x03", 0x9b9a);
    is(b"\x11\x10\x00\x01\x00\x02\x04\x00\x0a\x01\x02", 0xf0c6);
    is(b"\x01\x04\x02\xff\xff", 0x80b8);
    is(b"123456789\x37\x4b", 0);
    // 001's six messages: write request and reply, read request and reply, execute request and reply.
    is(b"\x04\x10\x00\x38\x00\x02\x04\x70\xa4\x3f\x9d", 0xab6b);
    is(b"\x04\x10\x00\x38\x00\x02", 0x50c0);
    is(b"\x34\x03\x00\x0c\x00\x02", 0xad01);
    is(b"\x34\x03\x04\xed\x51\xc2\x5c", 0xd4aa);
    is(b"\x11\x10\x00\x64\x00\x02\x04\x00\x00\x00\x00", 0xb4a0);
    is(b"\x11\x10\x00\x64\x00\x02", 0x8702);
}
