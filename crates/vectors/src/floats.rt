// Floats from the wire and back, against exact values.
ghost use Rattle.std.specs.Prelude.{◌≡◌, true, false, leb, nat_abs};
ghost use Rattle.std.specs.Float.{binary32};
ghost use Rattle.std.specs.Float.Ieee.{of_bits};
ghost use Rattle.binary32.specs.Sent.{step_float, count_float};
ghost use Rattle.binary32.specs.Wire.{received};

// A float is the expected one; compared are the patterns of the two.
fn is(x: f32, expected: f32)
    requires { x ≡ expected }
{
    check::expect(binary32::wire::bits_of_float(x) == binary32::wire::bits_of_float(expected));
}

// Four bytes come in as the expected float.
fn comes_in(a: u8, b: u8, c: u8, d: u8, expected: f32)
    requires { received a b c d ≡ expected }
{
    is(binary32::wire::float_of_bytes(a, b, c, d), expected);
}

#[tactic(auto, unfolding(crate::proofs::Cases::floats))]
pub(crate) fn of_001() {
    // The numbers printed in 001: 1.23, −12345.678 and 100.0 are the nearest floats; −55.2317 is a
    // shortened print of C25CED51, which is −14,478,673 / 262,144.
    comes_in(0x70, 0xa4, 0x3f, 0x9d, 1.23);
    comes_in(0xed, 0x51, 0xc2, 0x5c, -14478673.0 / 262144.0);
    comes_in(0x00, 0x00, 0x00, 0x00, 0.0);
    comes_in(0xe6, 0xb6, 0xc6, 0x40, -12345.678);
    comes_in(0x00, 0x00, 0x42, 0xc8, 100.0);
}

// The float of a pattern, through its bytes.
pub(crate) fn float_of(bits: u32) -> f32
    ensures { result ≡ of_bits binary32 bits }
{
    let [c, d, a, b] = bits.to_be_bytes();
    binary32::wire::float_of_bytes(a, b, c, d)
}

// A step count goes out as the float of a pattern. The range is said as a test, which the prover computes as it does the rest of a
// case.
fn goes_out(z: i64, bits: u32)
    requires z_value { leb (nat_abs z) 4194304000 ≡ true }
    requires z_value_2 { step_float z ≡ of_bits binary32 bits }
{
    is(binary32::sent::float_of_steps(z), float_of(bits));
}

#[tactic(auto, unfolding(crate::proofs::Cases::floats))]
pub(crate) fn steps_out() {
    // Step counts that are floats exactly, with the two ends of the range.
    goes_out(1, 0x37800000);
    goes_out(65535, 0x3f7fff00);
    goes_out(-65536, 0xbf800000);
    goes_out(16777215, 0x437fffff);
    goes_out(16777218, 0x43800001);
    goes_out(4194304000, 0x477a0000);
    goes_out(-4194304000, 0xc77a0000);
    // Step counts between two floats: ties go to the even one, on both sides of zero.
    goes_out(16777219, 0x43800002);
    goes_out(-16777217, 0xc3800000);
    goes_out(-16777219, 0xc3800002);
    goes_out(33554433, 0x44000000);
    goes_out(123456789, 0x44eb79a3);
}

// The same of a count of 1/2^28, as gains and gain adjustments go out (Change 1).
fn part_goes_out(z: i64, bits: u32)
    requires z_value { leb (nat_abs z) 17179869184 ≡ true }
    requires z_value_2 { count_float 28 z ≡ of_bits binary32 bits }
{
    is(binary32::sent::float_of_parts(z), float_of(bits));
}

#[tactic(auto, unfolding(crate::proofs::Cases::floats))]
pub(crate) fn parts_out() {
    // Counts that are floats exactly: 0, 1, 20.0 and the two ends, ±64.
    part_goes_out(0, 0x00000000);
    part_goes_out(1, 0x31800000);
    part_goes_out(-1, 0xb1800000);
    part_goes_out(268435456, 0x3f800000);
    part_goes_out(5368709120, 0x41a00000);
    part_goes_out(17179869184, 0x42800000);
    part_goes_out(-17179869184, 0xc2800000);
    // From 1 on floats stand 32 counts apart: nearest, ties to the even one, on both sides of zero.
    part_goes_out(268435457, 0x3f800000);
    part_goes_out(268435472, 0x3f800000);
    part_goes_out(268435473, 0x3f800001);
    part_goes_out(268435504, 0x3f800002);
    part_goes_out(-268435472, 0xbf800000);
    part_goes_out(-268435504, 0xbf800002);
    // Below 64 they stand 1,024 apart; the largest CTG goes out as the float below 0.1.
    part_goes_out(17179868672, 0x42800000);
    part_goes_out(17179868671, 0x427fffff);
    part_goes_out(26843545, 0x3dcccccc);
    part_goes_out(-26843545, 0xbdcccccc);
}
