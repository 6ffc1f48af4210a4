// Floats that the registers take, and what each makes of them (01, "The bus"; Change 1), against exact values.
ghost use Rattle.std.specs.Prelude.{◌≡◌, true, false};
ghost use Rattle.std.specs.Float.{binary32};
ghost use Rattle.std.specs.Float.Ieee.{of_bits};
ghost use Rattle.binary32.specs.Received.{takes, counted};
ghost use Rattle.register.specs.Number.{SZ};
ghost use Rattle.register.specs.Register.{range_of};

use crate::floats;

// A register takes the float of a pattern as the expected count.
fn is(register: u32, bits: u32, count: i64)
    requires bits_value { takes (range_of register) (of_bits binary32 bits) ≡ true }
    requires bits_value_2 { counted (range_of register) (of_bits binary32 bits) ≡ count }
{
    let range = register::range_of(register);
    let x = floats::float_of(bits);
    check::expect(binary32::received::takes(range, x));
    check::expect(binary32::received::count(range, x) == count);
}

// It does not take it.
fn unfit(register: u32, bits: u32)
    requires { takes (range_of register) (of_bits binary32 bits) ≡ false }
{
    check::expect(!binary32::received::takes(register::range_of(register), floats::float_of(bits)));
}

// SZ takes it, by its own test too.
#[tactic(auto, unfolding(register::specs::Register::range_of, register::specs::Register::access_of))]
fn zero_is(bits: u32, steps: i64)
    requires bits_value { takes (range_of SZ) (of_bits binary32 bits) ≡ true }
    requires bits_value_2 { counted (range_of SZ) (of_bits binary32 bits) ≡ steps }
{
    check::expect(binary32::received::zero_fits(floats::float_of(bits)));
    is(register::SZ, bits, steps);
}

// SZ does not take it, by neither test.
#[tactic(auto, unfolding(register::specs::Register::range_of, register::specs::Register::access_of))]
fn zero_unfit(bits: u32)
    requires { takes (range_of SZ) (of_bits binary32 bits) ≡ false }
{
    check::expect(!binary32::received::zero_fits(floats::float_of(bits)));
    unfit(register::SZ, bits);
}

#[tactic(auto, unfolding(crate::proofs::Cases::floats))]
pub(crate) fn zeros() {
    // At and beside half a step: halves go away from zero.
    zero_is(0x37000000, 1);
    zero_is(0xb7000000, -1);
    zero_is(0x37c00000, 2);
    zero_is(0xb7c00000, -2);
    zero_is(0x36ffffff, 0);
    zero_is(0xb6ffffff, 0);
    zero_is(0xb7bfffff, -1);
    // Subnormals, −0.0, just under half a unit, and the two ends.
    zero_is(0x00000001, 0);
    zero_is(0x80000001, 0);
    zero_is(0x80000000, 0);
    zero_is(0x3efffffe, 32768);
    zero_is(0x3fc00000, 98304);
    zero_is(0x46fa0000, 2097152000);
    zero_is(0xc6fa0000, -2097152000);
    // Beyond the ends, infinities and a NaN.
    zero_unfit(0x46fa0001);
    zero_unfit(0xc6fa0001);
    zero_unfit(0x7f800000);
    zero_unfit(0xff800000);
    zero_unfit(0x7fc00000);
}

#[tactic(auto, unfolding(crate::proofs::Cases::floats))]
pub(crate) fn flags() {
    // Both ends, −0.0, 1 and REBOOT.
    is(register::FLAG, 0x00000000, 0);
    is(register::FLAG, 0x80000000, 0);
    is(register::FLAG, 0x3f800000, 1);
    is(register::FLAG, 0x477fff00, 65535);
    is(register::FLAG, 0x47000000, 32768);
    // Beyond the ends, fractions, an infinity and a NaN.
    unfit(register::FLAG, 0x47800000);
    unfit(register::FLAG, 0x3f000000);
    unfit(register::FLAG, 0xbf800000);
    unfit(register::FLAG, 0x477fff01);
    unfit(register::FLAG, 0x00000001);
    unfit(register::FLAG, 0x7f800000);
    unfit(register::FLAG, 0x7fc00001);
}

#[tactic(auto, unfolding(crate::proofs::Cases::floats))]
pub(crate) fn gains() {
    // 1, 2, the float nearest to 1.1, and the ends, ±64.
    is(register::CGAI, 0x3f800000, 268435456);
    is(register::CGAI, 0x40000000, 536870912);
    is(register::CGAI, 0x3f8ccccd, 295279008);
    is(register::CGAI, 0x42800000, 17179869184);
    is(register::CGAI, 0xc2800000, -17179869184);
    // At and beside half a count: halves go away from zero. A subnormal and −0.0.
    is(register::CGAI, 0x31000000, 1);
    is(register::CGAI, 0xb1000000, -1);
    is(register::CGAI, 0x31c00000, 2);
    is(register::CGAI, 0xb1c00000, -2);
    is(register::CGAI, 0x30ffffff, 0);
    is(register::CGAI, 0xb0ffffff, 0);
    is(register::CGAI, 0xb1bfffff, -1);
    is(register::CGAI, 0x00000001, 0);
    is(register::CGAI, 0x80000000, 0);
    // Beyond the ends, infinities and a NaN.
    unfit(register::CGAI, 0x42800001);
    unfit(register::CGAI, 0xc2800001);
    unfit(register::CGAI, 0x7f800000);
    unfit(register::CGAI, 0xff800000);
    unfit(register::CGAI, 0x7fc00000);
    // SGAI ends at ±8.
    is(register::SGAI, 0x41000000, 2147483648);
    is(register::SGAI, 0xc1000000, -2147483648);
    unfit(register::SGAI, 0x41000001);
    unfit(register::SGAI, 0xc1000001);
}

#[tactic(auto, unfolding(crate::proofs::Cases::floats))]
pub(crate) fn adjustments() {
    // CTG ends at 26,843,545, which is no float: 0.1 is 26,843,546, and the float below it 26,843,544.
    unfit(register::CTG, 0x3dcccccd);
    is(register::CTG, 0x3dcccccc, 26843544);
    unfit(register::CTG_LAST, 0xbdcccccd);
    is(register::CTG_LAST, 0xbdcccccc, -26843544);
    unfit(register::CTG, 0xff800000);
    unfit(register::CTG, 0x7fc00000);
    // CTO: just beyond ±20 is less than half a step beyond, but judged before rounding.
    is(register::CTO, 0x41a00000, 1310720);
    is(register::CTO_LAST, 0xc1a00000, -1310720);
    unfit(register::CTO, 0x41a00001);
    unfit(register::CTO_LAST, 0xc1a00001);
}

#[tactic(auto, unfolding(crate::proofs::Cases::floats))]
pub(crate) fn offsets() {
    // COFS: halves, the ends, just beyond, infinities and a NaN.
    is(register::COFS, 0x37000000, 1);
    is(register::COFS, 0xb7000000, -1);
    is(register::COFS, 0x43960000, 19660800);
    is(register::COFS, 0xc3960000, -19660800);
    unfit(register::COFS, 0x43960001);
    unfit(register::COFS, 0xc3960001);
    unfit(register::COFS, 0x7f800000);
    unfit(register::COFS, 0xff800000);
    unfit(register::COFS, 0x7fc00000);
    // SOFS, limits and points: the ends, and just beyond.
    is(register::SOFS, 0x46fa0000, 2097152000);
    unfit(register::SOFS, 0x46fa0001);
    is(register::CMIN, 0xc6fa0000, -2097152000);
    unfit(register::CMIN, 0xc6fa0001);
    is(register::CMAX, 0x46fa0000, 2097152000);
    unfit(register::CMAX, 0x46fa0001);
    is(register::SMIN, 0xc6fa0000, -2097152000);
    unfit(register::SMIN, 0xc6fa0001);
    is(register::SMAX, 0x46fa0000, 2097152000);
    unfit(register::SMAX, 0x46fa0001);
    is(register::CLX, 0xc6fa0000, -2097152000);
    unfit(register::CLX_LAST, 0x46fa0001);
    is(register::CLK, 0x447a0000, 65536000);
    unfit(register::CLK_LAST, 0xc47a0001);
    is(register::CT, 0xc3480000, -13107200);
    unfit(register::CT_LAST, 0x43480001);
}

#[tactic(auto, unfolding(crate::proofs::Cases::floats))]
pub(crate) fn filters() {
    // FFLV: −0.0 is 0, and what is below 0 is unfit though it would round to 0 (−2^−149).
    is(register::FFLV, 0x00000000, 0);
    is(register::FFLV, 0x80000000, 0);
    unfit(register::FFLV, 0x80000001);
    unfit(register::FFLV, 0xbf800000);
    is(register::FFLV, 0x00000001, 0);
    is(register::FFLV, 0x37000000, 1);
    is(register::FFLV, 0x44160000, 39321600);
    unfit(register::FFLV, 0x44160001);
    unfit(register::FFLV, 0x7f800000);
    // FFST: the ends; beyond them, fractions and a NaN.
    is(register::FFST, 0x00000000, 0);
    is(register::FFST, 0x80000000, 0);
    is(register::FFST, 0x447a0000, 1000);
    unfit(register::FFST, 0x447a4000);
    unfit(register::FFST, 0xbf800000);
    unfit(register::FFST, 0x3f000000);
    unfit(register::FFST, 0x3f800001);
    unfit(register::FFST, 0x4479e000);
    unfit(register::FFST, 0x00000001);
    unfit(register::FFST, 0x7fc00000);
}

#[tactic(auto, unfolding(crate::proofs::Cases::floats))]
pub(crate) fn counts() {
    // CLN, 2 to 7: the ends; beyond them and beside them, a fraction and a NaN.
    is(register::CLN, 0x40000000, 2);
    is(register::CLN, 0x40e00000, 7);
    unfit(register::CLN, 0x3f800000);
    unfit(register::CLN, 0x41000000);
    unfit(register::CLN, 0x3fffffff);
    unfit(register::CLN, 0x40e00001);
    unfit(register::CLN, 0x40200000);
    unfit(register::CLN, 0x7fc00000);
    // CTN, 2 to 5.
    is(register::CTN, 0x40000000, 2);
    is(register::CTN, 0x40a00000, 5);
    unfit(register::CTN, 0x3f800000);
    unfit(register::CTN, 0x40c00000);
    unfit(register::CTN, 0x40900000);
    unfit(register::CTN, 0x7f800000);
}
