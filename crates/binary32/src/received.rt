// The floats that a register takes (01, "The bus"; Change 1). Each function takes any float at all: a NaN and the
// infinities are unfit.
ghost use Rattle.std.specs.Prelude.{◌≡◌, ◌^◌, ◌≤◌, ◌<◌};
ghost use Rattle.binary32.specs.Received.{takes as taken, counted, zero_range};
ghost use Rattle.binary32.specs.ForCode.{Computable};
ghost use Rattle.binary32.specs.Units.{units, units_of};

// What a register takes: it counts in 1/2^shift, from least to most; at shift 0 in whole numbers alone.
// Kept: `Computable` is asked by three functions. As an invariant of this record, each row of the table that the definitions have
// (register/specs/Register.antt) would carry a proof.
#[repr(C)]
#[derive(Clone, Copy)]
pub struct Range {
    pub shift: u32,
    pub least: i64,
    pub most: i64,
}

// The magnitude of a bit pattern without its sign, in 2^−25 of a count: the pattern is digits × 2^(exponent − 150), so
// that is digits × 2^(exponent + shift − 125). What is less than a quarter of a count, and not 0, is given as 1, and what
// is 2^35 counts or more as 2^61: each lies between the same halves.
fn magnitude(pattern: u64, shift: u64) -> u64
    requires { (pattern < 2 ^ 31) × (shift ≤ 28) }
    ensures { result ≡ units shift pattern }
{
    let place = pattern / 0x80_0000 + shift;
    if 161 < place {
        return 0x2000_0000_0000_0000;
    }
    if 125 <= place {
        return (0x80_0000 + pattern % 0x80_0000) << (place - 125);
    }
    if pattern == 0 {
        return 0;
    }
    1
}

fn units_of(x: f32, shift: u32) -> i64
    requires { shift ≤ 28 }
    ensures { result ≡ units_of shift x }
{
    let bits = crate::wire::bits_of_float(x) as u64;
    let size = magnitude(bits % 0x8000_0000, shift as u64) as i64;
    if bits < 0x8000_0000 {
        return size;
    }
    -size
}

// Does the register take x? (Adding 0.5 or comparing in f32 would round: 26,843,545 ÷ 2^28 is no float.)
pub fn takes(range: Range, x: f32) -> bool
    requires { Computable range }
    ensures { result ≡ taken range x }
{
    let size = units_of(x, range.shift);
    if size < range.least * 0x200_0000 {
        return false;
    }
    if range.most * 0x200_0000 < size {
        return false;
    }
    if range.shift == 0 {
        return size & 0x1ff_ffff == 0;
    }
    true
}

// The count nearest to x, halves away from zero; 0 where x is unfit. Half a count goes in front, and one less where x is negative, of
// which a shift by 63 is −1.
pub fn count(range: Range, x: f32) -> i64
    requires { Computable range }
    ensures { result ≡ counted range x }
{
    if takes(range, x) {
        let size = units_of(x, range.shift);
        return (size + 0x100_0000 + (size >> 63)) >> 25;
    }
    0
}

// Does SZ take x? By its pattern: that of 32,000.0 is 46FA0000, and of two positive floats the larger has the larger
// pattern; a NaN's and the infinities' are above. (SZ is written all day, and this puts no range together.)
pub fn zero_fits(x: f32) -> bool
    ensures { result ≡ taken zero_range x }
{
    crate::wire::bits_of_float(x) % 0x8000_0000 <= 0x46fa_0000
}
