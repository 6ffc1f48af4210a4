ghost use Rattle.std.specs.Prelude.{◌≡◌, ◌^◌, pos, ◌<ℤ◌};
ghost use Rattle.integers.specs.Within.{◌within◌};
ghost use Rattle.arithmetic.specs.Round.{round_div};

// round(a ÷ d): the nearest whole number, halves away from zero. The machine divides towards zero, so half of d goes in front, with
// the sign of a. `a` is bounded so that the sum stays within an i64.
pub fn round_div(a: i64, d: i64) -> i64
    requires a { a within (2 ^ 62) }
    requires pos_bound { pos 0 <ℤ d }
    requires d { d within (2 ^ 62) }
    ensures { result ≡ round_div a d }
{
    if a < 0 {
        return (a - (d >> 1)) / d;
    }
    (a + (d >> 1)) / d
}
