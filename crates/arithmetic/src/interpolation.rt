ghost use Rattle.std.specs.Prelude.{◌≡◌, ℕ, ◌≤◌, length, map, take};
ghost use Rattle.arithmetic.specs.Table.{Point, column, place, line, interpolated};
ghost use Rattle.arithmetic.specs.Two.{interpolated_two};
ghost use Rattle.arithmetic.specs.Around.{value_at, Lies};
ghost use Rattle.arithmetic.specs.ForCode.{Computable, Segment};

use crate::rounding::round_div;

// A point of a table: of its figures, in a row, the first is its place.
pub trait Placed: Copy {
    ghost point: { Self → Point };

    fn place(self) -> i64
        ensures { result ≡ place (point self) };

    // The figure of a column; 0 of one that the row has not.
    fn value(self, j: usize) -> i64
        ensures { result ≡ column j (point self) };
}

// What of a table's points tells its values at a place.
#[derive(Clone, Copy)]
pub enum Around<P> {
    // one point: its values are the table's
    At(P),
    // two neighbours, between which the place lies: the values are on the line from the one to the other
    Between(P, P),
}

// The points around t, of a table of two points at least: the first `count`. At or outside them the end values are kept.
// Kept: the count stands beside all points, and `k` is counted. Where this is inlined, their number is then known and the loop unrolled;
// by `position` over `&points[..count]` a reading takes about 50 instructions more (160).
pub fn locate<P: Placed>(points: &[P], count: usize, t: i64) -> Around<P>
    requires some { 1 ≤ length points.now }
    requires le_count { 2 ≤ count }
    ensures values { (j : ℕ) → value_at P.point j result t ≡ interpolated j (map P.point (take count points.now)) t }
    ensures lies { Lies P.point (map P.point (take count points.now)) t result }
{
    let mut before = points[0];
    if t <= before.place() {
        return Around::At(before);
    }
    for k in 1..points.len() {
        let after = points[k];
        if t <= after.place() {
            return Around::Between(before, after);
        }
        before = after;
        if k + 1 == count {
            break;
        }
    }
    Around::At(before)
}

// The two values of a table's points, interpolated.
#[derive(Clone, Copy)]
pub struct Two {
    pub first: i64,
    pub second: i64,
}

// Both values of a table of two points at least, the first `count`: CTO and CTG over CT. Kept a pair: both come from one search.
pub fn interpolate_two<P: Placed>(points: &[P], count: usize, t: i64) -> Two
    requires some { 1 ≤ length points.now }
    requires le_count { 2 ≤ count }
    requires computable { Computable 1 (map P.point (take count points.now)) }
    requires computable_2 { Computable 2 (map P.point (take count points.now)) }
    ensures { result ≡ interpolated_two (map P.point (take count points.now)) t }
{
    match locate(points, count, t) {
        Around::At(p) => Two {
            first: p.value(1),
            second: p.value(2),
        },
        Around::Between(p, q) => Two {
            first: line_at(p.place(), p.value(1), q.place(), q.value(1), t),
            second: line_at(p.place(), p.value(2), q.place(), q.value(2), t),
        },
    }
}

// The value of a table of two points at least, the first `count`: CLK over CLX.
pub fn interpolate_one<P: Placed>(points: &[P], count: usize, t: i64) -> i64
    requires some { 1 ≤ length points.now }
    requires le_count { 2 ≤ count }
    requires computable { Computable 1 (map P.point (take count points.now)) }
    ensures { result ≡ interpolated 1 (map P.point (take count points.now)) t }
{
    match locate(points, count, t) {
        Around::At(p) => p.value(1),
        Around::Between(p, q) => line_at(p.place(), p.value(1), q.place(), q.value(1), t),
    }
}

// The line from (t1, v1) to (t2, v2), at t.
pub fn line_at(t1: i64, v1: i64, t2: i64, v2: i64, t: i64) -> i64
    requires { Segment t1 v1 t2 v2 t }
    ensures { result ≡ line t1 v1 t2 v2 t }
{
    v1 + round_div((v2 - v1) * (t - t1), t2 - t1)
}
