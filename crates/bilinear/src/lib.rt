// The bilinear value of document 01, exact in 64 bits.
#![tactic(auto)]

ghost use Rattle.std.specs.Prelude.{true, ◌≡◌, ◌+◌, ◌*◌, ◌≤◌, ◌<◌, pos, nat_abs, ◌+ℤ◌, ◌-ℤ◌, ◌*ℤ◌};
ghost use Rattle.rules.specs.Units.{spacing_most, correction_limit};
ghost use Rattle.rules.specs.Limits.{CornersWithin};
ghost use Rattle.rules.specs.Bilinear.{square_of, bilinear};
ghost use Rattle.rules.specs.SixCases.{six_cases, rounded_by_cases};
ghost use Rattle.bilinear.specs.Mean.{InCell, Around, CornersAround, Gaps, Below, Mixable, RowMixes, mix, mixed, quotient_of};
ghost use Rattle.bilinear.specs.Mean.{corner_quotient, raise, near_limit, near_area, near, quotient_most};

use numbers::{is_between, three_within};
use rules::{CORRECTION_LIMIT, PlaceInCell, Spacings, Square};

// Corners are near where the others lie less than 2^15 from the south-west one and the cell's area is at most 2^48: raised by 2^15 less
// that corner they are natural numbers below 2^16, and the mix of such numbers, below 2^16 areas, fits 64 bits.
const RAISE: u64 = 32_768;

const NEAR: u64 = 32_767;

const NEAR_AREA: u64 = 281_474_976_710_656;

// What a division gives: the quotient, rounded down, and the remainder.
#[derive(Clone, Copy)]
pub struct Quotient {
    pub whole: u64,
    pub rest: u64,
}

// Corners as natural numbers: raised by so much, less a base.
#[derive(Clone, Copy)]
pub struct Raised {
    pub southwest: u64,
    pub southeast: u64,
    pub northwest: u64,
    pub northeast: u64,
}

// The south row and the north row of raised corners, each mixed at a place in the cell.
#[derive(Clone, Copy)]
pub struct Rows {
    pub south: u64,
    pub north: u64,
}

// The bilinear value of four corner values, two by two, south row first, at a place in a cell of these spacings. The near case, by far the
// most frequent, is compiled into the callers; the other is a call. What that call is handed goes through memory, so it gets a square of
// its own, and the near case writes none.
#[inline(always)]
pub fn weigh(corners: [[i64; 2]; 2], at: PlaceInCell, s: Spacings) -> i64
    requires { CornersWithin correction_limit (square_of corners) × InCell s at }
    ensures { result ≡ bilinear (square_of corners) at.u at.v s.latitude s.longitude }
{
    let c = square_of(corners);
    if are_near(c, s.latitude * s.longitude) {
        return weigh_near(c, at, s);
    }
    weigh_any(square_of(corners), at, s)
}

// The corners by their names.
#[inline(always)]
fn square_of(corners: [[i64; 2]; 2]) -> Square
    ensures { result ≡ square_of corners }
{
    Square {
        southwest: corners[0][0],
        southeast: corners[0][1],
        northwest: corners[1][0],
        northeast: corners[1][1],
    }
}

// Are the corners of a cell of that area near?
#[inline(always)]
pub fn are_near(c: Square, area: u64) -> bool
    requires { CornersWithin correction_limit c }
    ensures { result ≡ near c area }
{
    let sw = c.southwest;
    three_within(
        c.southeast - sw,
        NEAR,
        c.northwest - sw,
        NEAR,
        c.northeast - sw,
        NEAR,
    ) && is_between(area, 1, NEAR_AREA)
}

// The value of near corners, with one division. From this `weigh_any` differs in the base, in how far it raises and in the division: one
// function of all three would be longer than both, and ask of each what these know.
#[inline(always)]
pub fn weigh_near(c: Square, at: PlaceInCell, s: Spacings) -> i64
    requires { CornersWithin correction_limit c × InCell s at × (near c (s.latitude * s.longitude) ≡ true) }
    ensures { result ≡ bilinear c at.u at.v s.latitude s.longitude }
{
    let quotient = near_quotient(raised_square(c, c.southwest, RAISE), at, s);
    let whole = lowered(quotient.whole, c.southwest, RAISE);
    rounded_sum(whole, quotient.rest, s.latitude * s.longitude)
}

// The value of any corners: raised by the largest size of a corner they are natural numbers, whose sum takes three divisions. Those of a
// real grid are so raised all large, and the branch by which the compiler takes a shorter division of small numbers goes one way: a
// processor that guesses it wrong waits for the corners' bytes.
#[inline(never)]
fn weigh_any(c: Square, at: PlaceInCell, s: Spacings) -> i64
    requires { CornersWithin correction_limit c × InCell s at }
    ensures { result ≡ bilinear c at.u at.v s.latitude s.longitude }
{
    let quotient = any_quotient(raised_square(c, 0, CORRECTION_LIMIT), at, s);
    let whole = lowered(quotient.whole, 0, CORRECTION_LIMIT);
    rounded_sum(whole, quotient.rest, s.latitude * s.longitude)
}

// The rounding of document 02's note 3, in its six cases: of a sum by its sign, and by quotient and remainder of its absolute value by the
// area, P × Q (crates/rules/specs/SixCases.antt; docs/ROUNDING.md). Twice the remainder is less than the area where the remainder is less
// than what is missing to the area. So compared, the compiler finds that a sum and its negative take one test, and makes no branch on the
// sign.
fn rounded(negative: bool, quotient: u64, remainder: u64, area: u64) -> i64
    requires { (quotient ≤ quotient_most) × (remainder < area) }
    ensures { result ≡ six_cases negative quotient remainder area }
{
    let value = quotient as i64;
    let missing = area - remainder;
    if !negative {
        // Case 1: not below zero, below half.
        if remainder < missing {
            return value;
        }
        // Case 2: not below zero, exactly half.
        if remainder == missing {
            return value + 1;
        }
        // Case 3: not below zero, above half.
        return value + 1;
    }
    // Case 6: below zero, above half.
    if remainder > missing {
        return -(value + 1);
    }
    // Case 5: below zero, exactly half.
    if remainder == missing {
        return -value;
    }
    // Case 4: below zero, below half.
    -value
}

// A sum, rounded, from its quotient by the area, rounded down, and what that leaves. Below zero its absolute value leaves what is missing
// to the area, and has one area less, unless nothing is left. The size is taken after the test of the sign: taken before it, the compiler
// makes a branch on the sign of near corners too.
fn rounded_sum(whole: i64, rest: u64, area: u64) -> i64
    requires { (nat_abs whole ≤ quotient_most) × (rest < area) }
    ensures { result ≡ rounded_by_cases (whole *ℤ pos area +ℤ pos rest) area }
{
    if whole >= 0 {
        return rounded(false, whole.unsigned_abs(), rest, area);
    }
    let size = whole.unsigned_abs();
    if rest == 0 {
        return rounded(true, size, 0, area);
    }
    rounded(true, size - 1, area - rest, area)
}

// Corners, raised by so much less a base from which they lie no further.
fn raised_square(c: Square, base: i64, by: u64) -> Raised
    requires { CornersAround base by c }
    ensures { Gaps (base -ℤ pos by) c result }
{
    Raised {
        southwest: raised_corner(c.southwest, base, by),
        southeast: raised_corner(c.southeast, base, by),
        northwest: raised_corner(c.northwest, base, by),
        northeast: raised_corner(c.northeast, base, by),
    }
}

// One of them.
fn raised_corner(x: i64, base: i64, by: u64) -> u64
    requires { Around base by x }
    ensures { x ≡ (base -ℤ pos by) +ℤ pos result }
{
    (x - base + by as i64) as u64
}

// The value that n is, raised so.
fn lowered(n: u64, base: i64, by: u64) -> i64
    requires { (nat_abs base ≤ correction_limit) × (by ≤ correction_limit) × (n ≤ 2 * correction_limit) }
    ensures value { result ≡ (base -ℤ pos by) +ℤ pos n }
    ensures most { nat_abs result ≤ quotient_most }
{
    base - by as i64 + n as i64
}

// The sum of raised near corners, divided by the area: it fits 64 bits.
fn near_quotient(r: Raised, at: PlaceInCell, s: Spacings) -> Quotient
    requires { Below (raise + near_limit) r × InCell s at × (s.latitude * s.longitude ≤ near_area) }
    ensures { result ≡ corner_quotient r at s }
{
    let rows = mixed(r, at.v, s.longitude);
    let sum = mix(rows.south, rows.north, at.u, s.latitude);
    let area = s.latitude * s.longitude;
    Quotient {
        whole: sum / area,
        rest: sum % area,
    }
}

// The sum of any raised corners, divided by the area: the two rows are mixed, then the mix of both divided in steps.
fn any_quotient(r: Raised, at: PlaceInCell, s: Spacings) -> Quotient
    requires { Below (2 * correction_limit) r × InCell s at }
    ensures { result ≡ corner_quotient r at s }
{
    divided_in_steps(mixed(r, at.v, s.longitude), at.u, s)
}

// Both rows of raised corners, mixed at v from the west side.
fn mixed(r: Raised, v: u64, spacing: u64) -> Rows
    requires { Below (2 * correction_limit) r × (v ≤ spacing) × (spacing ≤ spacing_most) }
    ensures { result ≡ mixed r v spacing }
{
    Rows {
        south: mix(r.southwest, r.southeast, v, spacing),
        north: mix(r.northwest, r.northeast, v, spacing),
    }
}

// a and b weighted by the parts whole - w and w.
fn mix(a: u64, b: u64, w: u64, whole: u64) -> u64
    requires { Mixable a b w whole }
    ensures { result ≡ mix a b w whole }
{
    (whole - w) * a + w * b
}

// The mix of two rows divided by the area, without the mix itself, which may not fit 64 bits: each row is divided by the longitude spacing
// first, then the mix of those quotients by the latitude spacing. What both divisions leave is below two areas.
fn divided_in_steps(r: Rows, u: u64, s: Spacings) -> Quotient
    requires { RowMixes r u s }
    ensures { result ≡ quotient_of r u s }
{
    let t = mix(r.south / s.longitude, r.north / s.longitude, u, s.latitude);
    let left = mix(r.south % s.longitude, r.north % s.longitude, u, s.latitude);
    let whole = t / s.latitude;
    let rest = t % s.latitude * s.longitude + left;
    let area = s.latitude * s.longitude;
    if rest < area {
        return Quotient { whole, rest };
    }
    Quotient {
        whole: whole + 1,
        rest: rest - area,
    }
}
