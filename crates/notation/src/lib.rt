// Degree notation: an angle in nd read from degrees, minutes, seconds and a letter, and written so.
// In every function `longitude` names the axis: true for longitudes, false for latitudes, as in the C interface and in the rules
// (`read_notation`, `write_notation` of specs/Notation.antt).
#![tactic(auto)]

ghost use Rattle.std.specs.Prelude.{cond, ◌&&◌, ◌≡◌, ◌*◌, ◌^◌, ◌≤◌, ◌<◌, ltb, pos};
ghost use Rattle.std.specs.Int.Signed.{lt_z};
ghost use Rattle.rules.specs.Units.{degrees};
ghost use Rattle.rules.specs.Notation.{per_degree, total, axis_limit, positive_letter, negative_letter, magnitude_read, total_written};
ghost use Rattle.rules.specs.Answers.{outcome_of};
ghost use Rattle.rules.specs.Notation.{split, read_notation, write_notation};
ghost use Rattle.notation.specs.Parts.{side_of, amounts_fit};

use rules::{Notation, Refusal};

// A degree in nd, and a degree and a minute in hundred-thousandths of a second.
const ND_PER_DEGREE: u64 = 1000000000;

const PER_DEGREE: u64 = 360000000;

const PER_MINUTE: u64 = 6000000;

// The side of zero that a letter means: N and E the positive one, S and W the negative one.
#[derive(Clone, Copy)]
enum Side {
    Positive,
    Negative,
}

// The angle that a notation of an axis gives, or 13.
pub fn read_notation(longitude: bool, n: Notation) -> Result<i64, Refusal>
    ensures { outcome_of result ≡ read_notation longitude n }
{
    if !amounts_fit(longitude, n) {
        return Err(Refusal::BadNotation);
    }
    let size = size_of(total_of(n));
    let side = letter_side(longitude, n.letter).ok_or(Refusal::BadNotation)?;
    Ok(match side {
        Side::Positive => size,
        Side::Negative => -size,
    })
}

// The notation of an angle of an axis, or 13. The total is rounded first; the letter follows from it, and it is split last.
pub fn write_notation(longitude: bool, nd: i64) -> Result<Notation, Refusal>
    ensures { outcome_of result ≡ write_notation longitude nd }
{
    let size = nd.unsigned_abs();
    if axis_limit(longitude) * ND_PER_DEGREE < size {
        return Err(Refusal::BadNotation);
    }
    let t = total_written(size);
    let below = is_written_below_zero(nd, t);
    Ok(notation_of(t, letter_of(longitude, below)))
}

// Question 13 without its letter. Degrees above the limit are refused before they are multiplied.
#[tactic(auto, using(crate::specs::Parts::axis_most), unfolding(rules::specs::Notation::total, crate::specs::Parts::amounts_fit))]
fn amounts_fit(longitude: bool, n: Notation) -> bool
    ensures { result ≡ amounts_fit longitude n }
{
    let limit = axis_limit(longitude);
    n.minutes < 60
        && n.fraction < PER_MINUTE
        && n.degrees <= limit
        && total_of(n) <= limit * PER_DEGREE
}

// The largest angle of an axis, in degrees.
fn axis_limit(longitude: bool) -> u64
    ensures { result ≡ axis_limit longitude }
{
    if longitude { 180 } else { 90 }
}

// The total of a notation, in hundred-thousandths of a second.
#[tactic(auto, unfolding(rules::specs::Notation::total))]
fn total_of(n: Notation) -> u64
    requires { total n < 2 ^ 64 }
    ensures { result ≡ total n }
{
    n.degrees * PER_DEGREE + n.minutes * PER_MINUTE + n.fraction
}

// The size in nd of an angle of t hundred-thousandths of a second, rounded: 25 × t / 9 plus one half.
#[tactic(auto, using(integers::specs::Machine::read_cast), unfolding(rules::specs::Notation::magnitude_read))]
fn size_of(t: u64) -> i64
    requires { t ≤ 180 * per_degree }
    ensures { result ≡ pos (magnitude_read t) }
{
    ((50 * t + 9) / 18) as i64
}

// The side of zero that a letter means on an axis; a byte that is no letter of the axis has none.
fn letter_side(longitude: bool, letter: u8) -> Option<Side>
    ensures { result ≡ side_of longitude letter }
{
    match (longitude, letter) {
        (false, b'N') | (true, b'E') => Some(Side::Positive),
        (false, b'S') | (true, b'W') => Some(Side::Negative),
        _ => None,
    }
}

// The total that is written of an angle's size in nd, in hundred-thousandths of a second: rounded, 18 × size / 50 plus one half.
#[tactic(auto, unfolding(rules::specs::Notation::total_written))]
fn total_written(size: u64) -> u64
    requires { size ≤ degrees 180 }
    ensures { result ≡ total_written (pos size) }
{
    (18 * size + 25) / 50
}

// Is an angle written as one below zero? With a written total t of zero it is not, whatever its sign.
fn is_written_below_zero(nd: i64, t: u64) -> bool
    ensures { result ≡ (ltb 0 t && lt_z nd (pos 0)) }
{
    0 < t && nd < 0
}

// The letter of an angle on an axis, by whether it is written as one below zero.
fn letter_of(longitude: bool, below: bool) -> u8
    ensures { result ≡ cond below (negative_letter longitude) (positive_letter longitude) }
{
    match (longitude, below) {
        (false, false) => b'N',
        (false, true) => b'S',
        (true, false) => b'E',
        (true, true) => b'W',
    }
}

// A total in hundred-thousandths of a second, split, with a letter.
#[tactic(auto, unfolding(rules::specs::Notation::split))]
fn notation_of(t: u64, letter: u8) -> Notation
    ensures { result ≡ split t letter }
{
    Notation {
        degrees: t / PER_DEGREE,
        minutes: t / PER_MINUTE % 60,
        fraction: t % PER_MINUTE,
        letter,
    }
}
