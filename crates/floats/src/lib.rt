// Floats by their bits: the nearest whole number of an f32 or an f64 at a scale, halves upward, exact in 64 bits.
#![tactic(auto)]

ghost use Rattle.std.specs.Prelude.{cond, ◌≡◌, ◌+◌, ◌-◌, ◌*◌, ◌^◌, ◌≤◌, ◌<◌};
ghost use Rattle.rules.specs.declared.FloatFormat.{FloatFormat};
ghost use Rattle.rules.specs.Floats.{binary32, binary64, exponent_of, negative, mantissa, signed};
ghost use Rattle.floats.specs.Sizes.{rounded_size, floored_size, Known, Usable, Power, binary32_known, binary64_known};
ghost use Rattle.floats.specs.Turned.{Turned, without_sign};
ghost use Rattle.floats.specs.Nearest.{whole_within, nearest_within};

use rules::{FloatFormat, Scale};

// A type of floats, by the parts of its bits.
pub trait Float {
    const FORMAT: FloatFormat;

    ghost FORMAT: { FloatFormat };

    ghost known: { Known FORMAT };
}

impl Float for f32 {
    const FORMAT: FloatFormat = FloatFormat {
        fraction: 23,
        exponent: 8,
    };

    ghost FORMAT = { binary32 };

    ghost known = { binary32_known };
}

impl Float for f64 {
    const FORMAT: FloatFormat = FloatFormat {
        fraction: 52,
        exponent: 11,
    };

    ghost FORMAT = { binary64 };

    ghost known = { binary64_known };
}

// The nearest whole number of a float times a scale; none, where it is not finite or the number is beyond the limit. Bits above the sign
// are not read. The float's value is its mantissa / 2^(bias + fraction's bits - power). A power above bias + 20 makes at least 2^21 of it,
// which is beyond the limit; else the divisor is 2^(fraction's bits - 20) times 2^(bias + 20 - power).
pub fn nearest<F: Float>(bits: u64, scale: Scale, limit: u64) -> Option<i64>
    requires { Usable scale limit }
    ensures { result ≡ nearest_within F.FORMAT scale limit bits }
{
    let f = F::FORMAT;
    let exponent = exponent_of::<F>(bits);
    if power_of_two(f.exponent) <= exponent + 1 {
        return None;
    }
    let power = exponent.max(1);
    let most = power_of_two(f.exponent - 1) + 19;
    if most < power {
        return None;
    }
    let minus = is_negative::<F>(bits);
    let m = mantissa_of::<F>(bits);
    let size = rounded_size(minus, m, f.fraction - 20, most - power, scale);
    whole_within(minus, size, limit)
}

// The float of the opposite value: the bit of its sign is turned.
pub fn turned<F: Float>(bits: u64) -> u64
    ensures { Turned F.FORMAT bits result }
{
    let f = F::FORMAT;
    bits ^ power_of_two(f.fraction + f.exponent)
}

// The bits without that of the sign. Floats of one sign stand in the order of these.
pub fn without_sign<F: Float>(bits: u64) -> u64
    ensures { result ≡ without_sign F.FORMAT bits }
{
    let f = F::FORMAT;
    bits % power_of_two(f.exponent + f.fraction)
}

// 2^n.
fn power_of_two(n: u64) -> u64
    requires { n < 64 }
    ensures { Power n result }
{
    1 << n
}

// The exponent, as its bits have it.
fn exponent_of<F: Float>(bits: u64) -> u64
    ensures { (result ≡ exponent_of F.FORMAT bits) × (result < 2 ^ 63) }
{
    bits / power_of_two(F::FORMAT.fraction) % power_of_two(F::FORMAT.exponent)
}

// The mantissa, with its leading one but for exponent 0.
fn mantissa_of<F: Float>(bits: u64) -> u64
    ensures { result ≡ mantissa F.FORMAT bits }
{
    let one = power_of_two(F::FORMAT.fraction);
    let fraction = bits % one;
    if exponent_of::<F>(bits) == 0 {
        fraction
    } else {
        one + fraction
    }
}

// Is the sign's bit set?
fn is_negative<F: Float>(bits: u64) -> bool
    ensures { result ≡ negative F.FORMAT bits }
{
    bits / power_of_two(F::FORMAT.fraction + F::FORMAT.exponent) % 2 == 1
}

// The size of ± m / 2^(cut + shift) times the scale, plus one half, rounded down. The mantissa goes in two parts, each times the scale's
// upper number, so that both products fit; and what is divided is divided in steps, by 2^cut, by 2^shift and by the scale's lower number,
// for rounding down in steps is rounding down once. A shift above 63 leaves of a number below 2^63 what 63 does.
fn rounded_size(minus: bool, m: u64, cut: u64, shift: u64, scale: Scale) -> u64
    requires { (cut ≤ 32) × (m < 2097152 * 2 ^ cut) × (scale.over ≤ 1000000000) × (1 ≤ scale.under) × (scale.under ≤ 1000000000) }
    ensures { (result ≡ rounded_size minus (m * scale.over) (2 ^ (cut + shift) * scale.under)) × (result < 2 ^ 63) }
{
    let part = power_of_two(cut);
    let low = floored_size(minus, 2 * (m % part * scale.over), part);
    let n = 2 * (m / part * scale.over) + low;
    let t = floored_size(minus, n, power_of_two(shift.min(63)));
    (t + (scale.under - u64::from(minus))) / (2 * scale.under)
}

// n / d, rounded down, or of a negative number's size up. The sign is reckoned with, as 1 or 0, and not tested, which is quicker where
// signs change from node to node.
fn floored_size(minus: bool, n: u64, d: u64) -> u64
    requires { (0 < d) × (n + d < 2 ^ 64) }
    ensures { result ≡ floored_size minus n d }
{
    (n + u64::from(minus) * (d - 1)) / d
}

// The number of a sign and a size, where it is within the limit.
fn whole_within(minus: bool, n: u64, limit: u64) -> Option<i64>
    requires { n < 2 ^ 63 }
    ensures { result ≡ whole_within limit (signed minus n) }
{
    if limit < n {
        return None;
    }
    if minus {
        Some(-(n as i64))
    } else {
        Some(n as i64)
    }
}
