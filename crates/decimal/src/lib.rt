// Whole decimal numbers of 64 bits, read from their text: digits, with a minus sign before them or not, and nothing else.
#![tactic(auto)]

ghost use Rattle.std.specs.Prelude.{◌≡◌, ◌≤◌, pos, neg_ℤ, IfSome};
ghost use Rattle.decimal.specs.Text.{decimal_of, digits_of, with_digit};

// The number of a text, from -9,223,372,036,854,775,808 to 9,223,372,036,854,775,807; none, where it has no digit, or another byte, or its
// number does not fit.
#[tactic(auto, unfolding(crate::specs::Text::decimal_of))]
pub fn read_decimal(text: &[u8]) -> Option<i64>
    ensures { result ≡ decimal_of text.now }
{
    match text {
        [b'-', digits @ ..] => read_digits(digits, 9223372036854775808).map(negated),
        digits => read_digits(digits, 9223372036854775807).map(|n| n as i64),
    }
}

// Minus n. The number furthest from zero fits only so.
fn negated(n: u64) -> i64
    requires { n ≤ 9223372036854775808 }
    ensures { result ≡ neg_ℤ (pos n) }
{
    0i64.wrapping_sub_unsigned(n)
}

// The number of digits alone, of which there is at least one, where it is at most `most`.
fn read_digits(text: &[u8], most: u64) -> Option<u64>
    requires { most ≤ 9223372036854775808 }
    ensures number { result ≡ digits_of most text.now }
    ensures within { IfSome result (λ n. n ≤ most) }
{
    if text.is_empty() {
        return None;
    }
    let mut n = 0;
    for byte in text {
        n = with_digit(n, *byte, most)?;
    }
    Some(n)
}

// The number n with one more digit behind it.
#[tactic(auto, unfolding(crate::specs::Text::with_digit))]
fn with_digit(n: u64, byte: u8, most: u64) -> Option<u64>
    requires { most ≤ 9223372036854775808 }
    ensures { result ≡ with_digit most n byte }
{
    if byte < b'0' || b'9' < byte || most / 10 < n {
        return None;
    }
    let longer = 10 * n + u64::from(byte - b'0');
    (longer <= most).then_some(longer)
}
