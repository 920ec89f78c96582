// Numbers as the machine holds them: the size of a signed number, the distance of two, limits, the smaller and the larger of two, the
// little-endian numbers of an image, read and written, and the big-endian ones of a VDatum file.
#![tactic(auto)]

ghost use Rattle.std.specs.Prelude.{◌&&◌, ◌++◌, ◌≡◌, ◌+◌, ◌≤◌, ◌<◌, min, max, nat_abs, ◌-ℤ◌, length, take, drop};
ghost use Rattle.rules.specs.Units.{between, within};
ghost use Rattle.rules.specs.Image.{u32_at, u64_at, i32_at, i64_at};
ghost use Rattle.rules.specs.Files.{natural, bytes_of};
ghost use Rattle.rules.specs.Vdatum.{big_u32_at, big_u64_at, big_i32_at};

// The distance from zero.
pub fn magnitude(z: i64) -> u64
    ensures { result ≡ nat_abs z }
{
    z.unsigned_abs()
}

// The number itself, of which a negative one becomes 0.
pub fn natural_of(z: i64) -> u64
    ensures { result ≡ natural z }
{
    z.max(0) as u64
}

// How far two numbers are from each other.
pub fn distance(a: i64, b: i64) -> u64
    ensures { result ≡ nat_abs (a -ℤ b) }
{
    a.abs_diff(b)
}

// At most `limit` from zero? No number of 64 bits is further from it than 2^63. The compiler makes one comparison of the last line; with
// `z.unsigned_abs() <= limit` in its place the grid check takes a third longer.
pub fn is_within(z: i64, limit: u64) -> bool
    ensures { result ≡ within limit z }
{
    if 9223372036854775807 < limit {
        return true;
    }
    0 - limit as i64 <= z && z <= limit as i64
}

// Three numbers, each within its own limit: a within l, b within m, c within n?
pub fn three_within(a: i64, l: u64, b: i64, m: u64, c: i64, n: u64) -> bool
    ensures { result ≡ (within l a && (within m b && within n c)) }
{
    is_within(a, l) && is_within(b, m) && is_within(c, n)
}

// From `low` to `high`, both included?
pub fn is_between(n: u64, low: u64, high: u64) -> bool
    ensures { result ≡ between low high n }
{
    low <= n && n <= high
}

// The smaller of two numbers.
pub fn smaller(a: u64, b: u64) -> u64
    ensures { result ≡ min a b }
{
    a.min(b)
}

// The larger of two numbers.
pub fn larger(a: u64, b: u64) -> u64
    ensures { result ≡ max a b }
{
    a.max(b)
}

// The unsigned number of four bytes, the lowest first.
pub fn u32_at(s: &[u8], at: usize) -> u64
    requires { at + 4 ≤ length s.now }
    ensures { (result ≡ u32_at s.now at) × (result < 4294967296) }
{
    u32::from_le_bytes(bytes_at(s, at)) as u64
}

// The unsigned number of eight bytes.
#[tactic(auto, unfolding(rules::specs::Image::u64_at))]
pub fn u64_at(s: &[u8], at: usize) -> u64
    requires { at + 8 ≤ length s.now }
    ensures { result ≡ u64_at s.now at }
{
    u64::from_le_bytes(bytes_at(s, at))
}

// The signed number of four bytes.
#[tactic(auto, unfolding(rules::specs::Image::i32_at))]
pub fn i32_at(s: &[u8], at: usize) -> i64
    requires { at + 4 ≤ length s.now }
    ensures { result ≡ i32_at s.now at }
{
    i32::from_le_bytes(bytes_at(s, at)) as i64
}

// The signed number of eight bytes.
#[tactic(auto, unfolding(rules::specs::Image::i64_at, rules::specs::Image::u64_at))]
pub fn i64_at(s: &[u8], at: usize) -> i64
    requires { at + 8 ≤ length s.now }
    ensures { result ≡ i64_at s.now at }
{
    i64::from_le_bytes(bytes_at(s, at))
}

// Writes a number's four bytes at the front of the part that is lent; what follows them is unchanged.
#[tactic(auto, unfolding(rules::specs::Files::bytes_of))]
pub fn write_i32(rest: &mut [u8], z: i64)
    requires { (4 ≤ length rest.old) × (nat_abs z < 2147483648) }
    ensures { rest.new ≡ bytes_of z ++ drop 4 rest.old }
{
    rest[..4].copy_from_slice(&(z as i32).to_le_bytes());
}

// The unsigned number of four bytes, the highest first.
pub fn big_u32_at(s: &[u8], at: usize) -> u64
    requires { at + 4 ≤ length s.now }
    ensures { (result ≡ big_u32_at s.now at) × (result < 4294967296) }
{
    u32::from_be_bytes(bytes_at(s, at)) as u64
}

// The unsigned number of eight bytes.
#[tactic(auto, unfolding(rules::specs::Vdatum::big_u64_at))]
pub fn big_u64_at(s: &[u8], at: usize) -> u64
    requires { at + 8 ≤ length s.now }
    ensures { result ≡ big_u64_at s.now at }
{
    u64::from_be_bytes(bytes_at(s, at))
}

// The signed number of four bytes.
#[tactic(auto, unfolding(rules::specs::Vdatum::big_i32_at))]
pub fn big_i32_at(s: &[u8], at: usize) -> i64
    requires { at + 4 ≤ length s.now }
    ensures { result ≡ big_i32_at s.now at }
{
    i32::from_be_bytes(bytes_at(s, at)) as i64
}

// So many bytes, from byte `at` on.
fn bytes_at<const N: usize>(s: &[u8], at: usize) -> [u8; N]
    requires { at + N ≤ length s.now }
    ensures { result ≡ take N (drop at s.now) }
{
    s[at..at + N].try_into().unwrap()
}
