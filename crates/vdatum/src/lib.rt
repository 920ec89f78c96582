// VDatum .gtx files: the header becomes a geometry and the nodes, f32 in metres, the height nodes of an image of edition 2.
#![tactic(auto)]

ghost use Rattle.std.specs.Prelude.{true, ◌&&◌, ◌≡◌, ◌+◌, ◌*◌, ◌/◌, ◌≤◌, eqb, nat_abs, length};
ghost use Rattle.rules.specs.Units.{count_most, quasi_geoid_limit};
ghost use Rattle.rules.specs.Answers.{ask, values, outcome_of};
ghost use Rattle.rules.specs.Image.{rows, columns};
ghost use Rattle.rules.specs.Vdatum.{header_of, height_bytes, height_of, height_fits, question16, question17, height_nodes, heights_from};
ghost use Rattle.rules.specs.Vdatum.{heights_after};
ghost use Rattle.vdatum.specs.Reading.{degrees_read, axis_read, geometry_read};

use floats::{nearest, without_sign};
use geometry::questions_pass;
use numbers::{big_i32_at, big_u32_at, big_u64_at, natural_of, write_i32};
use rules::{Axis, Geometry, LONGITUDE_LIMIT, QUASI_GEOID_LIMIT, Refusal, Scale};

// nd from degrees, units from metres.
const DEGREES: Scale = Scale {
    over: 1_000_000_000,
    under: 1,
};

const METRES: Scale = Scale {
    over: 10_000,
    under: 1,
};

// Where the nodes begin, after the header.
const HEADER: usize = 40;

// The bits of the largest f32 that rounds to a height within the limit: 100.0000457… m.
const HIGHEST_BITS: u64 = 0x42C80006;

// The conversion of any file into any buffer: the header and both lengths, then every node, and only then is the buffer written.
#[tactic(auto, using(crate::proofs::Header::lengths_are), unfolding(rules::specs::Vdatum::heights_from))]
pub fn heights_from_vdatum(file: &[u8], nodes: &mut [u8]) -> Result<Geometry, Refusal>
    ensures answer { outcome_of result ≡ heights_from file.now (length nodes.old) }
    ensures nodes { nodes.new ≡ heights_after file.now nodes.old }
{
    let g = read_header(file, nodes.len())?;
    if !all_heights_fit(file, nodes.len() / 4) {
        return Err(Refusal::VdatumHeight);
    }
    write_heights(file, nodes);
    Ok(g)
}

// Refusal 16, with a buffer of so many bytes. A number that is beyond 180 degrees fails question 4 or 5.
#[tactic(auto, using(crate::proofs::Header::header_tested, crate::proofs::Header::counted, rules::proofs::Files::kept, rules::proofs::Files::not_kept))]
fn read_header(file: &[u8], room: usize) -> Result<Geometry, Refusal>
    ensures { outcome_of result ≡ ask (question16 file.now room) 16 (values (header_of file.now)) }
{
    if file.len() < HEADER {
        return Err(Refusal::VdatumFile);
    }
    let g = read_geometry(file).ok_or(Refusal::VdatumFile)?;
    if questions_pass(g) && exact_lengths(g, file.len(), room) {
        Ok(g)
    } else {
        Err(Refusal::VdatumFile)
    }
}

// The header's geometry, of a file that has one.
fn read_geometry(file: &[u8]) -> Option<Geometry>
    requires { 40 ≤ length file.now }
    ensures { result ≡ geometry_read file.now }
{
    Some(Geometry {
        latitude: read_axis(file, 0, 16, 32)?,
        longitude: read_axis(file, 8, 24, 36)?,
    })
}

// Are file and buffer of the exact length?
fn exact_lengths(g: Geometry, size: usize, room: usize) -> bool
    requires { rows g * columns g ≤ count_most * count_most }
    ensures { result ≡ (eqb size (40 + height_bytes g) && eqb room (height_bytes g)) }
{
    let bytes = (4 * (g.latitude.count * g.longitude.count)) as usize;
    size == HEADER + bytes && room == bytes
}

// An axis of the header: its start, its spacing and its count, each at its byte.
fn read_axis(file: &[u8], start: usize, spacing: usize, count: usize) -> Option<Axis>
    requires { (start + 8 ≤ length file.now) × (spacing + 8 ≤ length file.now) × (count + 4 ≤ length file.now) }
    ensures { result ≡ axis_read file.now start spacing count }
{
    Some(Axis {
        start: read_degrees(file, start)?,
        spacing: natural_of(read_degrees(file, spacing)?),
        count: natural_of(big_i32_at(file, count)),
    })
}

// The f64 in degrees at a byte, to the nearest nd, where it is finite and within 180 degrees of zero.
#[tactic(auto, unfolding(floats::specs::Nearest::nearest_within, crate::specs::Reading::degrees_fit, rules::specs::Vdatum::degrees_at))]
fn read_degrees(file: &[u8], at: usize) -> Option<i64>
    requires { at + 8 ≤ length file.now }
    ensures { result ≡ degrees_read file.now at }
{
    nearest::<f64>(big_u64_at(file, at), DEGREES, LONGITUDE_LIMIT)
}

// Refusal 17, of so many nodes.
fn all_heights_fit(file: &[u8], nodes: usize) -> bool
    requires { 40 + 4 * nodes ≤ length file.now }
    ensures { result ≡ question17 file.now nodes }
{
    (0..nodes).all(|n| height_fits(file, n))
}

// Refusal 17, of node n. Floats of one sign stand in the order of their bits, so those without the sign decide, and nothing is rounded.
#[tactic(auto, using(crate::proofs::Highest::height_tested))]
fn height_fits(file: &[u8], n: usize) -> bool
    requires { 40 + 4 * n + 4 ≤ length file.now }
    ensures { result ≡ height_fits file.now n }
{
    without_sign::<f32>(big_u32_at(file, HEADER + 4 * n)) <= HIGHEST_BITS
}

// The height of a node that passes, in units.
#[tactic(auto, unfolding(floats::specs::Nearest::nearest_within, rules::specs::Vdatum::height_fits, rules::specs::Vdatum::height_of))]
fn fit_height(file: &[u8], n: usize) -> i64
    requires { (40 + 4 * n + 4 ≤ length file.now) × (height_fits file.now n ≡ true) }
    ensures { (result ≡ height_of file.now n) × (nat_abs result ≤ quasi_geoid_limit) }
{
    nearest::<f32>(big_u32_at(file, HEADER + 4 * n), METRES, QUASI_GEOID_LIMIT).unwrap()
}

// Writes all nodes, each at the front of the rest of the buffer. A `for` over places and not over chunks of the buffer: a proof would know
// nothing of what stands behind a chunk.
fn write_heights(file: &[u8], nodes: &mut [u8])
    requires { (length nodes.old ≡ 4 * (length nodes.old / 4)) × (40 + length nodes.old ≤ length file.now)
        × (question17 file.now (length nodes.old / 4) ≡ true) }
    ensures { nodes.new ≡ height_nodes file.now (length nodes.old / 4) }
{
    for n in 0..nodes.len() / 4 {
        write_i32(&mut nodes[4 * n..], fit_height(file, n));
    }
}
