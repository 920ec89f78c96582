// Images of kind 0 and of kind 3, each converted into the other in a lent buffer: the same values, the corrections in another order.
#![tactic(auto)]

ghost use Rattle.std.specs.Prelude.{not, ◌++◌, ◌≡◌, ◌+◌, ◌-◌, ◌*◌, ◌≤◌, ◌<◌, length, drop, set};
ghost use Rattle.rules.specs.Answers.{values, outcome_of, status_of, after};
ghost use Rattle.rules.specs.Image.{node_count};
ghost use Rattle.rules.specs.Questions.{opening};
ghost use Rattle.rules.specs.Limits.{GeometryPasses, InImage, Open};
ghost use Rattle.rules.specs.Planes.{is_of_kind, convertible, value_bytes, plane_bytes, node_bytes};
ghost use Rattle.rules.specs.Planes.{corrections_in_planes, corrections_in_nodes};
ghost use Rattle.rules.specs.Planes.{planes_from_nodes, planes_after, nodes_from_planes, nodes_after};
ghost use Rattle.layouts.specs.Directions.{kind_in, corrections_in, conversion_to};
ghost use Rattle.planes.specs.Kinds.{in_planes};

use image::open;
use rules::{Geometry, Layout, Plane, Refusal};
use trailers::read_two_grid_trailer;

// The kinds that are converted into each other, by their numbers: in 0 the corrections lie node by node, in 3 all latitude corrections
// precede all longitude corrections.
#[derive(Clone, Copy)]
enum Kind {
    InNodes = 0,
    InPlanes = 3,
}

// Kind 3 from kind 0: the buffer is written, or the refusal left it unchanged.
pub fn planes_from_nodes(image: &[u8], buffer: &mut [u8]) -> Result<(), Refusal>
    ensures number { status_of (outcome_of result) ≡ status_of (planes_from_nodes image.now (length buffer.old)) }
    ensures buffer { buffer.new ≡ planes_after image.now buffer.old }
{
    convert_to(image, Kind::InPlanes, buffer)
}

// Kind 0 from kind 3, likewise.
pub fn nodes_from_planes(image: &[u8], buffer: &mut [u8]) -> Result<(), Refusal>
    ensures number { status_of (outcome_of result) ≡ status_of (nodes_from_planes image.now (length buffer.old)) }
    ensures buffer { buffer.new ≡ nodes_after image.now buffer.old }
{
    convert_to(image, Kind::InNodes, buffer)
}

// Either kind from the other. What follows the corrections fills the end of the buffer.
fn convert_to(image: &[u8], to: Kind, buffer: &mut [u8]) -> Result<(), Refusal>
    ensures number { status_of (outcome_of result) ≡ status_of (conversion_to (in_planes to) image.now (length buffer.old)) }
    ensures buffer { buffer.new ≡ after (conversion_to (in_planes to) image.now (length buffer.old)) buffer.old }
{
    let l = convertible(image, other(to), buffer.len())?;
    let first = l.height.first as usize;
    let heights = buffer.len() - (image.len() - first);
    write_corrections(image, l, to, &mut buffer[..heights]);
    write_rest(image, first, number(to), &mut buffer[heights..]);
    Ok(())
}

// The other of the two kinds.
fn other(kind: Kind) -> Kind
    ensures { in_planes result ≡ not (in_planes kind) }
{
    match kind {
        Kind::InNodes => Kind::InPlanes,
        Kind::InPlanes => Kind::InNodes,
    }
}

// A kind's number.
fn number(kind: Kind) -> u8
    ensures { result ≡ kind_in (in_planes kind) }
{
    kind as u8
}

// The refusals, for an image to be of this kind and a buffer of so many bytes; or where the image's values lie.
fn convertible(image: &[u8], kind: Kind, room: usize) -> Result<Layout, Refusal>
    ensures { outcome_of result ≡ convertible (kind_in (in_planes kind)) image.now room }
{
    let fit = open(image)?;
    let l = fit.layout;
    if !is_of_kind(image, l, kind) {
        return Err(Refusal::Edition);
    }
    let bytes = image.len() - l.latitude.first as usize;
    if room != bytes {
        return Err(Refusal::ListLengths);
    }
    Ok(l)
}

// Is an image that opened of edition 2, with separate heights, and of this kind?
fn is_of_kind(image: &[u8], l: Layout, kind: Kind) -> bool
    requires { opening image.now ≡ values l }
    ensures { result ≡ is_of_kind (kind_in (in_planes kind)) image.now }
{
    l.separate && read_two_grid_trailer(image).kind == number(kind) as u64
}

// Writes the corrections of an image as a kind has them.
fn write_corrections(image: &[u8], l: Layout, kind: Kind, part: &mut [u8])
    requires { Open (length image.now) l × (length part.old ≡ 8 * node_count l.latitude.geometry) }
    ensures { part.new ≡ corrections_in (in_planes kind) image.now l }
{
    match kind {
        Kind::InNodes => write_in_nodes(image, l, part),
        Kind::InPlanes => write_in_planes(image, l, part),
    }
}

// Writes all latitude corrections, then all longitude corrections.
#[tactic(auto, unfolding(rules::specs::Planes::corrections_in_planes))]
fn write_in_planes(image: &[u8], l: Layout, planes: &mut [u8])
    requires { Open (length image.now) l × (length planes.old ≡ 8 * node_count l.latitude.geometry) }
    ensures { planes.new ≡ corrections_in_planes image.now l }
{
    let half = planes.len() / 2;
    write_values(image, l.latitude, &mut planes[..half]);
    write_values(image, l.longitude, &mut planes[half..]);
}

// Writes the values of a plane, one after another. It and `write_in_nodes` are two loops, since one over both kinds would ask at each value
// where it goes.
fn write_values(image: &[u8], p: Plane, values: &mut [u8])
    requires { InImage (length image.now) p × (length values.old ≡ 4 * node_count p.geometry) }
    ensures { values.new ≡ plane_bytes image.now p }
{
    for n in 0..node_count(p.geometry) {
        copy_value(image, p, n, &mut values[4 * n as usize..]);
    }
}

// Writes the corrections node by node.
fn write_in_nodes(image: &[u8], l: Layout, nodes: &mut [u8])
    requires { Open (length image.now) l × (length nodes.old ≡ 8 * node_count l.latitude.geometry) }
    ensures { nodes.new ≡ corrections_in_nodes image.now l }
{
    for n in 0..node_count(l.latitude.geometry) {
        copy_node(image, l, n, &mut nodes[8 * n as usize..]);
    }
}

// How many nodes a geometry has.
fn node_count(g: Geometry) -> u64
    requires { GeometryPasses g }
    ensures { result ≡ node_count g }
{
    g.latitude.count * g.longitude.count
}

// Copies both corrections of node n to the front of the part that is lent; what follows them is unchanged.
fn copy_node(image: &[u8], l: Layout, n: u64, rest: &mut [u8])
    requires { Open (length image.now) l × (n < node_count l.latitude.geometry) × (8 ≤ length rest.old) }
    ensures { rest.new ≡ node_bytes image.now l.latitude l.longitude n ++ drop 8 rest.old }
{
    copy_value(image, l.latitude, n, rest);
    copy_value(image, l.longitude, n, &mut rest[4..]);
}

// Copies the four bytes of value n of a plane, likewise.
fn copy_value(image: &[u8], p: Plane, n: u64, rest: &mut [u8])
    requires { InImage (length image.now) p × (n < node_count p.geometry) × (4 ≤ length rest.old) }
    ensures { rest.new ≡ value_bytes image.now p n ++ drop 4 rest.old }
{
    let at = (p.first + p.stride * n) as usize;
    rest[..4].copy_from_slice(&image[at..at + 4]);
}

// Writes what follows the corrections, from byte `first` of the image on, and the kind's lowest byte in it.
fn write_rest(image: &[u8], first: usize, kind: u8, rest: &mut [u8])
    requires { (first + length rest.old ≡ length image.now) × (8 ≤ length rest.old) }
    ensures { rest.new ≡ drop first (set image.now (length image.now - 8) kind) }
{
    copy_bytes(&image[first..], rest);
    let at = rest.len() - 8;
    rest[at] = kind;
}

// Copies all bytes, by a loop: `copy_from_slice` is a call of C's memmove, and the library needs none (include/marker.h).
fn copy_bytes(from: &[u8], to: &mut [u8])
    requires { length to.old ≡ length from.now }
    ensures { to.new ≡ from.now }
{
    for n in 0..from.len() {
        to[n] = from[n];
    }
}
