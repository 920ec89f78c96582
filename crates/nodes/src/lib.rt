// The values of an opened image: each is read from the part of the image that begins at its row's first value.
#![tactic(auto)]

ghost use Rattle.std.specs.Prelude.{◌≡◌, ◌+◌, ◌*◌, ◌≤◌, ◌<◌, length, drop};
ghost use Rattle.rules.specs.Units.{count_most};
ghost use Rattle.rules.specs.Image.{rows, columns, plane, beside_of};
ghost use Rattle.rules.specs.Limits.{InImage};
ghost use Rattle.rules.specs.Bilinear.{corners};
ghost use Rattle.rules.specs.Lookup.{square_passes};
ghost use Rattle.nodes.specs.Row.{CellIn, row_start, value_in, pair_of, square_of};
ghost use Rattle.nodes.specs.Either.{either, node_values, CellInside};

use numbers::{i32_at, is_within};
use rules::{Plane, Square};

// Two neighbouring values of a row.
#[derive(Clone, Copy)]
struct Pair {
    west: i64,
    east: i64,
}

// The corners of the cell whose south-west node is that of a row and a column, of one plane's values.
pub fn corners_at(image: &[u8], p: Plane, row: u64, column: u64) -> Square
    requires { InImage (length image.now) p × CellIn p.geometry row column }
    ensures { result ≡ corners (plane image.now p) row column }
{
    square_of(
        pair_at(image, p, row, column),
        pair_at(image, p, row + 1, column),
    )
}

// The same of the dense nodes or of the coarse ones, as `in_dense` says, from the bytes that begin with the first value of each.
pub fn corners_of_either(
    dense: &[u8],
    coarse: &[u8],
    in_dense: bool,
    stride: u64,
    columns: u64,
    row: u64,
    column: u64,
) -> Square
    requires { CellInside (length (either in_dense dense.now coarse.now)) stride columns row column }
    ensures { result
        ≡ corners (node_values (either in_dense dense.now coarse.now) stride columns) row column }
{
    let at = (stride * (row * columns)) as usize;
    let next = (stride * ((row + 1) * columns)) as usize;
    let south = row_bytes(dense, coarse, in_dense, at);
    let north = row_bytes(dense, coarse, in_dense, next);
    square_of(
        pair_in(south, stride, column),
        pair_in(north, stride, column),
    )
}

// The bytes from a row's first value on, `at` bytes into the dense nodes or into the coarse ones, as `in_dense` says. Document 01
// names this form: a part of one of two lent slices is handed back.
fn row_bytes<'a>(dense: &'a [u8], coarse: &'a [u8], in_dense: bool, at: usize) -> &'a [u8]
    requires { at ≤ length (either in_dense dense.now coarse.now) }
    ensures { result.now ≡ drop at (either in_dense dense.now coarse.now) }
{
    if in_dense {
        &dense[at..]
    } else {
        &coarse[at..]
    }
}

// The corners from those of the south row and of the north row.
fn square_of(south: Pair, north: Pair) -> Square
    ensures { result ≡ square_of south north }
{
    Square {
        southwest: south.west,
        southeast: south.east,
        northwest: north.west,
        northeast: north.east,
    }
}

// The values of a row at a column and at the next. Document 01 names this form: the part of the image that begins at the row's first value
// is lent on.
fn pair_at(image: &[u8], p: Plane, row: u64, column: u64) -> Pair
    requires { InImage (length image.now) p × ((row < rows p.geometry) × (column + 1 < columns p.geometry)) }
    ensures { result ≡ pair_of (plane image.now p row) column }
{
    let start = row_start(image.len() as u64, p, row) as usize;
    pair_in(&image[start..], p.stride, column)
}

// The same, in the part of the image that begins at the row's first value.
fn pair_in(row: &[u8], stride: u64, column: u64) -> Pair
    requires { (column < count_most) × (stride * (column + 1) + 4 ≤ length row.now) }
    ensures { result ≡ pair_of (value_in row.now stride) column }
{
    Pair {
        west: value_in(row, stride, column),
        east: value_in(row, stride, column + 1),
    }
}

// Where a row's first value begins, in an image of so many bytes.
pub fn row_start(size: u64, p: Plane, row: u64) -> u64
    requires { InImage size p × (row < rows p.geometry) }
    ensures { result ≡ row_start p row }
{
    p.first + p.stride * (row * p.geometry.longitude.count)
}

// The plane of longitude corrections that follow the latitude corrections of a plane node by node, in an image of so many bytes.
pub fn beside(size: u64, p: Plane) -> Plane
    requires { InImage size p }
    ensures { result ≡ beside_of p }
{
    Plane {
        first: p.first + 4,
        ..p
    }
}

// The value of a column, in the part of the image that begins at its row's first value.
fn value_in(row: &[u8], stride: u64, column: u64) -> i64
    requires { stride * column + 4 ≤ length row.now }
    ensures { result ≡ value_in row.now stride column }
{
    i32_at(row, (stride * column) as usize)
}

// Question 9 of one value's four corners.
#[tactic(auto, unfolding(rules::specs::Lookup::square_passes))]
pub fn square_passes(c: Square, limit: u64) -> bool
    ensures { result ≡ square_passes limit c }
{
    (is_within(c.southwest, limit) && is_within(c.southeast, limit))
        && (is_within(c.northwest, limit) && is_within(c.northeast, limit))
}
