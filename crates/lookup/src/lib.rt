// The cell around a point, read from a fit image whose heights stand at the corrections' nodes, and the values at a point in a cell.
#![tactic(auto)]

ghost use Rattle.std.specs.Prelude.{◌≡◌, true, false, ◌+◌, ◌≤◌, ◌<◌};
ghost use Rattle.rules.specs.Answers.{values, ask, outcome_of};
ghost use Rattle.rules.specs.Units.{correction_limit};
ghost use Rattle.rules.specs.Limits.{CornersWithin};
ghost use Rattle.rules.specs.Lookup.{question9, height_lookup};
ghost use Rattle.image.specs.Fit.{grid_in};
ghost use Rattle.nodes.specs.Row.{CellIn};
ghost use Rattle.bilinear.specs.Mean.{InCell};
ghost use Rattle.lookup.specs.Held.{NodesAround, Bounded, spacings_of, offsets_of, cell_place, cell_corners, corners_pass, placed_cell};
ghost use Rattle.lookup.specs.Held.{held_cell, held_at, no_cell, lies_in, place_in, Holds, corrections_in, height_in, value_in, values_in};
ghost use Rattle.lookup.specs.Held.{node_lookup, point_lookup_of};

use axis::{is_reached, locate, offset_on};
use bilinear::weigh;
use image::FitImage;
use nodes::{corners_at, square_passes};
use rules::{
    CORRECTION_LIMIT, Correction, Geometry, PlaceInCell, Point, QUASI_GEOID_LIMIT, Refusal,
    Spacings, Square,
};

// The three values at the corners of a cell.
#[derive(Clone, Copy)]
pub struct CellCorners {
    pub latitude: Square,
    pub longitude: Square,
    pub height: Square,
}

// The values at the corners of a point's cell, one or more of them, with the spacings of its grid and the point's place in it.
#[derive(Clone, Copy)]
pub struct Placed<C> {
    pub corners: C,
    pub spacings: Spacings,
    pub at: PlaceInCell,
}

// A cell read from an image: the distance of its south side from the south bound of the corrections and of its west side from their west
// bound, the spacings of its grid, the values at its corners, and the answer to question 9. That stands beside the corners, not in an
// Option around them: the contract of `corrections_in`, which can't fail, asks for it alone.
#[derive(Clone, Copy)]
pub struct HeldCell {
    pub south: u64,
    pub west: u64,
    pub spacings: Spacings,
    pub corners: CellCorners,
    pub passes: bool,
}

// The corrections and the quasi-geoid height at a point.
#[derive(Clone, Copy)]
pub struct PointValues {
    pub correction: Correction,
    pub height: i64,
}

// How far a point lies from the south and from the west bound.
#[derive(Clone, Copy)]
pub struct Offsets {
    pub northing: u64,
    pub easting: u64,
}

// The cell of a point, by row and column, and the point's place in it.
#[derive(Clone, Copy)]
pub struct CellPlace {
    pub row: u64,
    pub column: u64,
    pub at: PlaceInCell,
}

// The cell of a point in the bounds, where heights stand at the corrections' nodes.
pub fn cell_around(image: &FitImage<'_>, p: Point) -> HeldCell
    requires { NodesAround image.now p }
    ensures { result ≡ held_at (grid_in image.now).corrections (grid_in image.now) p }
{
    held_cell(image.layout.latitude.geometry, p, placed_cell(image, p))
}

// The cell of a point in the bounds, from its corners, with question 9 put to these.
pub fn held_cell(bounds: Geometry, p: Point, cell: Placed<CellCorners>) -> HeldCell
    requires { Bounded bounds p × (cell.at.u ≤ (offsets_of bounds p).northing) × (cell.at.v ≤ (offsets_of bounds p).easting) }
    ensures { result ≡ held_cell bounds p cell }
{
    let from = offsets_of(bounds, p);
    HeldCell {
        south: from.northing - cell.at.u,
        west: from.easting - cell.at.v,
        spacings: cell.spacings,
        corners: cell.corners,
        passes: corners_pass(cell.corners),
    }
}

// A cell with spacings of 0, in which no point lies. The way out holds it before it has read one: an Option around what it holds would ask
// for one more case wherever the held cell is asked for, and no point lies in it as it is.
pub fn no_cell() -> HeldCell
    ensures { result ≡ no_cell }
{
    let zeros = Square {
        southwest: 0,
        southeast: 0,
        northwest: 0,
        northeast: 0,
    };
    HeldCell {
        south: 0,
        west: 0,
        spacings: Spacings {
            latitude: 0,
            longitude: 0,
        },
        corners: CellCorners {
            latitude: zeros,
            longitude: zeros,
            height: zeros,
        },
        passes: false,
    }
}

// The corners of the cell of a point in the bounds. Compiled into the callers: a call would hand the cell back in memory.
#[inline(always)]
fn placed_cell(image: &FitImage<'_>, p: Point) -> Placed<CellCorners>
    requires { NodesAround image.now p }
    ensures { result ≡ placed_cell (grid_in image.now) p }
{
    let g = image.layout.latitude.geometry;
    let cell = cell_of(g, p);
    Placed {
        corners: corners_around(image, cell.row, cell.column),
        spacings: spacings_of(g),
        at: cell.at,
    }
}

// The values at the corners of the cell of a row and a column.
fn corners_around(image: &FitImage<'_>, row: u64, column: u64) -> CellCorners
    requires { ((grid_in image.now).separate ≡ false) × CellIn (grid_in image.now).corrections row column }
    ensures { result ≡ cell_corners (grid_in image.now) row column }
{
    let l = image.layout;
    CellCorners {
        latitude: corners_at(image.bytes, l.latitude, row, column),
        longitude: corners_at(image.bytes, l.longitude, row, column),
        height: corners_at(image.bytes, l.height, row, column),
    }
}

// The lookup of all values at a point in the bounds, where heights stand at the corrections' nodes: question 9 for its cell, then the
// values. The way back asks for them once, and holds no cell.
pub fn look_up_nodes(image: &FitImage<'_>, p: Point) -> Result<PointValues, Refusal>
    requires { NodesAround image.now p }
    ensures { point_lookup_of result ≡ node_lookup (grid_in image.now) p }
{
    Ok(values_between(passing_cell(image, p)?))
}

// The same of the height alone.
pub fn look_up_node_height(image: &FitImage<'_>, p: Point) -> Result<Option<i64>, Refusal>
    requires { NodesAround image.now p }
    ensures { outcome_of result ≡ height_lookup (grid_in image.now) p }
{
    let cell = passing_cell(image, p)?;
    Ok(Some(value_between(cell.corners.height, cell.spacings, cell.at)))
}

// The corners of the cell of a point in the bounds, after question 9.
#[inline(always)]
fn passing_cell(image: &FitImage<'_>, p: Point) -> Result<Placed<CellCorners>, Refusal>
    requires { NodesAround image.now p }
    ensures { outcome_of result ≡ ask (question9 (grid_in image.now) p) 9 (values (placed_cell (grid_in image.now) p)) }
{
    let cell = placed_cell(image, p);
    if !corners_pass(cell.corners) {
        return Err(Refusal::NodeLimits);
    }
    Ok(cell)
}

// The cell of a point in the bounds, and the point's place in it.
pub fn cell_of(g: Geometry, p: Point) -> CellPlace
    requires { Bounded g p }
    ensures { result ≡ cell_place g p }
{
    let from = offsets_of(g, p);
    let row = locate(g.latitude, from.northing);
    let column = locate(g.longitude, from.easting);
    CellPlace {
        row: row.cell,
        column: column.cell,
        at: PlaceInCell {
            u: row.part,
            v: column.part,
        },
    }
}

// The spacings of a grid.
pub fn spacings_of(g: Geometry) -> Spacings
    ensures { result ≡ spacings_of g }
{
    Spacings {
        latitude: g.latitude.spacing,
        longitude: g.longitude.spacing,
    }
}

// Question 9 of the three values at a cell's corners.
#[tactic(auto, unfolding(crate::specs::Held::corners_pass))]
fn corners_pass(c: CellCorners) -> bool
    ensures { result ≡ corners_pass c }
{
    square_passes(c.latitude, CORRECTION_LIMIT)
        && square_passes(c.longitude, CORRECTION_LIMIT)
        && square_passes(c.height, QUASI_GEOID_LIMIT)
}

// Does a point in the bounds lie in a held cell: at or past its south and west side, and less than one spacing from each?
#[tactic(auto, unfolding(crate::specs::Held::lies_in))]
pub fn lies_in(h: HeldCell, bounds: Geometry, p: Point) -> bool
    requires { Bounded bounds p }
    ensures { result ≡ lies_in h bounds p }
{
    let from = offsets_of(bounds, p);
    is_reached(h.south, h.spacings.latitude, from.northing)
        && is_reached(h.west, h.spacings.longitude, from.easting)
}

// How far a point in the bounds lies from the south and the west bound.
fn offsets_of(g: Geometry, p: Point) -> Offsets
    requires { Bounded g p }
    ensures { result ≡ offsets_of g p }
{
    Offsets {
        northing: offset_on(g.latitude, p.latitude),
        easting: offset_on(g.longitude, p.longitude),
    }
}

// The two corrections at a point in a held cell that passes question 9.
pub fn corrections_in(h: HeldCell, bounds: Geometry, p: Point) -> Correction
    requires { (h.passes ≡ true) × Holds h bounds p }
    ensures { result ≡ corrections_in h bounds p }
{
    let at = place_in(h, bounds, p);
    Correction {
        latitude: value_between(h.corners.latitude, h.spacings, at),
        longitude: value_between(h.corners.longitude, h.spacings, at),
    }
}

// The place of a point in a held cell.
fn place_in(h: HeldCell, bounds: Geometry, p: Point) -> PlaceInCell
    requires { Holds h bounds p }
    ensures { result ≡ place_in h bounds p }
{
    let from = offsets_of(bounds, p);
    PlaceInCell {
        u: from.northing - h.south,
        v: from.easting - h.west,
    }
}

// The value at a place in a cell, from those at its corners.
#[inline(always)]
#[tactic(auto, unfolding(crate::specs::Held::value_in))]
pub fn value_between(c: Square, s: Spacings, at: PlaceInCell) -> i64
    requires { CornersWithin correction_limit c × InCell s at }
    ensures { result ≡ value_in c s at }
{
    weigh(
        [[c.southwest, c.southeast], [c.northwest, c.northeast]],
        at,
        s,
    )
}

// All three values at a place in a cell whose corners pass question 9.
fn values_between(cell: Placed<CellCorners>) -> PointValues
    requires { (corners_pass cell.corners ≡ true) × InCell cell.spacings cell.at }
    ensures { result ≡ values_in cell }
{
    let c = cell.corners;
    PointValues {
        correction: Correction {
            latitude: value_between(c.latitude, cell.spacings, cell.at),
            longitude: value_between(c.longitude, cell.spacings, cell.at),
        },
        height: value_between(c.height, cell.spacings, cell.at),
    }
}

// The quasi-geoid height at a point in a held cell: question 9 as the cell answers it, then the value between its heights.
pub fn height_in(h: HeldCell, bounds: Geometry, q: Point) -> Result<Option<i64>, Refusal>
    requires { Holds h bounds q }
    ensures { outcome_of result ≡ height_in h bounds q }
{
    if !h.passes {
        return Err(Refusal::NodeLimits);
    }
    Ok(Some(value_between(h.corners.height, h.spacings, place_in(h, bounds, q))))
}
