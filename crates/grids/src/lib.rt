// The lookups where heights stand on a separate grid: the corners of a point's cell on either grid, those of the corrections on the dense
// grid where there is one and the point lies in its bounds, and the values between them; and kind 2's, at any point.
#![tactic(auto)]

ghost use Rattle.std.specs.Prelude.{◌≡◌, true, ◌&&◌, ◌+◌, ◌<◌, length};
ghost use Rattle.rules.specs.Units.{correction_limit};
ghost use Rattle.rules.specs.Answers.{outcome_of};
ghost use Rattle.rules.specs.Image.{plane};
ghost use Rattle.rules.specs.Limits.{GeometryPasses, InImage};
ghost use Rattle.rules.specs.Bilinear.{corners};
ghost use Rattle.rules.specs.Lookup.{corrections_or_zero, grid_for};
ghost use Rattle.image.specs.Fit.{grid_in};
ghost use Rattle.nodes.specs.Row.{CellIn};
ghost use Rattle.nodes.specs.Either.{either};
ghost use Rattle.lookup.specs.Held.{Bounded, Around, held_at, point_lookup_of};
ghost use Rattle.grids.specs.Grids.{taken_dense, latitude_plane, longitude_plane, squares_at, squares_pass, placed_squares_of};
ghost use Rattle.grids.specs.Grids.{correction_cell_of, asked_height, correction_cell_for, height_cell, CorrectionsWeighed, HeightsWeighed};
ghost use Rattle.grids.specs.Grids.{corrections_between, height_between, values_on, grids_lookup, height_on, height_on_or_none};

use geometry::in_bounds;
use image::FitImage;
use lookup::{
    CellCorners, HeldCell, Placed, PointValues, cell_of, held_cell, spacings_of, value_between,
};
use nodes::{beside, corners_at, corners_of_either, square_passes};
use rules::{
    CORRECTION_LIMIT, Correction, Geometry, Layout, Plane, Point, QUASI_GEOID_LIMIT, Refusal,
    Square,
};

// Both corrections at the corners of a cell.
#[derive(Clone, Copy)]
pub struct CorrectionSquares {
    pub latitude: Square,
    pub longitude: Square,
}

// The lookup of all values at a point in the bounds of the corrections, with heights on a separate grid: the corners on both grids, with
// their questions, and then the values. All corners are read before the first value is weighed, so that the reads wait for memory together.
pub fn look_up_grids(image: &FitImage<'_>, p: Point) -> Result<PointValues, Refusal>
    requires { Around image.now p }
    ensures { point_lookup_of result ≡ grids_lookup (grid_in image.now) p }
{
    let c = correction_cell(image, p)?;
    let h = height_cell(image.bytes, image.layout.height, p)?;
    Ok(values_on(c, h))
}

// The corners of a point's cell on the grid that its corrections are taken from, after question 9.
fn correction_cell(image: &FitImage<'_>, p: Point) -> Result<Placed<CorrectionSquares>, Refusal>
    requires { Around image.now p }
    ensures { outcome_of result ≡ correction_cell_for (grid_in image.now) p }
{
    cell_on(image, is_taken_dense(image.layout, p), p)
}

// The cell of a point on the grid that its corrections are taken from, for the way out. It has no heights: zeros, which pass question 9,
// stand for them.
pub fn corrections_around(image: &FitImage<'_>, dense: bool, p: Point) -> HeldCell
    requires { Around image.now p × ((grid_in image.now).separate ≡ true) × (dense ≡ taken_dense image.now.layout p) }
    ensures { result ≡ held_at (grid_in image.now).corrections (grid_for (grid_in image.now) p) p }
{
    let cell = placed_on(image, dense, p);
    let corners = CellCorners {
        latitude: cell.corners.latitude,
        longitude: cell.corners.longitude,
        height: Square {
            southwest: 0,
            southeast: 0,
            northwest: 0,
            northeast: 0,
        },
    };
    let placed = Placed {
        corners,
        spacings: cell.spacings,
        at: cell.at,
    };
    held_cell(image.layout.latitude.geometry, p, placed)
}

// Are a point's corrections taken from the dense grid: is there one, and the point in its bounds?
pub fn is_taken_dense(l: Layout, p: Point) -> bool
    requires { GeometryPasses l.dense.geometry }
    ensures { result ≡ taken_dense l p }
{
    l.nested && in_bounds(l.dense.geometry, p)
}

// The corners of the cell of a point in the bounds of the dense grid, or of the coarse one, after question 9. This and the next are
// compiled into the callers: a call would hand the cell back in memory.
#[inline(always)]
fn cell_on(
    image: &FitImage<'_>,
    dense: bool,
    p: Point,
) -> Result<Placed<CorrectionSquares>, Refusal>
    requires { Bounded (latitude_plane image.now.layout dense).geometry p }
    ensures { outcome_of result ≡ correction_cell_of image.now dense p }
{
    let cell = placed_on(image, dense, p);
    if squares_pass(cell.corners) {
        Ok(cell)
    } else {
        Err(Refusal::NodeLimits)
    }
}

// The same before question 9.
#[inline(always)]
fn placed_on(image: &FitImage<'_>, dense: bool, p: Point) -> Placed<CorrectionSquares>
    requires { Bounded (latitude_plane image.now.layout dense).geometry p }
    ensures { result ≡ placed_squares_of image.now dense p }
{
    let g = geometry_for(image.layout, dense);
    let cell = cell_of(g, p);
    Placed {
        corners: corrections_at(image, dense, cell.row, cell.column),
        spacings: spacings_of(g),
        at: cell.at,
    }
}

// Both corrections at the corners of a cell of the dense grid, or of the coarse one.
fn corrections_at(image: &FitImage<'_>, dense: bool, row: u64, column: u64) -> CorrectionSquares
    requires { CellIn (latitude_plane image.now.layout dense).geometry row column }
    ensures { let b = image.now.bytes.now in
        let l = image.now.layout in
        result ≡ squares_at (plane b (latitude_plane l dense)) (plane b (longitude_plane l dense)) row column }
{
    let l = image.layout;
    let next = beside(image.bytes.len() as u64, l.dense);
    CorrectionSquares {
        latitude: corners_on(image.bytes, l.dense, l.latitude, dense, row, column),
        longitude: corners_on(image.bytes, next, l.longitude, dense, row, column),
    }
}

// One value at the corners of a cell, of the plane of the dense grid or of that of the coarse one.
fn corners_on(
    image: &[u8],
    fine: Plane,
    coarse: Plane,
    dense: bool,
    row: u64,
    column: u64,
) -> Square
    requires { InImage (length image.now) fine × InImage (length image.now) coarse
        × CellIn (either dense fine coarse).geometry row column }
    ensures { result ≡ corners (plane image.now (either dense fine coarse)) row column }
{
    let chosen = plane_for(fine, coarse, dense);
    corners_of_either(
        &image[fine.first as usize..],
        &image[coarse.first as usize..],
        dense,
        chosen.stride,
        chosen.geometry.longitude.count,
        row,
        column,
    )
}

// The geometry of the dense grid, or of the coarse one.
fn geometry_for(l: Layout, dense: bool) -> Geometry
    ensures { result ≡ (latitude_plane l dense).geometry }
{
    plane_for(l.dense, l.latitude, dense).geometry
}

// One of two planes.
fn plane_for(fine: Plane, coarse: Plane, dense: bool) -> Plane
    ensures { result ≡ either dense fine coarse }
{
    if dense { fine } else { coarse }
}

// Question 9 of the two corrections at a cell's corners.
fn squares_pass(c: CorrectionSquares) -> bool
    ensures { result ≡ squares_pass c }
{
    square_passes(c.latitude, CORRECTION_LIMIT) && square_passes(c.longitude, CORRECTION_LIMIT)
}

// The corners of a point's cell on a separate height grid, after question 15 and question 9.
fn height_cell(image: &[u8], p: Plane, q: Point) -> Result<Placed<Square>, Refusal>
    requires { InImage (length image.now) p }
    ensures { outcome_of result ≡ height_cell p.geometry (plane image.now p) q }
{
    if !in_bounds(p.geometry, q) {
        return Err(Refusal::OffHeightGrid);
    }
    height_cell_inside(image, p, q)
}

// The corners of the cell of a point on the height grid, after question 9.
#[inline(always)]
fn height_cell_inside(image: &[u8], p: Plane, q: Point) -> Result<Placed<Square>, Refusal>
    requires { InImage (length image.now) p × Bounded p.geometry q }
    ensures { outcome_of result ≡ asked_height p.geometry (plane image.now p) q }
{
    let cell = cell_of(p.geometry, q);
    let corners = corners_at(image, p, cell.row, cell.column);
    if !square_passes(corners, QUASI_GEOID_LIMIT) {
        return Err(Refusal::NodeLimits);
    }
    Ok(Placed {
        corners,
        spacings: spacings_of(p.geometry),
        at: cell.at,
    })
}

// The values between the corners on both grids. This and the next two are compiled into the callers too: a call of each would be handed its
// cell in memory.
#[inline(always)]
fn values_on(c: Placed<CorrectionSquares>, h: Placed<Square>) -> PointValues
    requires { CorrectionsWeighed c × HeightsWeighed h }
    ensures { result ≡ values_on c h }
{
    PointValues {
        correction: corrections_between(c),
        height: height_between(h),
    }
}

// The corrections between their corners.
#[inline(always)]
fn corrections_between(c: Placed<CorrectionSquares>) -> Correction
    requires { CorrectionsWeighed c }
    ensures { result ≡ corrections_between c }
{
    Correction {
        latitude: value_between(c.corners.latitude, c.spacings, c.at),
        longitude: value_between(c.corners.longitude, c.spacings, c.at),
    }
}

// The value between the corners on a height grid.
#[inline(always)]
fn height_between(h: Placed<Square>) -> i64
    requires { HeightsWeighed h }
    ensures { result ≡ height_between h }
{
    value_between(h.corners, h.spacings, h.at)
}

// The lookup of the quasi-geoid height at a point on a separate height grid: question 15, question 9 for its cell there, then the value.
pub fn height_on(image: &[u8], p: Plane, q: Point) -> Result<Option<i64>, Refusal>
    requires { InImage (length image.now) p }
    ensures { outcome_of result ≡ height_on p.geometry (plane image.now p) q }
{
    let h = height_cell(image, p, q)?;
    Ok(Some(height_between(h)))
}

// Kind 2's lookup of the corrections, at any point: outside the bounds both are zero, and no cell is read. Compiled into its callers, so that
// no call is handed a fit image: one in memory the compiler clears first, by a call of a function of C.
#[inline(always)]
pub fn corrections_or_zero(image: &FitImage<'_>, p: Point) -> Result<Correction, Refusal>
    ensures { outcome_of result ≡ corrections_or_zero (grid_in image.now) p }
{
    if !in_bounds(image.layout.latitude.geometry, p) {
        return Ok(Correction {
            latitude: 0,
            longitude: 0,
        });
    }
    let c = cell_on(image, false, p)?;
    Ok(corrections_between(c))
}

// And of the height: off the height grid there is none, where `height_cell` refuses.
pub fn height_or_none(image: &[u8], p: Plane, q: Point) -> Result<Option<i64>, Refusal>
    requires { InImage (length image.now) p }
    ensures { outcome_of result ≡ height_on_or_none p.geometry (plane image.now p) q }
{
    if !in_bounds(p.geometry, q) {
        return Ok(None);
    }
    let h = height_cell_inside(image, p, q)?;
    Ok(Some(height_between(h)))
}
