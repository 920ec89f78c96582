// The nodes on the border of a grid. Question 21: those of a dense grid beside the parent's exact value. The border lies on coarse grid
// lines, where the exact value is that between two coarse nodes: one axis is enough, and 64 bits. Question 22: those of kind 2's
// corrections are zero.
#![tactic(auto)]

ghost use Rattle.std.specs.Prelude.{true, ◌≡◌, ◌-◌, ◌*◌, ◌≤◌, ◌<◌, length};
ghost use Rattle.rules.specs.Units.{longitude_limit, spacing_most};
ghost use Rattle.rules.specs.Image.{plane};
ghost use Rattle.rules.specs.Limits.{AxisPasses, InImage};
ghost use Rattle.rules.specs.Dense.{on_line, axis_aligned, question20};
ghost use Rattle.rules.specs.Check.{border_agrees, question21, both_zero, border_zero, question22};
ghost use Rattle.image.specs.Fit.{grid_in};
ghost use Rattle.steps.specs.Walk.{ValueInside, RunInside, run_value, Narrow};
ghost use Rattle.returning.specs.Sides.{node_close, node_agrees, side_agrees, line_of};
ghost use Rattle.border.specs.Lines.{rows_of, columns_of, line_run, line_value, lines_agree, are_zero, sides_zero, LinesInside};

use axis::{far_bound, locate, offset_on};
use image::FitImage;
use nodes::beside;
use numbers::is_within;
use rules::{Axis, Plane, Run};
use steps::run_value;

// The nodes of a plane as grid lines, its rows or its columns: a line for each node of the axis `across`, and on it a node for each of the
// axis `along`. The first values of two neighbouring lines are `apart` bytes apart, those of two neighbours on a line `stride` bytes.
#[derive(Clone, Copy)]
struct Lines {
    across: Axis,
    along: Axis,
    first: u64,
    apart: u64,
    stride: u64,
}

// Both corrections of every node on the border.
pub fn border_agrees(image: &FitImage<'_>) -> bool
    requires { image.now.layout.nested ≡ true }
    ensures { result ≡ question21 (grid_in image.now) }
{
    let l = image.layout;
    plane_agrees(image.bytes, l.latitude, l.dense)
        && plane_agrees(
            image.bytes,
            l.longitude,
            beside(image.bytes.len() as u64, l.dense),
        )
}

// One correction of every node on the border: its first and its last row, then its first and its last column.
fn plane_agrees(image: &[u8], coarse: Plane, dense: Plane) -> bool
    requires { InImage (length image.now) coarse × InImage (length image.now) dense
        × (question20 coarse.geometry dense.geometry ≡ true) }
    ensures { result
        ≡ border_agrees coarse.geometry dense.geometry (plane image.now coarse) (plane image.now dense) }
{
    let size = image.len() as u64;
    sides_agree(image, rows_of(size, coarse), rows_of(size, dense))
        && sides_agree(image, columns_of(size, coarse), columns_of(size, dense))
}

// The rows of a plane, and its columns, in an image of so many bytes. Two functions: what is the step of the one is the other's stride.
fn rows_of(size: u64, p: Plane) -> Lines
    requires { InImage size p }
    ensures { result ≡ rows_of p }
{
    Lines {
        across: p.geometry.latitude,
        along: p.geometry.longitude,
        first: p.first,
        apart: p.stride * p.geometry.longitude.count,
        stride: p.stride,
    }
}

fn columns_of(size: u64, p: Plane) -> Lines
    requires { InImage size p }
    ensures { result ≡ columns_of p }
{
    Lines {
        across: p.geometry.longitude,
        along: p.geometry.latitude,
        first: p.first,
        apart: p.stride,
        stride: p.stride * p.geometry.longitude.count,
    }
}

// Two opposite sides of the border: the first and the last of the dense lines, beside the coarse ones on which they lie.
fn sides_agree(image: &[u8], coarse: Lines, dense: Lines) -> bool
    requires { LinesInside (length image.now) coarse × LinesInside (length image.now) dense
        × (axis_aligned coarse.across dense.across ≡ true) × (axis_aligned coarse.along dense.along ≡ true) }
    ensures { result ≡ lines_agree image.now coarse dense }
{
    let start = line_of(coarse.across, dense.across.start);
    let far = line_of(coarse.across, far_bound(dense.across));
    side_agrees(image, coarse, start, dense, 0)
        && side_agrees(image, coarse, far, dense, dense.across.count - 1)
}

// The grid line of an angle that lies on one, counted from the axis's start.
fn line_of(a: Axis, z: i64) -> u64
    requires { AxisPasses longitude_limit a × (on_line a z ≡ true) }
    ensures { result ≡ line_of a z }
{
    offset_on(a, z) / a.spacing
}

// One side: a dense line, beside the coarse one on which it lies.
fn side_agrees(image: &[u8], coarse: Lines, line: u64, dense: Lines, side: u64) -> bool
    requires { LinesInside (length image.now) coarse × LinesInside (length image.now) dense
        × (axis_aligned coarse.along dense.along ≡ true) × (line < coarse.across.count) × (side < dense.across.count) }
    ensures { result
        ≡ side_agrees coarse.along dense.along
        (line_value image.now coarse line) (line_value image.now dense side) }
{
    let size = image.len() as u64;
    nodes_agree(
        image,
        line_run(size, coarse, line),
        coarse.along,
        line_run(size, dense, side),
        dense.along,
    )
}

// The values of a line, in an image of so many bytes.
fn line_run(size: u64, l: Lines, line: u64) -> Run
    requires { LinesInside size l × (line < l.across.count) }
    ensures { result ≡ line_run l line }
{
    Run {
        first: l.first + l.apart * line,
        stride: l.stride,
    }
}

// The nodes along a run, beside the values of a run on the same line of the coarse grid. By a `for`: as a closure of `all` the test would
// need clauses of its own, which say once more what the loop's invariant says.
fn nodes_agree(image: &[u8], parent: Run, coarse: Axis, border: Run, dense: Axis) -> bool
    requires { AxisPasses longitude_limit coarse × AxisPasses longitude_limit dense × (axis_aligned coarse dense ≡ true)
        × RunInside (length image.now) parent coarse.count × RunInside (length image.now) border dense.count }
    ensures { result ≡ side_agrees coarse dense (run_value image.now parent) (run_value image.now border) }
{
    let start = offset_on(coarse, dense.start);
    for i in 0..dense.count {
        let x = start + i * dense.spacing;
        if !node_agrees(image, parent, coarse, x, run_value(image, border, i)) {
            return false;
        }
    }
    true
}

// A node of value f, at distance x from the coarse axis's start.
fn node_agrees(image: &[u8], parent: Run, coarse: Axis, x: u64, f: i64) -> bool
    requires { AxisPasses longitude_limit coarse × RunInside (length image.now) parent coarse.count × Narrow f
        × (x ≤ (coarse.count - 1) * coarse.spacing) }
    ensures { result ≡ node_agrees coarse (run_value image.now parent) x f }
{
    let place = locate(coarse, x);
    let e = run_value(image, parent, place.cell);
    let next = run_value(image, parent, place.cell + 1);
    is_close(f, e, next, place.part, coarse.spacing)
}

// A value f within 1 of the exact value that lies `part` of a spacing past e, toward the next one; both times the spacing.
fn is_close(f: i64, e: i64, next: i64, part: u64, spacing: u64) -> bool
    requires { Narrow f × Narrow e × Narrow next × (part ≤ spacing) × (spacing ≤ spacing_most) }
    ensures { result ≡ node_close f e next part spacing }
{
    let exact = e * (spacing - part) as i64 + next * part as i64;
    (f * spacing as i64).abs_diff(exact) <= spacing
}

// Both corrections of every node on the border of the corrections.
pub fn border_is_zero(image: &FitImage<'_>) -> bool
    ensures { result ≡ question22 (grid_in image.now) }
{
    plane_is_zero(image.bytes, image.layout.latitude)
        && plane_is_zero(image.bytes, image.layout.longitude)
}

// One correction of every node on the border: its first and its last row, then its first and its last column.
fn plane_is_zero(image: &[u8], p: Plane) -> bool
    requires { InImage (length image.now) p }
    ensures { result ≡ border_zero p.geometry (plane image.now p) }
{
    let size = image.len() as u64;
    sides_are_zero(image, rows_of(size, p)) && sides_are_zero(image, columns_of(size, p))
}

// Two opposite sides: the first and the last line.
fn sides_are_zero(image: &[u8], l: Lines) -> bool
    requires { LinesInside (length image.now) l }
    ensures { result ≡ sides_zero image.now l }
{
    let size = image.len() as u64;
    let first = line_run(size, l, 0);
    let last = line_run(size, l, l.across.count - 1);
    runs_are_zero(image, first, last, l.along.count)
}

// Every value of two runs of so many. By a `for`, likewise.
fn runs_are_zero(image: &[u8], first: Run, last: Run, count: u64) -> bool
    requires { RunInside (length image.now) first count × RunInside (length image.now) last count }
    ensures { result ≡ both_zero count (run_value image.now first) (run_value image.now last) }
{
    for node in 0..count {
        if !are_zero(image, first, last, node) {
            return false;
        }
    }
    true
}

// Both values of a node.
fn are_zero(image: &[u8], first: Run, last: Run, node: u64) -> bool
    requires { ValueInside (length image.now) first node × ValueInside (length image.now) last node }
    ensures { result ≡ are_zero image.now first last node }
{
    is_within(run_value(image, first, node), 0) && is_within(run_value(image, last, node), 0)
}
