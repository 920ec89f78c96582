// The geometry of a grid: questions 3 to 5, the bounds of questions 8 and 10, and of two grids question 20.
#![tactic(auto)]

ghost use Rattle.std.specs.Prelude.{true, ◌≡◌, ◌≤◌};
ghost use Rattle.rules.specs.Units.{longitude_limit};
ghost use Rattle.rules.specs.Questions.{question3, question4, bounds_within, question5, questions_3_to_5};
ghost use Rattle.rules.specs.Limits.{Sized, AxisPasses, GeometryPasses};
ghost use Rattle.rules.specs.Dense.{on_line, axis_aligned, question20};
ghost use Rattle.rules.specs.Lookup.{inside};

use axis::{far_bound, offset_on, on_axis};
use numbers::{is_between, is_within};
use rules::{Axis, COUNT_MOST, Geometry, LATITUDE_LIMIT, LONGITUDE_LIMIT, Point, SPACING_MOST};

// Question 3.
#[tactic(auto, unfolding(rules::specs::Questions::question3))]
pub fn counts_pass(g: Geometry) -> bool
    ensures { result ≡ question3 g }
{
    is_between(g.latitude.count, 2, COUNT_MOST) && is_between(g.longitude.count, 2, COUNT_MOST)
}

// Question 4.
#[tactic(auto, unfolding(rules::specs::Questions::question4))]
pub fn spacings_pass(g: Geometry) -> bool
    ensures { result ≡ question4 g }
{
    is_between(g.latitude.spacing, 1, SPACING_MOST)
        && is_between(g.longitude.spacing, 1, SPACING_MOST)
}

// Question 5, after 3 and 4.
#[tactic(auto, unfolding(rules::specs::Questions::question5))]
pub fn bounds_pass(g: Geometry) -> bool
    requires { (question3 g ≡ true) × (question4 g ≡ true) }
    ensures { result ≡ question5 g }
{
    bounds_within(LATITUDE_LIMIT, g.latitude) && bounds_within(LONGITUDE_LIMIT, g.longitude)
}

// Both bounds of an axis are within the limit. The first is tested before the second is computed, so the sum fits.
#[tactic(auto, unfolding(rules::specs::Questions::bounds_within))]
fn bounds_within(limit: u64, a: Axis) -> bool
    requires { (limit ≤ longitude_limit) × Sized a }
    ensures { result ≡ bounds_within limit a }
{
    is_within(a.start, limit) && is_within(far_bound(a), limit)
}

// Questions 3 to 5 together.
#[tactic(auto, unfolding(rules::specs::Questions::questions_3_to_5))]
pub fn questions_pass(g: Geometry) -> bool
    ensures { result ≡ questions_3_to_5 g }
{
    counts_pass(g) && spacings_pass(g) && bounds_pass(g)
}

// Is the point in the bounds, all four included?
#[tactic(auto, unfolding(rules::specs::Lookup::inside))]
pub fn in_bounds(g: Geometry, p: Point) -> bool
    requires { GeometryPasses g }
    ensures { result ≡ inside g p }
{
    on_axis(g.latitude, p.latitude) && on_axis(g.longitude, p.longitude)
}

// Question 20: the dense grid d lies within the coarse grid c, and is aligned with it.
#[tactic(auto, unfolding(rules::specs::Dense::question20))]
pub fn is_aligned(c: Geometry, d: Geometry) -> bool
    requires { GeometryPasses c × GeometryPasses d }
    ensures { result ≡ question20 c d }
{
    axis_aligned(c.latitude, d.latitude) && axis_aligned(c.longitude, d.longitude)
}

// The same of one axis: both dense bounds lie on coarse lines, and the coarse spacing is a whole multiple of the dense one.
#[tactic(auto, unfolding(rules::specs::Dense::axis_aligned))]
fn axis_aligned(c: Axis, d: Axis) -> bool
    requires { AxisPasses longitude_limit c × AxisPasses longitude_limit d }
    ensures { result ≡ axis_aligned c d }
{
    is_on_line(c, d.start) && is_on_line(c, far_bound(d)) && c.spacing % d.spacing == 0
}

// An angle in the bounds of an axis, a whole number of spacings from its start.
#[tactic(auto, unfolding(rules::specs::Dense::on_line))]
fn is_on_line(a: Axis, z: i64) -> bool
    requires { AxisPasses longitude_limit a }
    ensures { result ≡ on_line a z }
{
    on_axis(a, z) && offset_on(a, z) % a.spacing == 0
}
