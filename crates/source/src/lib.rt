// What a way asks of an opened image at a point: whether it is in the bounds, the corrections and the quasi-geoid height together, or the
// height alone. The choice between heights at the corrections' nodes and heights on a separate grid is made here.
#![tactic(auto)]

ghost use Rattle.std.specs.Prelude.{◌≡◌, true, false, ◌||◌};
ghost use Rattle.rules.specs.Answers.{outcome_of};
ghost use Rattle.rules.specs.Limits.{GeometryPasses};
ghost use Rattle.rules.specs.Lookup.{inside, height_lookup};
ghost use Rattle.rules.specs.Ways.{bounded_source, source_of};
ghost use Rattle.image.specs.Fit.{grid_in};
ghost use Rattle.lookup.specs.Held.{point_lookup_of};
ghost use Rattle.source.specs.Asked.{HeldFor, point_lookup};

use geometry::in_bounds;
use grids::{height_on, height_or_none, look_up_grids};
use image::FitImage;
use lookup::{HeldCell, PointValues, height_in, lies_in, look_up_node_height, look_up_nodes};
use rules::{Layout, Point, Refusal};

// Is a point in the bounds, or are there none? Questions 8 and 10.
pub fn is_inside(l: Layout, p: Point) -> bool
    requires { GeometryPasses l.latitude.geometry }
    ensures { result ≡ (l.unbounded || inside l.latitude.geometry p) }
{
    l.unbounded || in_bounds(l.latitude.geometry, p)
}

// The corrections at a point in the bounds, then the height there: all values that the way back asks for.
pub fn look_up(image: &FitImage<'_>, q: Point) -> Result<PointValues, Refusal>
    requires { inside (grid_in image.now).corrections q ≡ true }
    ensures { point_lookup_of result ≡ point_lookup (bounded_source (grid_in image.now)) q }
{
    if image.layout.separate {
        look_up_grids(image, q)
    } else {
        look_up_nodes(image, q)
    }
}

// The height at a point in the bounds of the corrections: on a separate grid, or in the held cell where the point lies in it, else in the
// point's own.
pub fn height_at(image: &FitImage<'_>, h: HeldCell, q: Point) -> Result<Option<i64>, Refusal>
    requires { (inside (grid_in image.now).corrections q ≡ true) × HeldFor h image.now q }
    ensures { outcome_of result ≡ (bounded_source (grid_in image.now)).height q }
{
    if image.layout.separate {
        height_on(image.bytes, image.layout.height, q)
    } else {
        height_held(image, h, q)
    }
}

// The same where no cell is held, at any point of an image without bounds.
pub fn look_up_height(image: &FitImage<'_>, q: Point) -> Result<Option<i64>, Refusal>
    requires { image.now.layout.unbounded ≡ false → inside (grid_in image.now).corrections q ≡ true }
    ensures { outcome_of result ≡ (source_of (grid_in image.now)).height q }
{
    if image.layout.unbounded {
        height_or_none(image.bytes, image.layout.height, q)
    } else if image.layout.separate {
        height_on(image.bytes, image.layout.height, q)
    } else {
        look_up_node_height(image, q)
    }
}

// At the corrections' nodes, the height in the held cell where the point lies in it, else in the point's own.
fn height_held(image: &FitImage<'_>, h: HeldCell, q: Point) -> Result<Option<i64>, Refusal>
    requires { (inside (grid_in image.now).corrections q ≡ true) × HeldFor h image.now q × (image.now.layout.separate ≡ false) }
    ensures { outcome_of result ≡ height_lookup (grid_in image.now) q }
{
    let g = image.layout.latitude.geometry;
    if lies_in(h, g, q) {
        height_in(h, g, q)
    } else {
        look_up_node_height(image, q)
    }
}
