// The way out over an opened image, from an ETRS89 point in the bounds and a height within its limit to Bessel and NAP.
#![tactic(auto)]

ghost use Rattle.std.specs.Prelude.{◌≡◌, true, ◌≤◌, nat_abs, ◌-ℤ◌};
ghost use Rattle.rules.specs.Units.{out_height_limit, quasi_geoid_limit};
ghost use Rattle.rules.specs.Lookup.{inside, grid_for};
ghost use Rattle.rules.specs.Ways as ways;
ghost use Rattle.image.specs.Fit.{grid_in};
ghost use Rattle.lookup.specs.Held.{Bounded, held_at};
ghost use Rattle.grids.specs.Grids.{taken_dense};
ghost use Rattle.source.specs.Asked.{HeightWithin};
ghost use Rattle.out.specs.Answer.{stop_for, still_in};

use grids::{corrections_around, is_taken_dense};
use image::FitImage;
use lookup::{HeldCell, cell_around, lies_in, no_cell};
use rules::{
    Converted, DENSE_STOP_DISTANCE, Fix, Geometry, Layout, MOST_EVALUATIONS, Point, Position,
    Refusal, STOP_DISTANCE,
};
use source::height_at;
use turns::{Turn, evaluation};

// The way out after questions 7 and 8, over an opened image: at most five evaluations, each from the point that the one before led to.
// The last point's cell is held, and another is read only where the next point does not lie in it, or takes its corrections from the
// other grid: on the dense border it lies on the side of a coarse cell too.
pub fn out_from(image: &FitImage<'_>, fix: Fix) -> Result<Converted, Refusal>
    requires { (inside (grid_in image.now).corrections fix.point ≡ true) × (nat_abs fix.height ≤ out_height_limit) }
    ensures { ways.answer_of result ≡ ways.out (ways.bounded_source (grid_in image.now)) fix.point fix.height }
{
    let bounds = image.layout.latitude.geometry;
    let stop = stop_distance(image.layout);
    let mut r = fix.point;
    let mut dense = false;
    let mut held = no_cell();
    for n in 0..MOST_EVALUATIONS {
        let next = is_taken_dense(image.layout, r);
        if !is_held(held, dense, bounds, next, r) {
            held = cell_for(image, next, r);
            dense = next;
        }
        match evaluation(held, bounds, stop, fix.point, r)? {
            Turn::Settled(q) => {
                let found = height_at(image, held, q)?;
                return Ok(answer_with(found, Fix { point: q, ..fix }, n + 1));
            }
            Turn::Next(q) => r = q,
        }
    }
    Err(Refusal::NotSettled)
}

// The stop rule's distance, by whether there is a dense grid.
fn stop_distance(l: Layout) -> u64
    ensures { result ≡ stop_for l }
{
    if l.nested {
        DENSE_STOP_DISTANCE
    } else {
        STOP_DISTANCE
    }
}

// Is a point's cell the held one: does the point lie in it, and is it of the grid that the point's corrections are taken from?
fn is_held(held: HeldCell, dense: bool, bounds: Geometry, next: bool, r: Point) -> bool
    requires { Bounded bounds r }
    ensures { result ≡ still_in held dense bounds next r }
{
    next == dense && lies_in(held, bounds, r)
}

// The cell around a point: at the nodes of all values, or at those of corrections alone.
fn cell_for(image: &FitImage<'_>, dense: bool, r: Point) -> HeldCell
    requires { (inside (grid_in image.now).corrections r ≡ true) × (dense ≡ taken_dense image.now.layout r) }
    ensures { result ≡ held_at image.now.layout.latitude.geometry (grid_for (grid_in image.now) r) r }
{
    if image.layout.separate {
        corrections_around(image, dense, r)
    } else {
        cell_around(image, r)
    }
}

// The answer at a point after so many evaluations, by what the lookup of the quasi-geoid height there found: the height minus that.
pub fn answer_with(found: Option<i64>, at: Fix, count: u64) -> Converted
    requires { HeightWithin found × (nat_abs at.height ≤ out_height_limit) }
    ensures { ways.accepted_of result ≡ ways.answer_at at.point (λ z. at.height -ℤ z) count found }
{
    match found {
        Some(z) => Converted::WithHeight(position_below(at, z, count)),
        None => Converted::WithoutHeight(position_below(Fix { height: 0, ..at }, 0, count)),
    }
}

// A point at its height less z, and the count.
#[tactic(auto, using(integers::specs::Machine::difference_back))]
fn position_below(at: Fix, z: i64, count: u64) -> Position
    requires { (nat_abs at.height ≤ out_height_limit) × (nat_abs z ≤ quasi_geoid_limit) }
    ensures { result ≡ ways.position at.point (at.height -ℤ z) count }
{
    Position {
        latitude: at.point.latitude,
        longitude: at.point.longitude,
        height: at.height - z,
        count,
    }
}
