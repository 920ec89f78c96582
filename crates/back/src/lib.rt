// The way back over an opened image, from a Bessel point in the bounds and a NAP height to ETRS89.
#![tactic(auto)]

ghost use Rattle.std.specs.Prelude.{◌≡◌, true, ◌≤◌, nat_abs, ◌+ℤ◌};
ghost use Rattle.rules.specs.Units.{back_height_limit, quasi_geoid_limit};
ghost use Rattle.rules.specs.Limits.{PointWithin, CorrectionWithin};
ghost use Rattle.rules.specs.Lookup.{inside};
ghost use Rattle.rules.specs.Ways as ways;
ghost use Rattle.image.specs.Fit.{grid_in};

use image::FitImage;
use lookup::PointValues;
use rules::{Converted, Fix, Position, Refusal};
use source::look_up;

// The way back after questions 7 and 8, over an opened image: the corrections and the quasi-geoid height at the point, added.
#[tactic(auto, using(source::proofs::Sources::found_back))]
pub fn back_from(image: &FitImage<'_>, fix: Fix) -> Result<Converted, Refusal>
    requires { (inside (grid_in image.now).corrections fix.point ≡ true) × (nat_abs fix.height ≤ back_height_limit) }
    ensures { ways.answer_of result ≡ ways.back (ways.bounded_source (grid_in image.now)) fix.point fix.height }
{
    let found = look_up(image, fix.point)?;
    Ok(Converted::WithHeight(added(fix, found)))
}

// A point plus the corrections there, and its height plus the quasi-geoid height there, after one evaluation.
#[tactic(auto, using(integers::specs::Machine::sum_back), unfolding(rules::specs::Ways::plus))]
pub fn added(fix: Fix, found: PointValues) -> Position
    requires { PointWithin fix.point × (nat_abs fix.height ≤ back_height_limit)
        × (CorrectionWithin found.correction × (nat_abs found.height ≤ quasi_geoid_limit)) }
    ensures { result ≡ ways.position (ways.plus fix.point found.correction) (fix.height +ℤ found.height) 1 }
{
    Position {
        latitude: fix.point.latitude + found.correction.latitude,
        longitude: fix.point.longitude + found.correction.longitude,
        height: fix.height + found.height,
        count: 1,
    }
}
