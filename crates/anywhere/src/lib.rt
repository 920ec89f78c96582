// Kind 2's ways, from any point within question 7's limits: outside the bounds the corrections are zero, and off the height grid the answer
// has no height. Questions 8, 10 and 15 are not put.
#![tactic(auto)]

ghost use Rattle.std.specs.Prelude.{◌≡◌, ◌≤◌, nat_abs, ◌+ℤ◌};
ghost use Rattle.rules.specs.Units.{out_height_limit, back_height_limit};
ghost use Rattle.rules.specs.Limits.{PointWithin, CorrectionWithin};
ghost use Rattle.rules.specs.Ways as ways;
ghost use Rattle.image.specs.Fit.{grid_in};
ghost use Rattle.source.specs.Asked.{HeightWithin};
ghost use Rattle.anywhere.specs.Unbounded.{outside};

use back::added;
use geometry::in_bounds;
use grids::{corrections_or_zero, height_or_none};
use image::FitImage;
use lookup::PointValues;
use out::answer_with;
use rules::{Converted, Correction, Fix, MOST_EVALUATIONS, Refusal, STOP_DISTANCE, Way};
use turns::{is_settled, moved};

// A conversion after question 7. Outside the bounds the corrections are zero, so that a point is its own answer either way, after one
// evaluation.
#[tactic(auto, using(crate::proofs::Evaluations::outside_anywhere))]
pub fn convert_anywhere(way: Way, image: &FitImage<'_>, fix: Fix) -> Result<Converted, Refusal>
    requires { PointWithin fix.point × (nat_abs fix.height ≤ ways.height_limit way) }
    ensures { ways.answer_of result ≡ ways.way_of way (ways.unbounded_source (grid_in image.now)) fix.point fix.height }
{
    if !in_bounds(image.layout.latitude.geometry, fix.point) {
        let found = height_or_none(image.bytes, image.layout.height, fix.point)?;
        return Ok(convert_outside(way, found, fix));
    }
    match way {
        Way::Out => out_anywhere(image, fix),
        Way::Back => back_anywhere(image, fix),
    }
}

// The answer of a point outside the bounds, by what the lookup of the quasi-geoid height there found.
fn convert_outside(way: Way, found: Option<i64>, fix: Fix) -> Converted
    requires { HeightWithin found × PointWithin fix.point × (nat_abs fix.height ≤ ways.height_limit way) }
    ensures { ways.accepted_of result ≡ outside way fix.point fix.height found }
{
    let none = Correction {
        latitude: 0,
        longitude: 0,
    };
    match way {
        Way::Out => answer_with(found, fix, 1),
        Way::Back => added_with(none, found, fix),
    }
}

// The way out: at most five evaluations, each from the point that the one before led to. The loop of `out::out_from` holds a cell: one
// function of both would take the evaluation as a closure over that cell and hand it back for the height, and be longer than this.
fn out_anywhere(image: &FitImage<'_>, fix: Fix) -> Result<Converted, Refusal>
    requires { PointWithin fix.point × (nat_abs fix.height ≤ out_height_limit) }
    ensures { ways.answer_of result ≡ ways.out (ways.unbounded_source (grid_in image.now)) fix.point fix.height }
{
    let mut r = fix.point;
    for n in 0..MOST_EVALUATIONS {
        let q = moved(fix.point, corrections_or_zero(image, r)?);
        if is_settled(STOP_DISTANCE, q, r) {
            let found = height_or_none(image.bytes, image.layout.height, q)?;
            return Ok(answer_with(found, Fix { point: q, ..fix }, n + 1));
        }
        r = q;
    }
    Err(Refusal::NotSettled)
}

// The way back: the corrections and the quasi-geoid height at the point, added. `back::back_from` reads both before it weighs either; here
// there may be no height.
#[tactic(auto, using(crate::proofs::Evaluations::back_anywhere))]
fn back_anywhere(image: &FitImage<'_>, fix: Fix) -> Result<Converted, Refusal>
    requires { PointWithin fix.point × (nat_abs fix.height ≤ back_height_limit) }
    ensures { ways.answer_of result ≡ ways.back (ways.unbounded_source (grid_in image.now)) fix.point fix.height }
{
    let c = corrections_or_zero(image, fix.point)?;
    let found = height_or_none(image.bytes, image.layout.height, fix.point)?;
    Ok(added_with(c, found, fix))
}

// A point plus corrections, and its height by what the lookup of the quasi-geoid height there found.
fn added_with(correction: Correction, found: Option<i64>, fix: Fix) -> Converted
    requires { CorrectionWithin correction × HeightWithin found × PointWithin fix.point × (nat_abs fix.height ≤ back_height_limit) }
    ensures { ways.accepted_of result ≡ ways.answer_at (ways.plus fix.point correction) (λ z. fix.height +ℤ z) 1 found }
{
    match found {
        Some(height) => Converted::WithHeight(added(fix, PointValues { correction, height })),
        None => Converted::WithoutHeight(added(
            Fix { height: 0, ..fix },
            PointValues {
                correction,
                height: 0,
            },
        )),
    }
}
