// A conversion, out or back, for every image, point and height: questions 1 to 8, then the way.
#![tactic(auto)]

ghost use Rattle.std.specs.Prelude.{◌≡◌};
ghost use Rattle.rules.specs.Ways as ways;
ghost use Rattle.image.specs.Fit.{grid_in};
ghost use Rattle.source.specs.Asked.{past_edge};

use anywhere::convert_anywhere;
use back::back_from;
use geometry::in_bounds;
use image::{FitImage, open};
use numbers::three_within;
use out::out_from;
use rules::{
    BACK_HEIGHT_LIMIT, Converted, Fix, LATITUDE_LIMIT, LONGITUDE_LIMIT, OUT_HEIGHT_LIMIT, Refusal,
    Way,
};

// A conversion over an image: questions 1 to 6 first.
#[tactic(auto, unfolding(rules::specs::Ways::convert))]
pub fn convert(way: Way, image: &[u8], fix: Fix) -> Result<Converted, Refusal>
    ensures { ways.answer_of result ≡ ways.convert way image.now fix.point fix.height }
{
    convert_over(way, &open(image)?, fix)
}

// A conversion over an opened image. Kind 2 is first converted as with bounds: where that leaves neither them nor the height grid, its
// answer is the same. So each way has one place from which it is called, and the compiler puts it into the loop over the fixes.
#[tactic(auto, using(crate::proofs::Edge::by_the_edge))]
pub fn convert_over(way: Way, image: &FitImage<'_>, fix: Fix) -> Result<Converted, Refusal>
    ensures { ways.answer_of result ≡ ways.convert_over way (ways.source_of (grid_in image.now)) fix.point fix.height }
{
    let a = convert_bounded(way, image, fix);
    if image.layout.unbounded && is_past_edge(a) {
        return convert_anywhere(way, image, fix);
    }
    a
}

// Has a conversion ended with 8, 10 or 15, which kind 2 does not give?
fn is_past_edge(a: Result<Converted, Refusal>) -> bool
    ensures { result ≡ past_edge (ways.answer_of a) }
{
    matches!(
        a,
        Err(Refusal::OutsideBounds | Refusal::IterateOutside | Refusal::OffHeightGrid)
    )
}

// A conversion as with bounds: questions 7 and 8, then the way.
#[tactic(auto, using(rules::proofs::Limits::fix_within), unfolding(rules::specs::Ways::convert_over))]
fn convert_bounded(way: Way, image: &FitImage<'_>, fix: Fix) -> Result<Converted, Refusal>
    ensures { ways.answer_of result ≡ ways.convert_over way (ways.bounded_source (grid_in image.now)) fix.point fix.height }
{
    if !fix_passes(fix, height_limit(way)) {
        return Err(Refusal::FixLimits);
    }
    if !in_bounds(image.layout.latitude.geometry, fix.point) {
        return Err(Refusal::OutsideBounds);
    }
    match way {
        Way::Out => out_from(image, fix),
        Way::Back => back_from(image, fix),
    }
}

// A way's limit on heights.
fn height_limit(way: Way) -> u64
    ensures { result ≡ ways.height_limit way }
{
    match way {
        Way::Out => OUT_HEIGHT_LIMIT,
        Way::Back => BACK_HEIGHT_LIMIT,
    }
}

// Question 7, with the way's limit on heights.
#[tactic(auto, using(integers::specs::Machine::reads_back), unfolding(rules::specs::Ways::question7))]
fn fix_passes(fix: Fix, limit: u64) -> bool
    ensures { result ≡ ways.question7 limit fix.point fix.height }
{
    three_within(
        fix.point.latitude,
        LATITUDE_LIMIT,
        fix.point.longitude,
        LONGITUDE_LIMIT,
        fix.height,
        limit,
    )
}
