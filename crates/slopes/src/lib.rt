// The grid check: questions 1 to 6; question 9 over all nodes, questions 22, 12 and 21.
#![tactic(auto)]

ghost use Rattle.std.specs.Prelude.{true, ◌&&◌, ◌≡◌};
ghost use Rattle.rules.specs.Answers.{values, outcome_of};
ghost use Rattle.rules.specs.Limits.{GeometryPasses};
ghost use Rattle.rules.specs.Check.{slope_passes, question22, where_unbounded, check, grid_check};
ghost use Rattle.image.specs.Fit.{grid_in};
ghost use Rattle.walks.specs.Rows.{grid_walk};
ghost use Rattle.slopes.specs.Slopes.{slopes_pass, both_slopes_pass, LayoutPasses, step_most, StepsWithin, FindingsWithin};

use border::{border_agrees, border_is_zero};
use image::{FitImage, open};
use nodes::beside;
use rules::{Findings, Geometry, Layout, Refusal, Steps};
use steps::CorrectionSteps;
use walks::{walk_corrections, walk_planes};

// The grid check of any image.
pub fn grid_check(image: &[u8]) -> Result<Findings, Refusal>
    ensures { outcome_of result ≡ grid_check image.now }
{
    let image = open(image)?;
    check_planes(&image)
}

// Questions 9, 22, 12 and 21 of a fit image.
fn check_planes(image: &FitImage<'_>) -> Result<Findings, Refusal>
    ensures { outcome_of result ≡ check (grid_in image.now) }
{
    let found = walk_planes(image).ok_or(Refusal::NodeLimits)?;
    if image.layout.nested {
        return check_nested(image, found);
    }
    if !border_passes(image) {
        return Err(Refusal::BorderCorrection);
    }
    if slopes_pass(image.layout, found) {
        Ok(found)
    } else {
        Err(Refusal::Slope)
    }
}

// The same with a dense grid, after question 9 of the coarse nodes and of the heights, which left these findings.
fn check_nested(image: &FitImage<'_>, coarse: Findings) -> Result<Findings, Refusal>
    requires { (image.now.layout.nested ≡ true) × (grid_walk (grid_in image.now) ≡ values coarse) }
    ensures { outcome_of result ≡ check (grid_in image.now) }
{
    let l = image.layout;
    let longitude = beside(image.bytes.len() as u64, l.dense);
    let dense = walk_corrections(image.bytes, l.dense, longitude).ok_or(Refusal::NodeLimits)?;
    if !nested_slopes_pass(l, coarse, dense) {
        return Err(Refusal::Slope);
    }
    if !border_agrees(image) {
        return Err(Refusal::DenseBorder);
    }
    Ok(coarse)
}

// Question 22, which is put to kind 2 alone.
fn border_passes(image: &FitImage<'_>) -> bool
    ensures { result ≡ where_unbounded (grid_in image.now) (question22 (grid_in image.now)) }
{
    !image.layout.unbounded || border_is_zero(image)
}

// Question 12 with a dense grid: of the three values, then of the dense corrections.
fn nested_slopes_pass(l: Layout, coarse: Findings, dense: CorrectionSteps) -> bool
    requires { LayoutPasses l × GeometryPasses l.dense.geometry × FindingsWithin step_most coarse
        × StepsWithin step_most dense.latitude × StepsWithin step_most dense.longitude }
    ensures { result ≡ (slopes_pass l coarse && both_slopes_pass l.dense.geometry dense) }
{
    slopes_pass(l, coarse) && dense_slopes_pass(l.dense.geometry, dense)
}

// Question 12, of steps that question 9 has left small, so that the products fit.
#[tactic(auto, unfolding(crate::specs::Slopes::slopes_pass))]
fn slopes_pass(l: Layout, f: Findings) -> bool
    requires { LayoutPasses l × FindingsWithin step_most f }
    ensures { result ≡ slopes_pass l f }
{
    slope_passes(l.latitude.geometry, f.latitude)
        && slope_passes(l.longitude.geometry, f.longitude)
        && slope_passes(l.height.geometry, f.height)
}

// The same of one value: its steps per spacing come to at most a hundredth.
#[tactic(auto, unfolding(rules::specs::Check::slope_passes))]
fn slope_passes(g: Geometry, s: Steps) -> bool
    requires { GeometryPasses g × StepsWithin step_most s }
    ensures { result ≡ slope_passes g s }
{
    let north = g.latitude.spacing;
    let east = g.longitude.spacing;
    100 * (s.northward * east + s.eastward * north) <= north * east
}

// Question 12 of the dense grid's two corrections.
#[tactic(auto, unfolding(crate::specs::Slopes::both_slopes_pass))]
fn dense_slopes_pass(g: Geometry, s: CorrectionSteps) -> bool
    requires { GeometryPasses g × StepsWithin step_most s.latitude × StepsWithin step_most s.longitude }
    ensures { result ≡ both_slopes_pass g s }
{
    slope_passes(g, s.latitude) && slope_passes(g, s.longitude)
}
