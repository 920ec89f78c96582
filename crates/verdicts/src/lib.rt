// Questions 2 to 6 put to a trailer and an image's length, of either edition, and question 20.
#![tactic(auto)]

ghost use Rattle.std.specs.Prelude.{◌≡◌, true, ◌*◌, ◌≤◌};
ghost use Rattle.rules.specs.Units.{count_most};
ghost use Rattle.rules.specs.Answers.{values, number_of, ask, outcome_of};
ghost use Rattle.rules.specs.Image.{rows, columns, is_unbounded, is_in_planes, layout_of, two_grid_layout_of, nested_layout_of};
ghost use Rattle.rules.specs.Questions.{question2, question3, question6, judge};
ghost use Rattle.rules.specs.Questions.{kind_known, of_both, back_passes, backs_pass, judge_two, of_all, all_backs_pass, judge_nested};
ghost use Rattle.verdicts.specs.Verdict.{verdict_of, judge_grids};

use geometry::{bounds_pass, counts_pass, is_aligned, spacings_pass};
use rules::{Geometry, GridTrailer, Refusal, Trailer, TwoGridTrailer};

// Edition 1's questions 2 to 6, of a trailer and the image's length.
pub fn judged(t: Trailer, size: u64) -> Result<(), Refusal>
    ensures { verdict_of (layout_of size t.geometry) result ≡ judge t size }
{
    ask(t.edition == 1, Refusal::Edition)?;
    grids_judged(&[t.geometry])?;
    ask(bytes_pass(t, size), Refusal::NodeBytes)
}

// Edition 2's questions 2 to 6, each of the correction grid and then of the height grid.
pub fn judged_two(t: TwoGridTrailer, size: u64) -> Result<(), Refusal>
    ensures { verdict_of (two_grid_layout_of (is_in_planes t) (is_unbounded t) size t.corrections.geometry t.heights.geometry) result
        ≡ judge_two t size }
{
    ask(kind_passes(t), Refusal::Edition)?;
    grids_judged(&[t.corrections.geometry, t.heights.geometry])?;
    ask(backs_pass(t, size), Refusal::NodeBytes)
}

// Kind 1's questions 3 to 6, each of the correction grid, of the height grid and of the dense grid d, then 20.
pub fn judged_nested(d: GridTrailer, t: TwoGridTrailer, size: u64) -> Result<(), Refusal>
    ensures { verdict_of (nested_layout_of size d.geometry t.corrections.geometry t.heights.geometry) result
        ≡ judge_nested d t size }
{
    grids_judged(&[t.corrections.geometry, t.heights.geometry, d.geometry])?;
    ask(all_backs_pass(d, t, size), Refusal::NodeBytes)?;
    ask(
        is_aligned(t.corrections.geometry, d.geometry),
        Refusal::DenseAlignment,
    )
}

// Questions 3 to 5, each of all grids.
#[tactic(auto, unfolding(crate::specs::Verdict::judge_grids))]
fn grids_judged(grids: &[Geometry]) -> Result<(), Refusal>
    ensures { outcome_of result ≡ judge_grids grids.now }
{
    ask(grids.iter().all(|g| counts_pass(*g)), Refusal::NodeCount)?;
    ask(grids.iter().all(|g| spacings_pass(*g)), Refusal::Spacing)?;
    ask(grids.iter().all(|g| bounds_pass(*g)), Refusal::GridBounds)
}

// A question: where its answer is no, its refusal.
fn ask(passes: bool, refusal: Refusal) -> Result<(), Refusal>
    ensures { outcome_of result ≡ ask passes (number_of refusal) (values tt) }
{
    if passes { Ok(()) } else { Err(refusal) }
}

// Question 2 of kinds 0, 2 and 3.
fn kind_passes(t: TwoGridTrailer) -> bool
    ensures { result ≡ kind_known t }
{
    matches!(t.kind, 0 | 2 | 3)
}

// Question 6, of an image of so many bytes.
#[tactic(auto, unfolding(rules::specs::Questions::question6))]
fn bytes_pass(t: Trailer, size: u64) -> bool
    requires { question3 t.geometry ≡ true }
    ensures { result ≡ question6 t size }
{
    back_passes(t.back, bytes_of(12, t.geometry) + 40, size)
}

// The bytes of all nodes, of which each has `width`.
fn bytes_of(width: u64, g: Geometry) -> u64
    requires { (width ≤ 12) × (question3 g ≡ true) }
    ensures { (result ≡ width * rows g * columns g) × (result ≤ 12 * count_most * count_most) }
{
    width * g.latitude.count * g.longitude.count
}

// A distance back is as wanted, and not above the length.
#[tactic(auto, unfolding(rules::specs::Questions::back_passes))]
fn back_passes(back: u64, wanted: u64, size: u64) -> bool
    ensures { result ≡ back_passes back wanted size }
{
    back == wanted && back <= size
}

// Question 6 of both grids.
#[tactic(auto, unfolding(rules::specs::Questions::backs_pass))]
fn backs_pass(t: TwoGridTrailer, size: u64) -> bool
    requires { of_both question3 t ≡ true }
    ensures { result ≡ backs_pass t size }
{
    let height_back = bytes_of(4, t.heights.geometry) + 80;
    let correction_back = bytes_of(8, t.corrections.geometry) + height_back;
    back_passes(t.corrections.back, correction_back, size)
        && back_passes(t.heights.back, height_back, size)
}

// Question 6 of three grids.
#[tactic(auto, unfolding(rules::specs::Questions::all_backs_pass))]
fn all_backs_pass(d: GridTrailer, t: TwoGridTrailer, size: u64) -> bool
    requires { of_all question3 d t ≡ true }
    ensures { result ≡ all_backs_pass d t size }
{
    backs_pass(t, size)
        && back_passes(
            d.back,
            bytes_of(8, d.geometry) + 36 + t.corrections.back,
            size,
        )
}
