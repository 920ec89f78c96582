// Lists of fixes: one call converts all its fixes the same way, out or back, into the answer list that is lent to it.
#![tactic(auto)]

ghost use Rattle.std.specs.Prelude.{true, ◌++◌, ◌≡◌, ◌+◌, ◌*◌, ◌≤◌, ◌<◌, length, drop};
ghost use Rattle.rules.specs.Answers.{outcome_of, status_of, after};
ghost use Rattle.rules.specs.Ways.{source_of, convert_over, answer_of};
ghost use Rattle.rules.specs.Lists.{five_of, answers_of, question14, convert_list, list_out, list_back, after_out, after_back};
ghost use Rattle.image.specs.Fit.{grid_in};
ghost use Rattle.fixes.specs.Fix.{numbers_of, fix_of, CountAtMostFive};

use image::{FitImage, open};
use refusals::refusal_number;
use rules::{Converted, Fix, NO_HEIGHT, Point, Position, Refusal, Way};
use ways::convert_over;

// All fixes out: every answer is written, or the question refuses that left the answer list unchanged.
pub fn list_out(image: &[u8], fixes: &[i64], answers: &mut [i64]) -> Result<(), Refusal>
    ensures number { status_of (outcome_of result) ≡ status_of (list_out image.now fixes.now answers.old) }
    ensures answers { answers.new ≡ after_out image.now fixes.now answers.old }
{
    convert_list(Way::Out, image, fixes, answers)
}

// All fixes back, likewise.
pub fn list_back(image: &[u8], fixes: &[i64], answers: &mut [i64]) -> Result<(), Refusal>
    ensures number { status_of (outcome_of result) ≡ status_of (list_back image.now fixes.now answers.old) }
    ensures answers { answers.new ≡ after_back image.now fixes.now answers.old }
{
    convert_list(Way::Back, image, fixes, answers)
}

// Questions 1 to 6, then 14, then each fix in turn. The image is opened as a part of itself, from its start to its end: lent on as it is,
// the compiler copies where it begins and its length at once, which a processor that has only just stored both, one by one, waits for.
fn convert_list(way: Way, image: &[u8], fixes: &[i64], answers: &mut [i64]) -> Result<(), Refusal>
    ensures number { status_of (outcome_of result) ≡ status_of (convert_list way image.now fixes.now answers.old) }
    ensures answers { answers.new
        ≡ after (convert_list way image.now fixes.now answers.old) answers.old }
{
    let image = open(&image[..image.len()])?;
    if !lengths_pass(fixes, answers) {
        return Err(Refusal::ListLengths);
    }
    convert_all(way, &image, fixes, answers);
    Ok(())
}

// Question 14.
#[tactic(auto, unfolding(rules::specs::Lists::question14))]
fn lengths_pass(fixes: &[i64], answers: &[i64]) -> bool
    ensures { result ≡ question14 (length fixes.now) (length answers.now) }
{
    let n = fixes.len() / 3;
    fixes.len() == 3 * n && answers.len() == 5 * n
}

// Converts every fix. The rest of the answer list, from 5 × k onward, is lent on to the writer of the answer to fix k.
fn convert_all(way: Way, image: &FitImage<'_>, fixes: &[i64], answers: &mut [i64])
    requires { question14 (length fixes.now) (length answers.old) ≡ true }
    ensures { answers.new ≡ answers_of (convert_over way (source_of (grid_in image.now))) fixes.now }
{
    let (threes, _) = fixes.as_chunks::<3>();
    for (k, three) in threes.iter().enumerate() {
        let answer = convert_over(way, image, fix_of(*three));
        write_answer(&mut answers[5 * k..], answer);
    }
}

// The fix of three numbers.
fn fix_of(three: [i64; 3]) -> Fix
    ensures { result ≡ fix_of three }
{
    let [latitude, longitude, height] = three;
    let point = Point {
        latitude,
        longitude,
    };
    Fix { point, height }
}

// Writes an answer at the front of the part that is lent; what follows it is unchanged.
fn write_answer(rest: &mut [i64], answer: Result<Converted, Refusal>)
    requires { (5 ≤ length rest.old) × CountAtMostFive (answer_of answer) }
    ensures { rest.new ≡ five_of (answer_of answer) ++ drop 5 rest.old }
{
    rest[..5].copy_from_slice(&five_of(answer));
}

// The five numbers of an answer: its values and 0, or without a height 100; or four zeros and the number.
fn five_of(answer: Result<Converted, Refusal>) -> [i64; 5]
    requires { CountAtMostFive (answer_of answer) }
    ensures { result ≡ five_of (answer_of answer) }
{
    match answer {
        Ok(Converted::WithHeight(p)) => numbers_of(p, 0),
        Ok(Converted::WithoutHeight(p)) => numbers_of(p, NO_HEIGHT as i64),
        Err(r) => [0, 0, 0, 0, refusal_number(r)],
    }
}

// The same of a position and its number.
fn numbers_of(p: Position, number: i64) -> [i64; 5]
    requires { p.count ≤ 5 }
    ensures { result ≡ numbers_of p number }
{
    [p.latitude, p.longitude, p.height, p.count as i64, number]
}
