// The numbers of refusals, for the calls that hand out a number.
#![tactic(auto)]

ghost use Rattle.std.specs.Prelude.{◌≡◌, pos};
ghost use Rattle.rules.specs.Answers.{number_of, outcome_of, status_of};

use rules::Refusal;

// A refusal's number.
pub fn refusal_number(r: Refusal) -> i64
    ensures { result ≡ pos (number_of r) }
{
    r as i64
}

// What a call hands out of what it did: 0 where it is done, else the refusal's number.
pub fn status(done: Result<(), Refusal>) -> i64
    ensures { result ≡ status_of (outcome_of done) }
{
    match done {
        Ok(()) => 0,
        Err(r) => refusal_number(r),
    }
}
