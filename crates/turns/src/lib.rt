// One evaluation of the way out: questions 9 and 10, and the stop rule.
#![tactic(auto)]

ghost use Rattle.std.specs.Prelude.{◌≡◌, true};
ghost use Rattle.rules.specs.Answers.{outcome_of};
ghost use Rattle.rules.specs.Limits.{PointWithin, PointReached, CorrectionWithin};
ghost use Rattle.rules.specs.Lookup.{inside};
ghost use Rattle.rules.specs.Ways as ways;
ghost use Rattle.lookup.specs.Held.{Bounded, Holds};
ghost use Rattle.turns.specs.Turn.{turn_of, evaluation_of};

use geometry::in_bounds;
use lookup::{HeldCell, corrections_in};
use numbers::is_within;
use rules::{Correction, Geometry, Point, Refusal};

// What one evaluation leads to: the point that the stop rule takes, or the point to evaluate next.
#[derive(Clone, Copy)]
pub enum Turn {
    Settled(Point),
    Next(Point),
}

// One evaluation at r, of the way out from p: question 9 for r's cell h, then what p minus the corrections there leads to.
#[tactic(auto, using(crate::proofs::Bounds::within_limits), unfolding(crate::specs::Turn::evaluation_of))]
pub fn evaluation(
    h: HeldCell,
    bounds: Geometry,
    stop: u64,
    p: Point,
    r: Point,
) -> Result<Turn, Refusal>
    requires { (inside bounds p ≡ true) × Holds h bounds r }
    ensures { outcome_of result ≡ evaluation_of h bounds stop p r }
{
    if !h.passes {
        return Err(Refusal::NodeLimits);
    }
    turn_to(bounds, stop, r, moved(p, corrections_in(h, bounds, r)))
}

// Question 10 for q, then the stop rule against r.
#[tactic(auto, using(crate::proofs::Bounds::within_limits), unfolding(crate::specs::Turn::turn_of))]
fn turn_to(bounds: Geometry, stop: u64, r: Point, q: Point) -> Result<Turn, Refusal>
    requires { Bounded bounds r }
    ensures { outcome_of result ≡ turn_of bounds stop r q }
{
    if !in_bounds(bounds, q) {
        return Err(Refusal::IterateOutside);
    }
    if is_settled(stop, q, r) {
        return Ok(Turn::Settled(q));
    }
    Ok(Turn::Next(q))
}

// The stop rule: each angle differs by at most the stop distance.
#[tactic(auto, using(integers::specs::Machine::difference_back), unfolding(rules::specs::Ways::settled))]
pub fn is_settled(stop: u64, q: Point, r: Point) -> bool
    requires { PointReached q × PointReached r }
    ensures { result ≡ ways.settled stop q r }
{
    is_within(q.latitude - r.latitude, stop) && is_within(q.longitude - r.longitude, stop)
}

// A point minus corrections.
#[tactic(auto, using(integers::specs::Machine::difference_back), unfolding(rules::specs::Ways::minus))]
pub fn moved(p: Point, c: Correction) -> Point
    requires { PointWithin p × CorrectionWithin c }
    ensures { result ≡ ways.minus p c }
{
    Point {
        latitude: p.latitude - c.latitude,
        longitude: p.longitude - c.longitude,
    }
}
