// The return promise on running code: grid check, way out and way back of one fix, in turn.
#![tactic(auto)]

ghost use Rattle.std.specs.Prelude.{◌≡◌};
ghost use Rattle.rules.specs.Trip as rule;
ghost use Rattle.trip.specs.Back.{same_number};

use rules::{Converted, Fix, Point, Position, Refusal, Returned, Trip, Way};
use slopes::grid_check;
use ways::convert;

// A trip over any image. Where the image passes the check, the fix is at least 10,000,000 nd inside and its height in limits, the trip
// returns, as the return promise says: within 1 nd, with a dense grid within 3 nd, and with the very height. Where an image of kind 2
// passes the check, the trip of every fix within question 7's limits returns within 1 nd, with its height or without one.
pub fn round_trip(image: &[u8], fix: Fix) -> Result<Returned, Refusal>
    ensures values { rule.trip_of result ≡ rule.trip image.now fix.point fix.height }
    ensures promise { rule.KeepsWhere image.now fix.point fix.height result }
    ensures anywhere { rule.KeepsUnbounded image.now fix.point fix.height result }
{
    grid_check(image)?;
    out_and_back(image, fix)
}

// The trip without the check.
fn out_and_back(image: &[u8], fix: Fix) -> Result<Returned, Refusal>
    ensures { rule.trip_of result ≡ rule.out_then_back image.now fix.point fix.height }
{
    match convert(Way::Out, image, fix)? {
        Converted::WithHeight(a) | Converted::WithoutHeight(a) => taken_back(image, a),
    }
}

// The way back of what the way out answered. It has a height where the way out's answer has: both look it up at the same point.
fn taken_back(image: &[u8], outward: Position) -> Result<Returned, Refusal>
    ensures { rule.trip_of result ≡ same_number image.now outward }
{
    let point = Point {
        latitude: outward.latitude,
        longitude: outward.longitude,
    };
    let fix = Fix {
        point,
        height: outward.height,
    };
    Ok(match convert(Way::Back, image, fix)? {
        Converted::WithHeight(returned) => Returned::WithHeights(Trip { outward, returned }),
        Converted::WithoutHeight(returned) => Returned::WithoutHeights(Trip { outward, returned }),
    })
}
