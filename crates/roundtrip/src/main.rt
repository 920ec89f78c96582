// The program roundtrip: prints for one fix, over the grid image on standard input, the way out and the quasi-geoid height where it ends,
// both through an opened image, and then the whole trip: grid check, out and back.
#![tactic(auto)]

use decimal::read_decimal;
use numbers::distance;
use opened::{quasi_geoid_height, way_out};
use rules::{Converted, Fix, NO_HEIGHT, Point, Position, Returned};
use std::env::FillError;
use std::io;
use std::rt::Env;
use streams::{print_field, print_refusal, read_image};
use trip::round_trip;

fn main(rt: HostRuntime) -> io::Result<()> {
    match read_arguments(&rt) {
        Some(fix) => answer_fix(&rt, fix),
        None => println!(rt; "usage: roundtrip LATITUDE LONGITUDE HEIGHT < IMAGE"),
    }
}

// The fix of the three arguments behind the program's name.
fn read_arguments(rt: &impl Env) -> Option<Fix> {
    if has_argument(rt, 4) {
        return None;
    }
    let point = Point {
        latitude: read_argument(rt, 1)?,
        longitude: read_argument(rt, 2)?,
    };
    let height = read_argument(rt, 3)?;
    Some(Fix { point, height })
}

// Is there an argument at this place? An empty one counts.
fn has_argument(rt: &impl Env, i: usize) -> bool {
    let mut text = [0u8; 1];
    !matches!(rt.arg(i, &mut text), Err(FillError::NotPresent))
}

// The number of one argument. One that is missing, or longer than the buffer's 4,096 bytes, has none.
fn read_argument(rt: &impl Env, i: usize) -> Option<i64> {
    let mut text = [0u8; 4096];
    let size = rt.arg(i, &mut text).ok()?;
    read_decimal(&text[..size])
}

// All answers for the fix, over the image on standard input.
fn answer_fix(rt: &(impl Input + Print), fix: Fix) -> io::Result<()> {
    let mut image = [0u8; 65536];
    let Ok(size) = read_image(&mut rt.reader(), &mut image) else {
        return println!(rt; "too long");
    };
    report_out(rt, &image[..size], fix)?;
    report_trip(rt, &image[..size], fix)
}

// `out` with the point, the height, the count and without a height 100, and the line of the quasi-geoid height; or `out refused` and the
// number.
fn report_out(rt: &impl Print, image: &[u8], fix: Fix) -> io::Result<()> {
    print!(rt; "out")?;
    match way_out(image, fix) {
        Ok(Converted::WithHeight(a)) => {
            print_position(rt, a)?;
            println!(rt; " {}", a.count)?;
            report_quasi_geoid(rt, image, a)
        }
        Ok(Converted::WithoutHeight(a)) => {
            print_position(rt, a)?;
            println!(rt; " {} {NO_HEIGHT}", a.count)?;
            report_quasi_geoid(rt, image, a)
        }
        Err(r) => {
            print!(rt; " ")?;
            print_refusal(rt, r)
        }
    }
}

// `quasi-geoid` and its height, or `none`, at the position that the way out answered, where it is never refused.
fn report_quasi_geoid(rt: &impl Print, image: &[u8], a: Position) -> io::Result<()> {
    let q = Point {
        latitude: a.latitude,
        longitude: a.longitude,
    };
    print!(rt; "quasi-geoid ")?;
    match quasi_geoid_height(image, q) {
        Ok(Some(z)) => println!(rt; "{z}"),
        Ok(None) => println!(rt; "none"),
        Err(r) => print_refusal(rt, r),
    }
}

// `back` and what returned, and `distance` and how far that is from the fix, in height too where both answers have one; or `trip refused`
// and the number.
fn report_trip(rt: &impl Print, image: &[u8], fix: Fix) -> io::Result<()> {
    match round_trip(image, fix) {
        Ok(Returned::WithHeights(t)) => {
            print!(rt; "back")?;
            print_position(rt, t.returned)?;
            print_distances(rt, t.returned, fix.point)?;
            println!(rt; " {}", distance(t.returned.height, fix.height))
        }
        Ok(Returned::WithoutHeights(t)) => {
            print!(rt; "back")?;
            print_position(rt, t.returned)?;
            print_field(rt, NO_HEIGHT)?;
            print_distances(rt, t.returned, fix.point)?;
            println!(rt)
        }
        Err(r) => {
            print!(rt; "trip ")?;
            print_refusal(rt, r)
        }
    }
}

// The line `distance`, with how far each angle is from the fix's.
fn print_distances(rt: &impl Print, returned: Position, p: Point) -> io::Result<()> {
    print!(rt; "\ndistance")?;
    print_field(rt, distance(returned.latitude, p.latitude))?;
    print_field(rt, distance(returned.longitude, p.longitude))
}

// A position's latitude, longitude and height.
fn print_position(rt: &impl Print, a: Position) -> io::Result<()> {
    print!(rt; " {} {} {}", a.latitude, a.longitude, a.height)
}
