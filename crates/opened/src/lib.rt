// An opened image: a record that refers to the lent bytes and holds the layout of its values, with few thin functions over it.
// Each leaves the work to a function on the slice and the layout. What it promises is what that function does, read at the record's
// fields, whatever the function: `over` and `through` say so once, over any contract.
#![tactic(auto)]

ghost use Rattle.std.specs.Prelude.{◌≡◌};
ghost use Rattle.rules.specs.Answers.{outcome_of};
ghost use Rattle.rules.specs.Ways.{way_out, answer_of};
ghost use Rattle.rules.specs.Limits.{OpenFor};
ghost use Rattle.opened.specs.Over.{Opens, IsLookup, IsOut, opened, quasi_geoid_height};

use image::FitImage;
use rules::{Converted, Fix, Layout, Point, Refusal, Way};
use source::{is_inside, look_up_height};
use ways::convert_over;

// The lent bytes of an image, and the layout of its values.
#[derive(Clone, Copy)]
pub struct OpenedImage<'a> {
    pub bytes: &'a [u8],
    pub layout: Layout,
}

// The record of these bytes and this layout.
pub fn opened_image<'a>(bytes: &'a [u8], layout: Layout) -> OpenedImage<'a>
    ensures { (result.bytes ≡ bytes.entry) × (result.layout ≡ layout) }
{
    OpenedImage { bytes, layout }
}

// The record of any bytes: questions 1 to 6.
pub fn open<'a>(bytes: &'a [u8]) -> Result<OpenedImage<'a>, Refusal>
    ensures { outcome_of result ≡ opened bytes.entry }
{
    let fit = image::open(bytes)?;
    Ok(opened_image(bytes, fit.layout))
}

// A function of the bytes, the layout and one thing more, over the record: whatever it asks of them and tells of its result holds of the
// record's fields.
pub fn over<'a, X, R, F: FnOnce(&[u8], Layout, X) -> R>(image: OpenedImage<'a>, x: X, f: F) -> R
    requires { F.pre f image.bytes image.layout x }
    ensures { F.post f image.entry.bytes image.entry.layout x result }
{
    f(image.bytes, image.layout, x)
}

// The record made of the bytes and the layout and handed on to a function over the record: whatever that asks of the record and tells of
// its result holds of the two.
pub fn through<X, R, F: FnOnce(OpenedImage<'_>, X) -> R>(
    bytes: &[u8],
    layout: Layout,
    x: X,
    f: F,
) -> R
    requires { F.pre f (record { bytes = bytes; layout = layout }) x }
    ensures { F.post f (record { bytes = bytes.entry; layout = layout }) x result }
{
    f(opened_image(bytes, layout), x)
}

// The lookup of the quasi-geoid height at a point in its bounds, if it has any.
pub fn look_up_in<'a>(image: OpenedImage<'a>, p: Point) -> Result<Option<i64>, Refusal>
    requires { OpenFor image.bytes.now image.layout p }
    ensures { IsLookup image.entry.bytes.now image.entry.layout p result }
{
    over(image, p, look_up_fit)
}

// The same on the slice and the layout, which make a fit image.
fn look_up_fit(bytes: &[u8], layout: Layout, p: Point) -> Result<Option<i64>, Refusal>
    requires { OpenFor bytes.now layout p }
    ensures { IsLookup bytes.now layout p result }
{
    look_up_height(&FitImage { bytes, layout }, p)
}

// The way out of a fix over it.
pub fn out_over_image<'a>(image: OpenedImage<'a>, f: Fix) -> Result<Converted, Refusal>
    requires { Opens image.bytes.now image.layout f }
    ensures { IsOut image.entry.bytes.now image.entry.layout f result }
{
    over(image, f, out_fit)
}

// The same on the slice and the layout.
fn out_fit(bytes: &[u8], layout: Layout, f: Fix) -> Result<Converted, Refusal>
    requires { Opens bytes.now layout f }
    ensures { IsOut bytes.now layout f result }
{
    convert_over(Way::Out, &FitImage { bytes, layout }, f)
}

// The record made and handed on, for the way out and for the lookup.
fn out_through(bytes: &[u8], layout: Layout, f: Fix) -> Result<Converted, Refusal>
    requires { Opens bytes.now layout f }
    ensures { IsOut bytes.now layout f result }
{
    through(bytes, layout, f, out_over_image)
}

fn look_up_through(bytes: &[u8], layout: Layout, p: Point) -> Result<Option<i64>, Refusal>
    requires { OpenFor bytes.now layout p }
    ensures { IsLookup bytes.now layout p result }
{
    through(bytes, layout, p, look_up_in)
}

// The way out through an opened image, for every image, point and height: questions 1 to 6 first.
pub fn way_out(bytes: &[u8], fix: Fix) -> Result<Converted, Refusal>
    ensures { answer_of result ≡ way_out bytes.now fix.point fix.height }
{
    let layout = open(bytes)?.layout;
    out_through(bytes, layout, fix)
}

// The quasi-geoid height through an opened image, for every image and point: questions 1 to 6 first, then 8, then the lookup.
pub fn quasi_geoid_height(bytes: &[u8], q: Point) -> Result<Option<i64>, Refusal>
    ensures { outcome_of result ≡ quasi_geoid_height bytes.now q }
{
    let layout = open(bytes)?.layout;
    if !is_inside(layout, q) {
        return Err(Refusal::OutsideBounds);
    }
    look_up_through(bytes, layout, q)
}
