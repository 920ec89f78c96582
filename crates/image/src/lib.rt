// The opening of an image: its trailer is read and judged, and the layout of its values is answered.
#![tactic(auto)]

mod fit;

ghost use Rattle.std.specs.Prelude.{◌≡◌, IfOk, true, ◌≤◌, length};
ghost use Rattle.rules.specs.Answers.{values};
ghost use Rattle.rules.specs.Image.{two_grid_trailer_of, is_nested, is_unbounded, is_in_planes, correction_stride, to_longitudes};
ghost use Rattle.rules.specs.Image.{height_back_of, correction_back_of};
ghost use Rattle.rules.specs.Image.{layout_of, two_grid_layout_of, nested_layout_of, layout_for};
ghost use Rattle.rules.specs.Questions.{question6, backs_pass, all_backs_pass, opening, opening_two, opening_nested};
ghost use Rattle.verdicts.specs.Verdict.{verdict_of};
ghost use Rattle.image.specs.Fit.{layout_found, layout_by};

pub use fit::FitImage;
use rules::{GridTrailer, Layout, Plane, Refusal, Trailer, TwoGridTrailer};
use trailers::{read_dense_trailer, read_edition, read_trailer, read_two_grid_trailer};
use verdicts::{judged, judged_nested, judged_two};

// Questions 1 to 6, and 20, of any image: the fit image, or the refusal. It is compiled into its callers, as all that makes the layout is:
// the compiler clears and copies so large a result by calls of C's functions, and the library needs none (include/marker.h). The questions
// are a call, which hands back little.
#[inline(always)]
pub fn open(image: &[u8]) -> Result<FitImage<'_>, Refusal>
    ensures layout { layout_found result ≡ opening image.now }
    ensures bytes { IfOk result (λ fit. fit.bytes ≡ image.entry) }
{
    let separate = is_separate(image)?;
    let layout = layout_of(image, separate);
    Ok(FitImage {
        bytes: image,
        layout,
    })
}

// The same questions: whether the heights stand on a separate grid, by which the layout is read, or the refusal. It is a call, so that the
// trailers that are judged take none of the callers' stack.
#[inline(never)]
fn is_separate(image: &[u8]) -> Result<bool, Refusal>
    ensures { layout_by image.now result ≡ opening image.now }
{
    if image.len() < 40 {
        return Err(Refusal::ImageLength);
    }
    if read_edition(image) == 2 {
        ask_two(image)?;
        return Ok(true);
    }
    judged(read_trailer(image), image.len() as u64)?;
    Ok(false)
}

// The same of edition 2.
fn ask_two(image: &[u8]) -> Result<(), Refusal>
    ensures { verdict_of (layout_for image.now true) result ≡ opening_two image.now }
{
    if image.len() < 80 {
        return Err(Refusal::ImageLength);
    }
    let t = read_two_grid_trailer(image);
    if is_nested(t) {
        return ask_nested(image, t);
    }
    judged_two(t, image.len() as u64)
}

// The same of kind 1, by the trailer t. The length is at least 80, so the first difference fits where the sum with any back might not.
fn ask_nested(image: &[u8], t: TwoGridTrailer) -> Result<(), Refusal>
    requires { (80 ≤ length image.now) × (t ≡ two_grid_trailer_of image.now) × (is_nested t ≡ true) }
    ensures { verdict_of (layout_for image.now true) result ≡ opening_nested image.now }
{
    let size = image.len() as u64;
    if size - 36 < t.corrections.back {
        return Err(Refusal::ImageLength);
    }
    judged_nested(read_dense_trailer(image, t.corrections.back), t, size)
}

// The layout of an image that opened, read from its trailer once more: handed on by the questions, its many numbers would take longer.
#[inline(always)]
pub fn layout_of(image: &[u8], separate: bool) -> Layout
    requires { opening image.now ≡ values (layout_for image.now separate) }
    ensures { result ≡ layout_for image.now separate }
{
    if separate {
        let t = read_two_grid_trailer(image);
        if is_nested(t) {
            return nested_layout(
                read_dense_trailer(image, t.corrections.back),
                t,
                image.len() as u64,
            );
        }
        return two_grid_layout(t, image.len() as u64);
    }
    nodes_layout(read_trailer(image), image.len() as u64)
}

// Edition 1's layout, in an image of so many bytes: a node is latitude correction, longitude correction and quasi-geoid height, of four
// bytes each.
#[inline(always)]
fn nodes_layout(t: Trailer, size: u64) -> Layout
    requires { question6 t size ≡ true }
    ensures { result ≡ layout_of size t.geometry }
{
    let latitude = Plane {
        geometry: t.geometry,
        first: size - t.back,
        stride: 12,
    };
    Layout {
        separate: false,
        nested: false,
        unbounded: false,
        latitude,
        longitude: Plane {
            first: latitude.first + 4,
            ..latitude
        },
        height: Plane {
            first: latitude.first + 8,
            ..latitude
        },
        dense: latitude,
    }
}

// Edition 2's: its correction nodes lie by its kind, and a height has 4 bytes. By its kind it is unbounded.
#[inline(always)]
fn two_grid_layout(t: TwoGridTrailer, size: u64) -> Layout
    requires { backs_pass t size ≡ true }
    ensures { result ≡ two_grid_layout_of (is_in_planes t) (is_unbounded t) size t.corrections.geometry t.heights.geometry }
{
    let latitude = Plane {
        geometry: t.corrections.geometry,
        first: size - t.corrections.back,
        stride: correction_stride(t),
    };
    Layout {
        separate: true,
        nested: false,
        unbounded: is_unbounded(t),
        latitude,
        longitude: Plane {
            first: latitude.first + to_longitudes(t),
            ..latitude
        },
        height: Plane {
            geometry: t.heights.geometry,
            first: size - t.heights.back,
            stride: 4,
        },
        dense: latitude,
    }
}

// Kind 1's: the same, with the plane of the dense nodes.
#[inline(always)]
fn nested_layout(d: GridTrailer, t: TwoGridTrailer, size: u64) -> Layout
    requires { (all_backs_pass d t size ≡ true) × (is_nested t ≡ true) }
    ensures { result ≡ nested_layout_of size d.geometry t.corrections.geometry t.heights.geometry }
{
    Layout {
        nested: true,
        dense: Plane {
            geometry: d.geometry,
            first: size - d.back,
            stride: 8,
        },
        ..two_grid_layout(t, size)
    }
}

// From one latitude correction to the next it is a node of 8 bytes; in kind 3, 4 bytes.
fn correction_stride(t: TwoGridTrailer) -> u64
    ensures { result ≡ correction_stride (is_in_planes t) }
{
    if is_in_planes(t) { 4 } else { 8 }
}

// The first longitude correction begins 4 bytes after the first latitude correction; in kind 3 after all of these, which are half of the
// bytes from the correction nodes to the height nodes.
fn to_longitudes(t: TwoGridTrailer) -> u64
    requires { let h = t.heights in
        (t.corrections.back ≡ correction_back_of t.corrections.geometry h.geometry) × (h.back ≡ height_back_of h.geometry) }
    ensures { result ≡ to_longitudes (is_in_planes t) t.corrections.geometry }
{
    if is_in_planes(t) {
        (t.corrections.back - t.heights.back) / 2
    } else {
        4
    }
}

// The trailer's kind stays the number that it is: it may be no kind's, and the rules (rules/specs/Image.antt) speak of that number.
// Kind 1 has a dense grid.
fn is_nested(t: TwoGridTrailer) -> bool
    ensures { result ≡ is_nested t }
{
    t.kind == 1
}

// Kind 2 answers points outside the bounds too.
fn is_unbounded(t: TwoGridTrailer) -> bool
    ensures { result ≡ is_unbounded t }
{
    t.kind == 2
}

// Kind 3 holds all latitude corrections, then all longitude corrections.
fn is_in_planes(t: TwoGridTrailer) -> bool
    ensures { result ≡ is_in_planes t }
{
    t.kind == 3
}
