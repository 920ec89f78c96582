// The trailers of both editions, read from an image's last bytes, and the geometry of a dense grid.
#![tactic(auto)]

ghost use Rattle.std.specs.Prelude.{◌≡◌, ◌+◌, ◌≤◌, length};
ghost use Rattle.rules.specs.Image.{geometry_at, trailer_of, edition_of, two_grid_trailer_of, dense_trailer_of};

use numbers::{i64_at, u32_at};
use rules::{Axis, Geometry, GridTrailer, Trailer, TwoGridTrailer};

// The edition, the last number in both editions.
#[tactic(auto, unfolding(rules::specs::Image::edition_of))]
pub fn read_edition(image: &[u8]) -> u64
    requires { 4 ≤ length image.now }
    ensures { result ≡ edition_of image.now }
{
    u32_at(image, image.len() - 4)
}

// Edition 1's trailer, the last 40 bytes.
#[tactic(auto, unfolding(rules::specs::Image::trailer_of))]
pub fn read_trailer(image: &[u8]) -> Trailer
    requires { 40 ≤ length image.now }
    ensures { result ≡ trailer_of image.now }
{
    let at = image.len() - 40;
    Trailer {
        geometry: geometry_at(image, at),
        back: u32_at(image, at + 32),
        edition: u32_at(image, at + 36),
    }
}

// Edition 2's trailer, the last 80 bytes.
#[tactic(auto, unfolding(rules::specs::Image::two_grid_trailer_of))]
pub fn read_two_grid_trailer(image: &[u8]) -> TwoGridTrailer
    requires { 80 ≤ length image.now }
    ensures { result ≡ two_grid_trailer_of image.now }
{
    let at = image.len() - 80;
    TwoGridTrailer {
        corrections: GridTrailer {
            geometry: geometry_at(image, at),
            back: u32_at(image, at + 64),
        },
        heights: GridTrailer {
            geometry: geometry_at(image, at + 32),
            back: u32_at(image, at + 68),
        },
        kind: u32_at(image, at + 72),
    }
}

// The geometry and the back of kind 1's dense grid, from the 36 bytes directly before the correction nodes, which lie `correction_back`
// before the image's end.
#[tactic(auto, unfolding(rules::specs::Image::dense_trailer_of))]
pub fn read_dense_trailer(image: &[u8], correction_back: u64) -> GridTrailer
    requires { (36 + correction_back ≤ length image.now) × (correction_back ≡ (two_grid_trailer_of image.now).corrections.back) }
    ensures { result ≡ dense_trailer_of image.now }
{
    let at = image.len() - 36 - correction_back as usize;
    GridTrailer {
        geometry: geometry_at(image, at),
        back: u32_at(image, at + 32),
    }
}

// The 32 bytes of a geometry.
fn geometry_at(image: &[u8], at: usize) -> Geometry
    requires { at + 32 ≤ length image.now }
    ensures { result ≡ geometry_at image.now at }
{
    Geometry {
        latitude: Axis {
            start: i64_at(image, at),
            spacing: u32_at(image, at + 16),
            count: u32_at(image, at + 24),
        },
        longitude: Axis {
            start: i64_at(image, at + 8),
            spacing: u32_at(image, at + 20),
            count: u32_at(image, at + 28),
        },
    }
}
