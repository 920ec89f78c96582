// The overview of an NTv2 .gsb file and the headers of its grids: eleven records each, of which a header becomes a geometry.
#![tactic(auto)]

ghost use Rattle.std.specs.Prelude.{◌≡◌, ◌+◌, ◌≤◌, ◌<◌, nat_abs, length, get_or};
ghost use Rattle.rules.specs.Units.{longitude_limit};
ghost use Rattle.rules.specs.Answers.{ask, values, outcome_of};
ghost use Rattle.rules.specs.Ntv2.{count_at, labels, labelled, overview_passes, latitude_extent, longitude_extent, three_finite};
ghost use Rattle.rules.specs.Ntv2.{grid_header_of, header_passes};
ghost use Rattle.ntv2_headers.specs.Reading.{HasHeader, extent_of, all_finite, axis_read, axis_between, angle_read, geometry_read};

use floats::{nearest, turned};
use geometry::questions_pass;
use numbers::{big_u64_at, i32_at, natural_of, u64_at};
use rules::{Axis, Geometry, LONGITUDE_LIMIT, Refusal, Scale};

// The labels of the overview, then those of a grid's header: eight letters each, the first one highest.
const LABELS: [u64; 22] = [
    0x4E554D5F4F524543, // NUM_OREC
    0x4E554D5F53524543, // NUM_SREC
    0x4E554D5F46494C45, // NUM_FILE
    0x47535F5459504520, // GS_TYPE
    0x56455253494F4E20, // VERSION
    0x53595354454D5F46, // SYSTEM_F
    0x53595354454D5F54, // SYSTEM_T
    0x4D414A4F525F4620, // MAJOR_F
    0x4D494E4F525F4620, // MINOR_F
    0x4D414A4F525F5420, // MAJOR_T
    0x4D494E4F525F5420, // MINOR_T
    0x5355425F4E414D45, // SUB_NAME
    0x504152454E542020, // PARENT
    0x4352454154454420, // CREATED
    0x5550444154454420, // UPDATED
    0x535F4C4154202020, // S_LAT
    0x4E5F4C4154202020, // N_LAT
    0x455F4C4F4E472020, // E_LONG
    0x575F4C4F4E472020, // W_LONG
    0x4C41545F494E4320, // LAT_INC
    0x4C4F4E475F494E43, // LONG_INC
    0x47535F434F554E54, // GS_COUNT
];

const SECONDS_TEXT: u64 = 0x5345434F4E445320;

// The bytes of the overview, and those of a header: eleven records of 16.
pub const HEADER: usize = 176;

// Where the values stand that are read, from the overview's or the header's first byte on: those of NUM_OREC, NUM_SREC, NUM_FILE and
// GS_TYPE, and of a header's SUB_NAME and so on.
const NUM_OREC: usize = 8;

const NUM_SREC: usize = 24;

pub const NUM_FILE: usize = 40;

const GS_TYPE: usize = 56;

pub const SUB_NAME: usize = 8;

pub const PARENT: usize = 24;

const S_LAT: usize = 72;

const N_LAT: usize = 88;

const E_LONG: usize = 104;

const W_LONG: usize = 120;

const LAT_INC: usize = 136;

const LONG_INC: usize = 152;

const GS_COUNT: usize = 168;

// nd from arcseconds.
pub const ARCSECONDS: Scale = Scale {
    over: 2_500_000,
    under: 9,
};

// The overview: its length, its labels, its counts of records, its type, and one grid or two.
#[tactic(auto, unfolding(rules::specs::Ntv2::overview_passes))]
pub fn overview_passes(file: &[u8]) -> bool
    ensures { result ≡ overview_passes file.now }
{
    HEADER <= file.len()
        && labels_match(file, 0)
        && count_at(file, NUM_OREC) == 11
        && count_at(file, NUM_SREC) == 11
        && big_u64_at(file, GS_TYPE) == SECONDS_TEXT
        && (1..=2).contains(&count_at(file, NUM_FILE))
}

// The labels of the first eleven records, each against the table from place `first` on.
fn labels_match(part: &[u8], first: usize) -> bool
    requires { HasHeader part.now × (first + 11 ≤ 22) }
    ensures { result ≡ labelled part.now first }
{
    (0..11).all(|n| big_u64_at(part, 16 * n) == label(first + n))
}

// The label at a place of the table.
fn label(n: usize) -> u64
    requires { n < 22 }
    ensures { result ≡ get_or labels n 0 }
{
    LABELS[n]
}

// A count, of which a negative one becomes 0.
pub fn count_at(file: &[u8], at: usize) -> u64
    requires { at + 4 ≤ length file.now }
    ensures { result ≡ count_at file.now at }
{
    natural_of(i32_at(file, at))
}

// A grid's header: its labels, its geometry and its node count. A number that is beyond 180 degrees fails question 4 or 5.
#[tactic(auto, using(crate::proofs::Header::header_tested, crate::proofs::Header::header_read, crate::proofs::Header::counted, rules::proofs::Files::not_kept))]
pub fn read_header(grid: &[u8]) -> Result<Geometry, Refusal>
    requires { HasHeader grid.now }
    ensures { outcome_of result ≡ ask (header_passes grid.now) 18 (values (grid_header_of grid.now)) }
{
    if !labels_match(grid, 11) {
        return Err(Refusal::Ntv2File);
    }
    let g = read_geometry(grid).ok_or(Refusal::Ntv2File)?;
    if questions_pass(g) && count_at(grid, GS_COUNT) == g.latitude.count * g.longitude.count {
        Ok(g)
    } else {
        Err(Refusal::Ntv2File)
    }
}

// The header's geometry.
fn read_geometry(grid: &[u8]) -> Option<Geometry>
    requires { HasHeader grid.now }
    ensures { result ≡ geometry_read grid.now }
{
    Some(Geometry {
        latitude: read_latitude(grid)?,
        longitude: read_longitude(grid)?,
    })
}

// From S_LAT, the southern bound, to N_LAT, the northern one, by the spacing LAT_INC.
fn read_latitude(grid: &[u8]) -> Option<Axis>
    requires { HasHeader grid.now }
    ensures { result ≡ axis_read (three_finite grid.now 72 88 136) (latitude_extent grid.now) }
{
    read_axis(
        u64_at(grid, S_LAT),
        u64_at(grid, N_LAT),
        u64_at(grid, LAT_INC),
    )
}

// From W_LONG, the western bound, to E_LONG, the eastern one, by the spacing LONG_INC; the signs of both bounds are turned.
fn read_longitude(grid: &[u8]) -> Option<Axis>
    requires { HasHeader grid.now }
    ensures { result ≡ axis_read (three_finite grid.now 120 104 152) (longitude_extent grid.now) }
{
    let west = turned::<f64>(u64_at(grid, W_LONG));
    let east = turned::<f64>(u64_at(grid, E_LONG));
    read_axis(west, east, u64_at(grid, LONG_INC))
}

// An axis by the bits of its bounds and its spacing.
#[tactic(auto, using(crate::proofs::Axes::axis_read_lem), unfolding(crate::specs::Reading::angle_fits))]
fn read_axis(start: u64, end: u64, spacing: u64) -> Option<Axis>
    ensures { result ≡ axis_read (all_finite start end spacing) (extent_of start end spacing) }
{
    let near = read_angle(start)?;
    let far = read_angle(end)?;
    let step = read_angle(spacing)?;
    axis_between(near, far, natural_of(step))
}

// The axis between two bounds in nd, where the spacing divides their difference.
fn axis_between(start: i64, end: i64, spacing: u64) -> Option<Axis>
    requires { (nat_abs start ≤ longitude_limit) × (nat_abs end ≤ longitude_limit) }
    ensures { result ≡ axis_between start end spacing }
{
    let difference = natural_of(end - start);
    if 0 < spacing && difference % spacing == 0 {
        Some(Axis {
            start,
            spacing,
            count: difference / spacing + 1,
        })
    } else {
        None
    }
}

// The f64 of these bits, in arcseconds, to the nearest nd, where it is finite and within 180 degrees of zero.
#[tactic(auto, unfolding(floats::specs::Nearest::nearest_within, crate::specs::Reading::angle_fits, rules::specs::Ntv2::arcseconds))]
fn read_angle(bits: u64) -> Option<i64>
    ensures { result ≡ angle_read bits }
{
    nearest::<f64>(bits, ARCSECONDS, LONGITUDE_LIMIT)
}
