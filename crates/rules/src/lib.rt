// The types that document 01's rules speak of, and its limits as the code names them (specs/Units.antt has them for the rules). The rules
// are in specs/, by document 01's sections; there is no function here.
#![tactic(auto)]

// Latitudes and longitudes are within 90 and 180 degrees of zero.
pub const LATITUDE_LIMIT: u64 = 90_000_000_000;

pub const LONGITUDE_LIMIT: u64 = 180_000_000_000;

// Question 3: at most so many rows and columns. Question 4: the largest spacing, in nd.
pub const COUNT_MOST: u64 = 4096;

pub const SPACING_MOST: u64 = 100_000_000;

// Question 7: the height of a fix going out and going back, in units.
pub const OUT_HEIGHT_LIMIT: u64 = 100_000_000;

pub const BACK_HEIGHT_LIMIT: u64 = 110_000_000;

// Question 9: a correction in nd, a quasi-geoid height in units.
pub const CORRECTION_LIMIT: u64 = 10_000_000;

pub const QUASI_GEOID_LIMIT: u64 = 1_000_000;

// The way out: the stop rule's distance in nd, with a dense grid the wider one, and the most evaluations.
pub const STOP_DISTANCE: u64 = 1;

pub const DENSE_STOP_DISTANCE: u64 = 3;

pub const MOST_EVALUATIONS: u64 = 5;

// The number of an answer without a height.
pub const NO_HEIGHT: u64 = 100;

// One axis of a grid: the southern or western bound in nd, the spacing in nd, and the count of rows or columns.
#[derive(Clone, Copy)]
pub struct Axis {
    pub start: i64,
    pub spacing: u64,
    pub count: u64,
}

// Where the nodes of a grid lie: rows along the latitude, columns along the longitude.
#[derive(Clone, Copy)]
pub struct Geometry {
    pub latitude: Axis,
    pub longitude: Axis,
}

// The trailer of edition 1, the image's last 40 bytes, as it stands, so its edition is any number. `back` is document 01's distance from the
// image's end to the first node.
#[derive(Clone, Copy)]
pub struct Trailer {
    pub geometry: Geometry,
    pub back: u64,
    pub edition: u64,
}

// A grid as edition 2 has it, in its trailer or, of a dense grid, before the correction nodes: its geometry, and the distance from the
// image's end to its first node.
#[derive(Clone, Copy)]
pub struct GridTrailer {
    pub geometry: Geometry,
    pub back: u64,
}

// The trailer of edition 2, the image's last 80 bytes, but for the edition. Its kind is any number too.
#[derive(Clone, Copy)]
pub struct TwoGridTrailer {
    pub corrections: GridTrailer,
    pub heights: GridTrailer,
    pub kind: u64,
}

// A plane of values in an image: a value for each node of a geometry. That of the first node is the i32 at byte `first`; the others follow
// it, row after row, each `stride` bytes after the one before.
#[derive(Clone, Copy)]
pub struct Plane {
    pub geometry: Geometry,
    pub first: u64,
    pub stride: u64,
}

// Where an opened image has its values: the planes of latitude corrections, of longitude corrections and of quasi-geoid heights; whether
// these stand on a separate grid, as in edition 2, or at the corrections' nodes, as in edition 1; whether points outside the bounds are
// answered too; and whether a dense grid lies inside that of the corrections, with the plane of its latitude corrections, each followed by
// the node's longitude correction. Where there is no dense grid, `dense` is the plane of latitude corrections once more, and nothing reads
// it. The flags stand beside the planes because the return promise speaks of them: `others`, `points` and `anywhere` of
// specs/Promise.antt, `KeepsUnbounded` of specs/Trip.antt.
#[derive(Clone, Copy)]
pub struct Layout {
    pub separate: bool,
    pub nested: bool,
    pub unbounded: bool,
    pub latitude: Plane,
    pub longitude: Plane,
    pub height: Plane,
    pub dense: Plane,
}

// Values that follow each other in an image, those of a plane or of a row of it: the byte where the first begins, and how many bytes after
// it the next one does.
#[derive(Clone, Copy)]
pub struct Run {
    pub first: u64,
    pub stride: u64,
}

// The same in each of the three planes.
#[derive(Clone, Copy)]
pub struct Runs {
    pub latitude: Run,
    pub longitude: Run,
    pub height: Run,
}

// A point in nd: ETRS89 or Bessel, as its use says.
#[derive(Clone, Copy)]
pub struct Point {
    pub latitude: i64,
    pub longitude: i64,
}

// The latitude and longitude correction at a point, in nd.
#[derive(Clone, Copy)]
pub struct Correction {
    pub latitude: i64,
    pub longitude: i64,
}

// One value at the four corners of a cell.
#[derive(Clone, Copy)]
pub struct Square {
    pub southwest: i64,
    pub southeast: i64,
    pub northwest: i64,
    pub northeast: i64,
}

// The spacings of a grid: document 01's P and Q.
#[derive(Clone, Copy)]
pub struct Spacings {
    pub latitude: u64,
    pub longitude: u64,
}

// Where a point lies in a cell: document 01's u and v, how far from its south and from its west side.
#[derive(Clone, Copy)]
pub struct PlaceInCell {
    pub u: u64,
    pub v: u64,
}

// A point and its height: what a conversion starts from.
#[derive(Clone, Copy)]
pub struct Fix {
    pub point: Point,
    pub height: i64,
}

// The two ways of a conversion: out, from ETRS89 to Bessel and NAP, and back.
#[derive(Clone, Copy)]
pub enum Way {
    Out,
    Back,
}

// The values of a conversion: the point, its height, and the evaluation count.
#[derive(Clone, Copy)]
pub struct Position {
    pub latitude: i64,
    pub longitude: i64,
    pub height: i64,
    pub count: u64,
}

// The largest absolute steps of one value between neighbours: document 01's A in latitude, B in longitude.
#[derive(Clone, Copy)]
pub struct Steps {
    pub northward: u64,
    pub eastward: u64,
}

// What a passed grid check reports of the three values.
#[derive(Clone, Copy)]
pub struct Findings {
    pub latitude: Steps,
    pub longitude: Steps,
    pub height: Steps,
}

// An angle in degrees, minutes and `fraction`, the hundred-thousandths of a second, with the byte of its letter.
#[derive(Clone, Copy)]
pub struct Notation {
    pub degrees: u64,
    pub minutes: u64,
    pub fraction: u64,
    pub letter: u8,
}

// The bits of a float, the lowest first: so many of its fraction, so many of its exponent, and one of its sign.
#[derive(Clone, Copy)]
pub struct FloatFormat {
    pub fraction: u64,
    pub exponent: u64,
}

// A factor, over / under.
#[derive(Clone, Copy)]
pub struct Scale {
    pub over: u64,
    pub under: u64,
}

// The refusals, in the order of their numbers, 1 to 22.
#[derive(Clone, Copy, PartialEq, Eq)]
pub enum Refusal {
    ImageLength = 1,
    Edition,
    NodeCount,
    Spacing,
    GridBounds,
    NodeBytes,
    FixLimits,
    OutsideBounds,
    NodeLimits,
    IterateOutside,
    NotSettled,
    Slope,
    BadNotation,
    ListLengths,
    OffHeightGrid,
    VdatumFile,
    VdatumHeight,
    Ntv2File,
    Ntv2Shift,
    DenseAlignment,
    DenseBorder,
    BorderCorrection,
}

// What a conversion makes of an accepted fix: a position with a height, or without one, for which 0 stands.
#[derive(Clone, Copy)]
pub enum Converted {
    WithHeight(Position),
    WithoutHeight(Position),
}

// The geometries of the grids of an NTv2 file: of its first grid, and of the dense one inside it, or zeros where it has none: so the
// theorem `ntv2_file` (proofs/Ntv2File.antt) has it, and the twelve numbers that C gets.
#[derive(Clone, Copy)]
pub struct FileGrids {
    pub coarse: Geometry,
    pub dense: Geometry,
}

// The way out's answer of a trip, and what it gives when it is taken back.
#[derive(Clone, Copy)]
pub struct Trip {
    pub outward: Position,
    pub returned: Position,
}

// A trip that returns: both answers with a height, or both without one.
#[derive(Clone, Copy)]
pub enum Returned {
    WithHeights(Trip),
    WithoutHeights(Trip),
}
