// The walks over the nodes of a fit image: question 9 of each, and the largest steps between neighbours. One walk goes over the rows
// of any planes: in edition 1 over those of all three, side by side; in edition 2 over those of the heights, and over those of both
// corrections, dense ones too.
#![tactic(auto)]

ghost use Rattle.std.specs.Prelude.{◌≡◌, ◌<◌, ℕ, length};
ghost use Rattle.rules.specs.declared.Geometry.{Geometry};
ghost use Rattle.rules.specs.Image.{rows, columns, plane};
ghost use Rattle.rules.specs.Limits.{GeometryPasses, InImage};
ghost use Rattle.image.specs.Fit.{grid_in};
ghost use Rattle.steps.specs.Walk.{EachColumn, walked_of};
ghost use Rattle.walks.specs.Rows.{run_at, row_at, correction_row_at, limited_run_at, CorrectionsInside, OneGrid, over_rows};
ghost use Rattle.walks.specs.Inside.{run_inside, corrections_inside, nodes_inside};
ghost use Rattle.walks.specs.Rows.{plane_walk, corrections_walk, grid_walk};

use image::FitImage;
use nodes::row_start;
use rules::{Findings, Geometry, Layout, Plane, QUASI_GEOID_LIMIT, Run, Runs, Steps};
use steps::{CorrectionRuns, CorrectionSteps, LimitedRun, Row, walk_row};

// Planes of one geometry, over which a walk goes row by row.
trait Planes: Copy {
    // A row of their nodes.
    type Line: Row;

    ghost geometry: { Self → Geometry };

    ghost row_of: { Self → (row : ℕ) → Self.Line };

    // They lie in an image of `size` bytes.
    ghost inside: { (size : ℕ) → Self → Type 0 };

    fn geometry(self) -> Geometry
        ensures { result ≡ geometry self };

    fn row(self, size: u64, row: u64) -> Self::Line
        requires { inside size self × (row < rows (geometry self)) }
        ensures { result ≡ row_of self row };

    // Then their geometry passes questions 3 to 5, and each row lies in the image.
    ghost geometry_passes: { (size : ℕ) (planes : Self) → inside size planes → GeometryPasses (geometry planes) };

    ghost row_inside: { (size : ℕ) (planes : Self) → inside size planes → (row : ℕ) → row < rows (geometry planes)
        → EachColumn (columns (geometry planes)) (Self.Line.inside size (row_of planes row)) };
}

// The rows from south to north: the largest steps, or nothing where a node is beyond question 9's limits. The first row stands as its own
// southern neighbour: steps of 0 change no maximum. Where the southern row lies is reckoned again: the compiler sees then that its values
// lie side by side as this row's do, and needs one register for all of them.
fn walk_rows<R: Row, P: Planes<Line = R>>(image: &[u8], planes: P) -> Option<R::Largest>
    requires { P.inside (length image.now) planes }
    ensures { walked_of result
        ≡ over_rows (λ row. R.passes (P.row_of planes row)) R.add (λ row. R.node image.now (P.row_of planes row))
        (P.geometry planes) R.none }
{
    let size = image.len() as u64;
    let geometry = planes.geometry();
    let mut largest = R::none();
    let mut south = 0;
    for row in 0..geometry.latitude.count {
        let below = planes.row(size, south);
        let here = planes.row(size, row);
        largest = walk_row(image, below, here, geometry.longitude.count, largest)?;
        south = row;
    }
    Some(largest)
}

// Question 9 of every node, and the largest steps between neighbours.
pub fn walk_planes(image: &FitImage<'_>) -> Option<Findings>
    ensures { walked_of result ≡ grid_walk (grid_in image.now) }
{
    if image.layout.separate {
        walk_grids(image)
    } else {
        walk_nodes(image)
    }
}

// The same of edition 2: the heights, then the corrections. In the other order the compiler keeps fewer maxima of edition 1's walk, which
// stands beside this one, in registers.
fn walk_grids(image: &FitImage<'_>) -> Option<Findings>
    ensures { walked_of result ≡ grid_walk (grid_in image.now) }
{
    let l = image.layout;
    let height = walk_plane(image.bytes, l.height, QUASI_GEOID_LIMIT)?;
    let corrections = walk_corrections(image.bytes, l.latitude, l.longitude)?;
    Some(Findings {
        latitude: corrections.latitude,
        longitude: corrections.longitude,
        height,
    })
}

// One plane, with the limit of its values.
fn walk_plane(image: &[u8], p: Plane, limit: u64) -> Option<Steps>
    requires { InImage (length image.now) p }
    ensures { walked_of result ≡ plane_walk limit p.geometry (plane image.now p) }
{
    walk_rows(image, LimitedPlane { plane: p, limit })
}

#[derive(Clone, Copy)]
struct LimitedPlane {
    plane: Plane,
    limit: u64,
}

impl Planes for LimitedPlane {
    type Line = LimitedRun;

    ghost geometry = { λ p. p.plane.geometry };

    ghost row_of = { λ p. limited_run_at p.plane p.limit };

    ghost inside = { λ size p. InImage size p.plane };

    ghost geometry_passes = { λ _ _ o. o.geometry };

    ghost row_inside = { λ _ _. run_inside };

    fn geometry(self) -> Geometry {
        self.plane.geometry
    }

    fn row(self, size: u64, row: u64) -> LimitedRun {
        LimitedRun {
            run: run_at(size, self.plane, row),
            limit: self.limit,
        }
    }
}

// Both planes of corrections, a node at a time: its values stand side by side in the image, so each is read from memory once.
pub fn walk_corrections(image: &[u8], latitude: Plane, longitude: Plane) -> Option<CorrectionSteps>
    requires { CorrectionsInside (length image.now) latitude longitude }
    ensures { walked_of result
        ≡ corrections_walk latitude.geometry (plane image.now latitude) (plane image.now longitude) }
{
    walk_rows(
        image,
        CorrectionPlanes {
            latitude,
            longitude,
        },
    )
}

#[derive(Clone, Copy)]
struct CorrectionPlanes {
    latitude: Plane,
    longitude: Plane,
}

impl Planes for CorrectionPlanes {
    type Line = CorrectionRuns;

    ghost geometry = { λ p. p.latitude.geometry };

    ghost row_of = { λ p. correction_row_at p.latitude p.longitude };

    ghost inside = { λ size p. CorrectionsInside size p.latitude p.longitude };

    ghost geometry_passes = { λ _ _ o. o.latitude_inside.geometry };

    ghost row_inside = { λ _ _. corrections_inside };

    fn geometry(self) -> Geometry {
        self.latitude.geometry
    }

    fn row(self, size: u64, row: u64) -> CorrectionRuns {
        CorrectionRuns {
            latitude: run_at(size, self.latitude, row),
            longitude: run_at(size, self.longitude, row),
        }
    }
}

// The three planes of one geometry side by side, as edition 1 has them: quicker than a plane at a time.
fn walk_nodes(image: &FitImage<'_>) -> Option<Findings>
    requires { let l = image.now.layout in l.height.geometry ≡ l.latitude.geometry }
    ensures { walked_of result ≡ grid_walk (grid_in image.now) }
{
    walk_rows(image.bytes, image.layout)
}

impl Planes for Layout {
    type Line = Runs;

    ghost geometry = { λ l. l.latitude.geometry };

    ghost row_of = { row_at };

    ghost inside = { OneGrid };

    ghost geometry_passes = { λ _ _ o. o.layout.latitude.geometry };

    ghost row_inside = { λ _ _. nodes_inside };

    fn geometry(self) -> Geometry {
        self.latitude.geometry
    }

    fn row(self, size: u64, row: u64) -> Runs {
        Runs {
            latitude: run_at(size, self.latitude, row),
            longitude: run_at(size, self.longitude, row),
            height: run_at(size, self.height, row),
        }
    }
}

// Where a row's values lie in a plane, in an image of `size` bytes.
fn run_at(size: u64, p: Plane, row: u64) -> Run
    requires { InImage size p × (row < rows p.geometry) }
    ensures { result ≡ run_at p row }
{
    Run {
        first: row_start(size, p, row),
        stride: p.stride,
    }
}
