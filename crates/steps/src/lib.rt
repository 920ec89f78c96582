// The steps between neighbours along a row, with question 9 of each node. A node holds the three values, both corrections or one value:
// what the rows of these have in common is a trait, and one walk goes along a row of any.
#![tactic(auto)]

ghost use Rattle.std.specs.Prelude.{◌≡◌, ◌≤◌, ℕ, List, Bool, length};
ghost use Rattle.rules.specs.Units.{within};
ghost use Rattle.steps.specs.Walk.{EachColumn, walked_of, along_row};
ghost use Rattle.steps.specs.Walk.{NodeInside, NarrowNode, node_of, node_passes, no_findings, with_nodes};
ghost use Rattle.steps.specs.Walk.{CorrectionInside, NarrowCorrection, correction_of};
ghost use Rattle.steps.specs.Walk.{correction_passes, no_correction_steps, with_corrections};
ghost use Rattle.steps.specs.Walk.{ValueInside, Narrow, run_value, no_steps, with_node};

use numbers::{i32_at, is_within, three_within};
use rules::{CORRECTION_LIMIT, Correction, Findings, QUASI_GEOID_LIMIT, Run, Runs, Steps};

// Where the nodes of a row lie in an image, what question 9 asks of each, and the steps to it from its neighbours.
pub trait Row: Copy {
    // What a node holds.
    type Node: Copy;

    // The largest steps of each value that it holds.
    type Largest: Copy;

    // The bytes of the node of a column are in an image of `size` bytes; that node; and that its values have 32 bits, so that the
    // differences of two such fit.
    ghost inside: { (size : ℕ) → Self → (column : ℕ) → Type 0 };

    ghost node: { List ℕ → Self → (column : ℕ) → Self.Node };

    ghost narrow: { Self.Node → Type 0 };

    // Question 9 of a node.
    ghost passes: { Self → Self.Node → Bool };

    // The largest steps of no nodes; and with those to one more node, from its western and its southern neighbour.
    ghost none: { Self.Largest };

    ghost add: { Self.Largest → (here west south : Self.Node) → Self.Largest };

    fn node(self, image: &[u8], column: u64) -> Self::Node
        requires { inside (length image.now) self column }
        ensures value { result ≡ node image.now self column }
        ensures narrow { narrow result };

    fn passes(self, here: Self::Node) -> bool
        ensures { result ≡ passes self here };

    fn none() -> Self::Largest
        ensures { result ≡ none };

    fn add(
        largest: Self::Largest,
        here: Self::Node,
        west: Self::Node,
        south: Self::Node,
    ) -> Self::Largest
        requires { narrow here × narrow west × narrow south }
        ensures { result ≡ add largest here west south };
}

// A row from west to east, beside the row to its south: the largest steps, or nothing where a node is beyond question 9's limits. The first
// node stands as its own western neighbour: a step of 0 changes no maximum.
pub fn walk_row<R: Row>(
    image: &[u8],
    south: R,
    row: R,
    columns: u64,
    before: R::Largest,
) -> Option<R::Largest>
    requires { (1 ≤ columns) × EachColumn columns (R.inside (length image.now) south)
        × EachColumn columns (R.inside (length image.now) row) }
    ensures { walked_of result
        ≡ along_row (R.passes row) R.add (R.node image.now south) (R.node image.now row) columns before }
{
    let mut largest = before;
    let mut west = row.node(image, 0);
    for column in 0..columns {
        let here = row.node(image, column);
        if !row.passes(here) {
            return None;
        }
        largest = R::add(largest, here, west, south.node(image, column));
        west = here;
    }
    Some(largest)
}

// The three values of a node.
#[derive(Clone, Copy)]
pub struct Node {
    pub latitude: i64,
    pub longitude: i64,
    pub height: i64,
}

#[tactic(auto, unfolding(crate::specs::Walk::node_of, crate::specs::Walk::node_passes, crate::specs::Walk::with_nodes))]
impl Row for Runs {
    type Node = Node;

    type Largest = Findings;

    ghost inside = { NodeInside };

    ghost node = { node_of };

    ghost narrow = { NarrowNode };

    ghost passes = { λ _. node_passes };

    ghost none = { no_findings };

    ghost add = { with_nodes };

    fn node(self, image: &[u8], column: u64) -> Node {
        Node {
            latitude: run_value(image, self.latitude, column),
            longitude: run_value(image, self.longitude, column),
            height: run_value(image, self.height, column),
        }
    }

    fn passes(self, here: Node) -> bool {
        three_within(
            here.latitude,
            CORRECTION_LIMIT,
            here.longitude,
            CORRECTION_LIMIT,
            here.height,
            QUASI_GEOID_LIMIT,
        )
    }

    fn none() -> Findings {
        Findings {
            latitude: no_steps(),
            longitude: no_steps(),
            height: no_steps(),
        }
    }

    fn add(largest: Findings, here: Node, west: Node, south: Node) -> Findings {
        Findings {
            latitude: with_node(
                largest.latitude,
                here.latitude,
                west.latitude,
                south.latitude,
            ),
            longitude: with_node(
                largest.longitude,
                here.longitude,
                west.longitude,
                south.longitude,
            ),
            height: with_node(largest.height, here.height, west.height, south.height),
        }
    }
}

// Where a row's corrections lie in their two planes.
#[derive(Clone, Copy)]
pub struct CorrectionRuns {
    pub latitude: Run,
    pub longitude: Run,
}

// The largest steps of both corrections.
#[derive(Clone, Copy)]
pub struct CorrectionSteps {
    pub latitude: Steps,
    pub longitude: Steps,
}

#[tactic(auto, unfolding(crate::specs::Walk::correction_of, crate::specs::Walk::correction_passes, crate::specs::Walk::with_corrections))]
impl Row for CorrectionRuns {
    type Node = Correction;

    type Largest = CorrectionSteps;

    ghost inside = { CorrectionInside };

    ghost node = { correction_of };

    ghost narrow = { NarrowCorrection };

    ghost passes = { λ _. correction_passes };

    ghost none = { no_correction_steps };

    ghost add = { with_corrections };

    fn node(self, image: &[u8], column: u64) -> Correction {
        Correction {
            latitude: run_value(image, self.latitude, column),
            longitude: run_value(image, self.longitude, column),
        }
    }

    fn passes(self, here: Correction) -> bool {
        is_within(here.latitude, CORRECTION_LIMIT) && is_within(here.longitude, CORRECTION_LIMIT)
    }

    fn none() -> CorrectionSteps {
        CorrectionSteps {
            latitude: no_steps(),
            longitude: no_steps(),
        }
    }

    fn add(
        largest: CorrectionSteps,
        here: Correction,
        west: Correction,
        south: Correction,
    ) -> CorrectionSteps {
        CorrectionSteps {
            latitude: with_node(
                largest.latitude,
                here.latitude,
                west.latitude,
                south.latitude,
            ),
            longitude: with_node(
                largest.longitude,
                here.longitude,
                west.longitude,
                south.longitude,
            ),
        }
    }
}

// Where a row's values lie in a plane, and how far from zero question 9 allows them.
#[derive(Clone, Copy)]
pub struct LimitedRun {
    pub run: Run,
    pub limit: u64,
}

impl Row for LimitedRun {
    type Node = i64;

    type Largest = Steps;

    ghost inside = { λ size row. ValueInside size row.run };

    ghost node = { λ b row. run_value b row.run };

    ghost narrow = { Narrow };

    ghost passes = { λ row. within row.limit };

    ghost none = { no_steps };

    ghost add = { with_node };

    fn node(self, image: &[u8], column: u64) -> i64 {
        run_value(image, self.run, column)
    }

    fn passes(self, here: i64) -> bool {
        is_within(here, self.limit)
    }

    fn none() -> Steps {
        no_steps()
    }

    fn add(largest: Steps, here: i64, west: i64, south: i64) -> Steps {
        with_node(largest, here, west, south)
    }
}

// The value of a column. It has 32 bits.
#[tactic(auto, unfolding(crate::specs::Walk::run_value))]
pub fn run_value(image: &[u8], run: Run, column: u64) -> i64
    requires { ValueInside (length image.now) run column }
    ensures value { result ≡ run_value image.now run column }
    ensures narrow { Narrow result }
{
    i32_at(image, (run.first + run.stride * column) as usize)
}

// The largest steps of one value: of no nodes, and with those to one more node from its western and its southern neighbour. The differences
// of numbers of 32 bits fit; `abs_diff`, which would do for any, takes a comparison more.
fn no_steps() -> Steps
    ensures { result ≡ no_steps }
{
    Steps {
        northward: 0,
        eastward: 0,
    }
}

#[tactic(auto, using(crate::proofs::Readings::gap_size), unfolding(crate::specs::Walk::with_node))]
fn with_node(largest: Steps, here: i64, west: i64, south: i64) -> Steps
    requires { Narrow here × Narrow west × Narrow south }
    ensures { result ≡ with_node largest here west south }
{
    Steps {
        northward: largest.northward.max((here - south).unsigned_abs()),
        eastward: largest.eastward.max((here - west).unsigned_abs()),
    }
}
