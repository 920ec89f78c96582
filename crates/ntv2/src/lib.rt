// NTv2 .gsb files with one grid, or with one subgrid after its parent: each header becomes a geometry, and the nodes' shifts, f32 in
// arcseconds, the correction nodes and the dense nodes of an image of edition 2.
#![tactic(auto)]

ghost use Rattle.std.specs.Prelude.{true, ◌++◌, ◌≡◌, ◌+◌, ◌*◌, ◌-◌, ◌≤◌, ◌<◌, nat_abs, length, drop};
ghost use Rattle.rules.specs.Units.{count_most, correction_limit};
ghost use Rattle.rules.specs.Answers.{ask, values, outcome_of};
ghost use Rattle.rules.specs.Image.{node_count};
ghost use Rattle.rules.specs.Floats.{binary32, value_of};
ghost use Rattle.rules.specs.Ntv2.{arcseconds, turned, grid_header_of, grid_passes, closed, subgrid_after, subgrid_passes};
ghost use Rattle.rules.specs.Ntv2.{rest_passes, question18, subgrid_header_of, grids_of, shifts_fit, all_shifts_fit};
ghost use Rattle.rules.specs.Ntv2.{question19, correction_node, correction_row, correction_nodes, corrections_from, corrections_after};
ghost use Rattle.rules.specs.Ntv2.{dense_corrections_after};
ghost use Rattle.ntv2.specs.Reading.{HasNodes, shift_fits, turned_fits, RowFits};

use floats::{nearest, turned, without_sign};
use ntv2_headers::{
    ARCSECONDS, HEADER, NUM_FILE, PARENT, SUB_NAME, count_at, overview_passes, read_header,
};
use numbers::{big_u64_at, u32_at, write_i32};
use rules::{Axis, CORRECTION_LIMIT, FileGrids, Geometry, Refusal};

// Texts of a file: eight letters, the first one highest.
const END_LABEL: u64 = 0x454E442020202020;

const NONE_TEXT: u64 = 0x4E4F4E4520202020;

// The bytes of a node in the file; in a buffer it has half of them.
const NODE: usize = 16;

// The bits of the largest f32 that rounds to a correction within the limit: 36 arcseconds.
const LARGEST_BITS: u64 = 0x42100000;

// The geometry of no grid.
const NO_AXIS: Axis = Axis {
    start: 0,
    spacing: 0,
    count: 0,
};

const NO_GEOMETRY: Geometry = Geometry {
    latitude: NO_AXIS,
    longitude: NO_AXIS,
};

// The conversion of any file into any two buffers: headers, lengths and END, then every node, and only then are the buffers written. What
// follows the first grid's nodes, of 16 bytes each in the file and 8 in the buffer, is the subgrid, or END and a geometry without nodes, of
// which nothing is written.
pub fn corrections_from_ntv2(
    file: &[u8],
    nodes: &mut [u8],
    dense: &mut [u8],
) -> Result<FileGrids, Refusal>
    ensures answer { outcome_of result
        ≡ corrections_from file.now (length nodes.old) (length dense.old) }
    ensures nodes { nodes.new ≡ corrections_after file.now nodes.old dense.old }
    ensures dense { dense.new ≡ dense_corrections_after file.now nodes.old dense.old }
{
    let g = read_file(file, nodes.len(), dense.len())?;
    if !both_fit(file, nodes.len() / 8, dense.len() / 8) {
        return Err(Refusal::Ntv2Shift);
    }
    let from = 2 * HEADER + 2 * nodes.len();
    write_grid(&file[HEADER..], g.coarse, nodes);
    write_grid(&file[from..], g.dense, dense);
    Ok(g)
}

// Refusal 18, with buffers of so many bytes.
#[tactic(auto, using(crate::proofs::Passing::overview_long, crate::proofs::Passing::first_long, crate::proofs::Passing::grid_sized, rules::proofs::Lent::part_from_lem), unfolding(rules::specs::Ntv2::question18))]
fn read_file(file: &[u8], room: usize, dense_room: usize) -> Result<FileGrids, Refusal>
    ensures { outcome_of result
        ≡ ask (question18 file.now room dense_room) 18 (values (grids_of file.now)) }
{
    if !overview_passes(file) {
        return Err(Refusal::Ntv2File);
    }
    let coarse = read_grid(&file[HEADER..], NONE_TEXT, room)?;
    let dense = read_rest(file, node_count(coarse), dense_room)?;
    Ok(FileGrids { coarse, dense })
}

// How many nodes a grid has.
#[tactic(auto, using(crate::proofs::Passing::nodes_most))]
fn node_count(g: Geometry) -> u64
    requires { (g.latitude.count ≤ count_most) × (g.longitude.count ≤ count_most) }
    ensures { (result ≡ node_count g) × (result ≤ count_most * count_most) }
{
    g.latitude.count * g.longitude.count
}

// What follows the first grid, of so many nodes: a subgrid and END, or END alone.
#[tactic(auto, using(rules::proofs::Lent::part_from_lem), unfolding(rules::specs::Ntv2::rest_passes))]
fn read_rest(file: &[u8], nodes: u64, room: usize) -> Result<Geometry, Refusal>
    requires { (352 ≤ length file.now) × (nodes ≤ count_most * count_most) }
    ensures { outcome_of result
        ≡ ask (rest_passes file.now nodes room) 18 (values (subgrid_header_of file.now nodes)) }
{
    if count_at(file, NUM_FILE) == 2 {
        read_subgrid(file, nodes, room)
    } else if room == 0 && closed_after(&file[HEADER..], nodes) {
        Ok(NO_GEOMETRY)
    } else {
        Err(Refusal::Ntv2File)
    }
}

// The subgrid after so many nodes of the first grid, which is its parent.
#[tactic(auto, using(crate::proofs::Passing::grid_sized, crate::proofs::Passing::too_short, rules::proofs::Lent::part_from_lem), unfolding(rules::specs::Ntv2::subgrid_passes))]
fn read_subgrid(file: &[u8], nodes: u64, room: usize) -> Result<Geometry, Refusal>
    requires { (352 ≤ length file.now) × (nodes ≤ count_most * count_most) }
    ensures { outcome_of result
        ≡ ask (subgrid_passes file.now nodes room) 18 (values (grid_header_of (subgrid_after file.now nodes))) }
{
    let from = 2 * HEADER + NODE * nodes as usize;
    if file.len() < from {
        return Err(Refusal::Ntv2File);
    }
    let name = big_u64_at(&file[HEADER..], SUB_NAME);
    let g = read_grid(&file[from..], name, room)?;
    if closed_after(&file[from..], node_count(g)) {
        Ok(g)
    } else {
        Err(Refusal::Ntv2File)
    }
}

// A grid with this parent, and a buffer of so many bytes for its nodes, eight each.
#[tactic(auto, using(crate::proofs::Passing::header_sized), unfolding(rules::specs::Ntv2::grid_passes))]
fn read_grid(grid: &[u8], parent: u64, room: usize) -> Result<Geometry, Refusal>
    ensures { outcome_of result ≡ ask (grid_passes grid.now parent room) 18 (values (grid_header_of grid.now)) }
{
    if grid.len() < HEADER || big_u64_at(grid, PARENT) != parent {
        return Err(Refusal::Ntv2File);
    }
    let g = read_header(grid)?;
    if room as u64 == 8 * node_count(g) {
        Ok(g)
    } else {
        Err(Refusal::Ntv2File)
    }
}

// Does END stand after so many nodes of a grid, at the end of the file?
#[tactic(auto, unfolding(rules::specs::Ntv2::closed))]
fn closed_after(grid: &[u8], nodes: u64) -> bool
    requires { nodes ≤ count_most * count_most }
    ensures { result ≡ closed grid.now nodes }
{
    let end = HEADER + NODE * nodes as usize;
    grid.len() == end + 16 && big_u64_at(grid, end) == END_LABEL
}

// Refusal 19, of so many nodes of the first grid and of the subgrid.
#[tactic(auto, using(rules::proofs::Lent::part_from_lem), unfolding(rules::specs::Ntv2::question19))]
fn both_fit(file: &[u8], nodes: usize, dense_nodes: usize) -> bool
    requires { (352 + 16 * nodes ≤ length file.now) × (16 * dense_nodes ≤ length file.now - (528 + 16 * nodes)) }
    ensures { result ≡ question19 file.now nodes dense_nodes }
{
    let from = 2 * HEADER + NODE * nodes;
    all_shifts_fit(&file[HEADER..], nodes) && all_shifts_fit(&file[from..], dense_nodes)
}

// Refusal 19, of so many nodes of a grid.
fn all_shifts_fit(grid: &[u8], nodes: usize) -> bool
    requires { HasNodes grid.now nodes }
    ensures { result ≡ all_shifts_fit grid.now nodes }
{
    (0..nodes).all(|n| shifts_fit(grid, n))
}

// Refusal 19, of the grid's node n. Floats of one sign stand in the order of their bits, so those without the sign decide.
#[tactic(auto, using(crate::proofs::Shifts::shifts_tested))]
fn shifts_fit(grid: &[u8], n: usize) -> bool
    requires { HasNodes grid.now (n + 1) }
    ensures { result ≡ shifts_fit grid.now n }
{
    without_sign::<f32>(u32_at(grid, HEADER + NODE * n)) <= LARGEST_BITS
        && without_sign::<f32>(u32_at(grid, HEADER + 4 + NODE * n)) <= LARGEST_BITS
}

// Writes the nodes of a grid of this geometry, each row into its part of the buffer. Not by chunks: where there is no dense grid a row has
// no bytes, and a chunk must have some.
fn write_grid(grid: &[u8], g: Geometry, nodes: &mut [u8])
    requires { (g.latitude.count ≤ count_most) × (g.longitude.count ≤ count_most) × (length nodes.old ≡ 8 * node_count g)
        × HasNodes grid.now (node_count g) × (all_shifts_fit grid.now (node_count g) ≡ true) }
    ensures { nodes.new ≡ correction_nodes grid.now g }
{
    let columns = g.longitude.count as usize;
    let size = 8 * columns;
    for row in 0..g.latitude.count as usize {
        write_row(
            grid,
            columns,
            row,
            &mut nodes[size * row..size * row + size],
        );
    }
}

// Writes a row from the west; the file has it from the east. So places are counted: the one in the file from the end.
fn write_row(grid: &[u8], columns: usize, row: usize, part: &mut [u8])
    requires { (columns ≤ count_most) × (row < count_most) × (length part.old ≡ 8 * columns)
        × HasNodes grid.now (row * columns + columns) × RowFits grid.now columns row }
    ensures { part.new ≡ correction_row grid.now columns row }
{
    for column in 0..columns {
        let n = row * columns + (columns - 1 - column);
        write_node(grid, n, &mut part[8 * column..]);
    }
}

// Writes the corrections of the grid's node n at the front of the part that is lent; what follows them is unchanged.
fn write_node(grid: &[u8], n: usize, rest: &mut [u8])
    requires { (8 ≤ length rest.old) × HasNodes grid.now (n + 1) × (shifts_fit grid.now n ≡ true) }
    ensures { rest.new ≡ correction_node grid.now n ++ drop 8 rest.old }
{
    let latitude = fit_correction(u32_at(grid, HEADER + NODE * n));
    let longitude = turned_correction(u32_at(grid, HEADER + 4 + NODE * n));
    write_i32(rest, latitude);
    write_i32(&mut rest[4..], longitude);
}

// The longitude correction of a shift that passes: the sign is turned, and then it is rounded.
fn turned_correction(bits: u64) -> i64
    requires { (bits < 4294967296) × (turned_fits bits ≡ true) }
    ensures { result ≡ arcseconds (turned (value_of binary32 bits)) }
{
    fit_correction(turned::<f32>(bits))
}

// The correction of a shift that passes, in nd.
#[tactic(auto, unfolding(floats::specs::Nearest::nearest_within, crate::specs::Reading::shift_fits, rules::specs::Ntv2::arcseconds))]
fn fit_correction(bits: u64) -> i64
    requires { shift_fits bits ≡ true }
    ensures { (result ≡ arcseconds (value_of binary32 bits)) × (nat_abs result ≤ correction_limit) }
{
    nearest::<f32>(bits, ARCSECONDS, CORRECTION_LIMIT).unwrap()
}
