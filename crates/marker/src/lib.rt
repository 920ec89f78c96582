// The C interface (include/marker.h): each function checks all that it is given, and leaves what it was lent unchanged where it refuses.
#![tactic(auto)]

ghost use Rattle.std.specs.Prelude.{◌≡◌, length};
ghost use Rattle.rules.specs.Answers.{outcome_of, status_of, after};
ghost use Rattle.rules.specs.Check.{grid_check, findings_after};
ghost use Rattle.rules.specs.Lists.{list_out, list_back, after_out, after_back};
ghost use Rattle.rules.specs.Notation.{read_parts, write_notation, notation_after};
ghost use Rattle.rules.specs.Limits.{SmallGeometry};
ghost use Rattle.rules.specs.Files.{geometry_numbers, geometry_after, geometries_after};
ghost use Rattle.rules.specs.Vdatum.{heights_from, heights_after};
ghost use Rattle.rules.specs.Ntv2.{corrections_from, corrections_after, dense_corrections_after};
ghost use Rattle.rules.specs.Planes.{planes_from_nodes, planes_after, nodes_from_planes, nodes_after};
ghost use Rattle.slopes.specs.Slopes.{step_most, FindingsWithin};
ghost use Rattle.marker.specs.Numbers.{findings_numbers, notation_numbers, grids_numbers};

use fixes::{list_back, list_out};
use notation::{read_notation, write_notation};
use ntv2::corrections_from_ntv2;
use planes::{nodes_from_planes, planes_from_nodes};
use refusals::{refusal_number, status};
use rules::{FileGrids, Findings, Geometry, Notation, Refusal};
use slopes::grid_check;
use vdatum::heights_from_vdatum;

// The grid check: 0 with the six findings written, or the number.
#[unsafe(no_mangle)]
pub extern "C" fn marker_grid_check(image: &[u8], findings: &mut [i64; 6]) -> i64
    ensures number { result ≡ status_of (grid_check image.now) }
    ensures findings { findings.new ≡ findings_after (grid_check image.now) findings.old }
{
    hand_out(grid_check(image).map(findings_numbers), findings)
}

// All fixes out: 0 with every answer written, or the number of the question that left the answers unchanged.
#[unsafe(no_mangle)]
pub extern "C" fn marker_list_out(image: &[u8], fixes: &[i64], answers: &mut [i64]) -> i64
    ensures number { result ≡ status_of (list_out image.now fixes.now answers.old) }
    ensures answers { answers.new ≡ after_out image.now fixes.now answers.old }
{
    status(list_out(image, fixes, answers))
}

// All fixes back, likewise.
#[unsafe(no_mangle)]
pub extern "C" fn marker_list_back(image: &[u8], fixes: &[i64], answers: &mut [i64]) -> i64
    ensures number { result ≡ status_of (list_back image.now fixes.now answers.old) }
    ensures answers { answers.new ≡ after_back image.now fixes.now answers.old }
{
    status(list_back(image, fixes, answers))
}

// The angle of a notation, in nd.
#[unsafe(no_mangle)]
pub extern "C" fn marker_read_notation(
    longitude: bool,
    degrees: u64,
    minutes: u64,
    hundred_thousandths: u64,
    letter: u8,
    nd: &mut i64,
) -> i64
    ensures number { result ≡ status_of (read_parts longitude degrees minutes hundred_thousandths letter) }
    ensures angle { nd.new ≡ after (read_parts longitude degrees minutes hundred_thousandths letter) nd.old }
{
    let n = Notation {
        degrees,
        minutes,
        fraction: hundred_thousandths,
        letter,
    };
    hand_out(read_notation(longitude, n), nd)
}

// The notation of an angle in nd.
#[unsafe(no_mangle)]
pub extern "C" fn marker_write_notation(longitude: bool, nd: i64, notation: &mut [u64; 4]) -> i64
    ensures number { result ≡ status_of (write_notation longitude nd) }
    ensures notation { notation.new ≡ notation_after (write_notation longitude nd) notation.old }
{
    hand_out(
        write_notation(longitude, nd).map(notation_numbers),
        notation,
    )
}

// The conversion of a VDatum file: 0 with the height nodes and the geometry written, or the number.
#[unsafe(no_mangle)]
pub extern "C" fn marker_heights_from_vdatum(
    file: &[u8],
    nodes: &mut [u8],
    geometry: &mut [i64; 6],
) -> i64
    ensures number { result ≡ status_of (heights_from file.now (length nodes.old)) }
    ensures nodes { nodes.new ≡ heights_after file.now nodes.old }
    ensures geometry { geometry.new
        ≡ geometry_after (heights_from file.now (length nodes.old)) geometry.old }
{
    hand_out(
        heights_from_vdatum(file, nodes).map(geometry_numbers),
        geometry,
    )
}

// The conversion of an NTv2 file: 0 with the nodes of its first grid, those of its subgrid and both geometries written, or the number.
#[unsafe(no_mangle)]
pub extern "C" fn marker_corrections_from_ntv2(
    file: &[u8],
    nodes: &mut [u8],
    dense: &mut [u8],
    geometry: &mut [i64; 12],
) -> i64
    ensures number { result
        ≡ status_of (corrections_from file.now (length nodes.old) (length dense.old)) }
    ensures nodes { nodes.new ≡ corrections_after file.now nodes.old dense.old }
    ensures dense { dense.new ≡ dense_corrections_after file.now nodes.old dense.old }
    ensures geometry { geometry.new
        ≡ geometries_after (corrections_from file.now (length nodes.old) (length dense.old))
        geometry.old }
{
    hand_out(
        corrections_from_ntv2(file, nodes, dense).map(grids_numbers),
        geometry,
    )
}

// An image of kind 3 from one of kind 0: 0 with the buffer written, or the number.
#[unsafe(no_mangle)]
pub extern "C" fn marker_planes_from_nodes(image: &[u8], buffer: &mut [u8]) -> i64
    ensures number { result ≡ status_of (planes_from_nodes image.now (length buffer.old)) }
    ensures buffer { buffer.new ≡ planes_after image.now buffer.old }
{
    status(planes_from_nodes(image, buffer))
}

// And one of kind 0 from one of kind 3, likewise.
#[unsafe(no_mangle)]
pub extern "C" fn marker_nodes_from_planes(image: &[u8], buffer: &mut [u8]) -> i64
    ensures number { result ≡ status_of (nodes_from_planes image.now (length buffer.old)) }
    ensures buffer { buffer.new ≡ nodes_after image.now buffer.old }
{
    status(nodes_from_planes(image, buffer))
}

// What a call gives: 0 with what it found written, or the number.
fn hand_out<T: Copy>(found: Result<T, Refusal>, to: &mut T) -> i64
    ensures number { result ≡ status_of (outcome_of found) }
    ensures found { to.new ≡ after (outcome_of found) to.old }
{
    match found {
        Ok(values) => {
            *to = values;
            0
        }
        Err(r) => refusal_number(r),
    }
}

// The findings of a passed check, A and B of each of the three values.
fn findings_numbers(f: Findings) -> [i64; 6]
    requires { FindingsWithin step_most f }
    ensures { result ≡ findings_numbers f }
{
    [
        f.latitude.northward as i64,
        f.latitude.eastward as i64,
        f.longitude.northward as i64,
        f.longitude.eastward as i64,
        f.height.northward as i64,
        f.height.eastward as i64,
    ]
}

// Degrees, minutes, hundred-thousandths of a second and the letter's byte.
fn notation_numbers(n: Notation) -> [u64; 4]
    ensures { result ≡ notation_numbers n }
{
    [n.degrees, n.minutes, n.fraction, u64::from(n.letter)]
}

// A geometry in the trailer's order.
fn geometry_numbers(g: Geometry) -> [i64; 6]
    requires { SmallGeometry g }
    ensures { result ≡ geometry_numbers g }
{
    [
        g.latitude.start,
        g.longitude.start,
        g.latitude.spacing as i64,
        g.longitude.spacing as i64,
        g.latitude.count as i64,
        g.longitude.count as i64,
    ]
}

// The geometry of the first grid, and then that of the dense one.
fn grids_numbers(g: FileGrids) -> [i64; 12]
    requires { SmallGeometry g.coarse × SmallGeometry g.dense }
    ensures { result ≡ grids_numbers g }
{
    let mut numbers = [0; 12];
    numbers[..6].copy_from_slice(&geometry_numbers(g.coarse));
    numbers[6..].copy_from_slice(&geometry_numbers(g.dense));
    numbers
}
