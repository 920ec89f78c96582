// One axis of a grid: its far bound, the angles on it, their offsets from its start, and the cells that these lie in.
#![tactic(auto)]

ghost use Rattle.std.specs.Prelude.{◌≡◌, true, ◌≤◌, nat_abs};
ghost use Rattle.rules.specs.Units.{longitude_limit};
ghost use Rattle.rules.specs.Image.{far_bound};
ghost use Rattle.rules.specs.Limits.{Sized, AxisPasses};
ghost use Rattle.rules.specs.Bilinear.{offset};
ghost use Rattle.rules.specs.Lookup.{on_axis};
ghost use Rattle.axis.specs.Place.{place_on, reaches};

use rules::Axis;

// A cell's index along an axis, and an offset's part of the cell.
#[derive(Clone, Copy)]
pub struct AxisPlace {
    pub cell: u64,
    pub part: u64,
}

// The bound at the other end of an axis.
pub fn far_bound(a: Axis) -> i64
    requires { (nat_abs a.start ≤ longitude_limit) × Sized a }
    ensures { result ≡ far_bound a }
{
    a.start + ((a.count - 1) * a.spacing) as i64
}

// Is an angle from an axis's start to its far bound, both included?
#[tactic(auto, unfolding(rules::specs::Lookup::on_axis))]
pub fn on_axis(a: Axis, z: i64) -> bool
    requires { AxisPasses longitude_limit a }
    ensures { result ≡ on_axis a z }
{
    a.start <= z && z <= far_bound(a)
}

// The distance of an angle on an axis from the axis's start.
pub fn offset_on(a: Axis, z: i64) -> u64
    requires { AxisPasses longitude_limit a × (on_axis a z ≡ true) }
    ensures { result ≡ offset a z }
{
    z.abs_diff(a.start)
}

// The cell of an offset from an axis's start. On the far bound the last cell is used, with the whole spacing as part.
#[tactic(auto, unfolding(rules::specs::Bilinear::cell_of, rules::specs::Bilinear::part_of))]
pub fn locate(a: Axis, x: u64) -> AxisPlace
    requires { Sized a }
    ensures { result ≡ place_on a x }
{
    let cell = (x / a.spacing).min(a.count - 2);
    AxisPlace {
        cell,
        part: x - cell * a.spacing,
    }
}

// Is an offset at or past a side, and less than one spacing from it?
#[tactic(auto, unfolding(crate::specs::Place::reaches))]
pub fn is_reached(side: u64, spacing: u64, x: u64) -> bool
    ensures { result ≡ reaches side spacing x }
{
    side <= x && x - side < spacing
}
