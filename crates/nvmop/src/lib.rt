// The operation that NVMOP names: its target, whether its steps begin, and how many there are.
// What takes a Layout here is no call of the device: its callers judge decline 1 first.
#![tactic(auto)]

ghost use Rattle.std.specs.Prelude.{◌≡◌};
ghost use Rattle.map.specs.Location.{location_of};
ghost use Rattle.device.specs.Record.{op_of};
ghost use Rattle.nvmop.specs.Operation.{unit_of, target_of, target_begins_of, region_begins_of, begins_at_of, begins_of, launched_begins_of, length_of};

use device::numbers::{
    BOTH_ERASE, LOWER_ERASE, PAGE_ERASE, QUAD_PROGRAM, ROW_PROGRAM, UPPER_ERASE,
};
use device::record::Device;
use geometry::banks::round_down;
use geometry::layout::Layout;
use map::{Location, locate};
use protection::{is_page_protected, pwp};

// NVMOP.
pub fn op(d: Device) -> u32
    ensures { result ≡ op_of d }
{
    d.nvmcon.0 % 16
}

// What NVMADDR is rounded down to: a quad, a row or a page.
#[tactic(auto, unfolding(crate::specs::Operation::unit_of))]
pub fn unit(layout: Layout, op: u32) -> u32
    ensures { result ≡ unit_of layout.geometry op }
{
    match op {
        QUAD_PROGRAM => 16,
        ROW_PROGRAM => layout.row_bytes(),
        _ => layout.page_bytes(),
    }
}

// Where NVMOP 2, 3 and 4 begin.
#[tactic(auto, using(crate::proofs::OperationLaws::unit_pos), unfolding(crate::specs::Operation::target_of))]
pub fn target(layout: Layout, op: u32, address: u32) -> Option<Location>
    ensures { location_of result ≡ target_of layout.geometry op address }
{
    locate(layout, round_down(address, unit(layout, op)))
}

#[tactic(auto, unfolding(crate::specs::Operation::target_begins_of))]
fn target_begins(layout: Layout, op: u32, address: u32, last: u32) -> bool
    ensures { result ≡ target_begins_of layout.geometry last (target_of layout.geometry op address) }
{
    match target(layout, op, address) {
        Some(l) => !l.program || !is_page_protected(layout, last, l.upper, l.page(layout)),
        None => false,
    }
}

// A region has a protected page where its first page is protected.
#[tactic(auto, using(crate::proofs::OperationLaws::region_first))]
fn region_begins(layout: Layout, last: u32, upper: bool) -> bool
    ensures { result ≡ region_begins_of layout.geometry last upper }
{
    !is_page_protected(layout, last, upper, 0)
}

// Whether the launch of an NVMOP begins steps, by its address and by PWP. Of the device it takes these two numbers alone: a device that is
// handed on is copied at every call that judges decline 3 while an operation runs.
#[tactic(auto, unfolding(crate::specs::Operation::begins_at_of))]
fn begins_at(layout: Layout, op: u32, address: u32, last: u32) -> bool
    ensures { result ≡ begins_at_of layout.geometry op address last }
{
    match op {
        QUAD_PROGRAM | ROW_PROGRAM | PAGE_ERASE => target_begins(layout, op, address, last),
        LOWER_ERASE => region_begins(layout, last, false),
        UPPER_ERASE => region_begins(layout, last, true),
        BOTH_ERASE => last == 0,
        _ => false,
    }
}

// Whether a launch of the device begins steps.
pub fn begins(layout: Layout, d: Device) -> bool
    ensures { result ≡ begins_of layout.geometry d }
{
    begins_at(layout, op(d), d.nvmaddr, pwp(d))
}

// Whether it does with what the running operation was launched with.
pub fn launched_begins(layout: Layout, d: Device) -> bool
    ensures { result ≡ launched_begins_of layout.geometry d }
{
    begins_at(layout, op(d), d.launched.nvmaddr, pwp(d))
}

// The number of steps.
#[tactic(auto, unfolding(crate::specs::Operation::length_of))]
pub fn length(layout: Layout, op: u32) -> u32
    ensures { result ≡ length_of layout.geometry op }
{
    match op {
        QUAD_PROGRAM => 1,
        ROW_PROGRAM => layout.geometry.q,
        PAGE_ERASE => 8 * layout.geometry.q,
        BOTH_ERASE => 2 * (8 * layout.geometry.q * layout.geometry.p),
        _ => 8 * layout.geometry.q * layout.geometry.p,
    }
}
