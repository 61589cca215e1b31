// Decline 3: whether a device record is possible.
// What takes a Layout here is no call of the device: its callers judge decline 1 first.
ghost use Rattle.std.specs.Prelude.{◌≡◌};
ghost use Rattle.words.specs.Word.{pick};
ghost use Rattle.device.specs.Record.{running};
ghost use Rattle.common_declines.specs.Possible.{implemented_of, launched_fits_of, nothing_launched_of, running_of, resting_of, possible_of};

use device::record::{Device, register};
use device::registers::{
    NVMADDR, NVMDATA0, NVMDATA1, NVMDATA2, NVMDATA3, NVMSRCADDR, Nvmbwp, Nvmcon, is_within,
};
use geometry::layout::Layout;
use nvmop::{launched_begins, length, op};
use words::word::has;

// Whether no unimplemented bit is set.
fn is_implemented(d: Device) -> bool
    ensures { result ≡ implemented_of d }
{
    for number in 0..11 {
        if !is_within(number, register(d, number)) {
            return false;
        }
    }
    true
}

// Whether what was launched is within its registers' masks.
#[tactic(auto, unfolding(crate::specs::Possible::launched_fits_of))]
fn launched_fits(d: Device) -> bool
    ensures { result ≡ launched_fits_of d.launched }
{
    let data = d.launched.nvmdata;
    is_within(NVMADDR, d.launched.nvmaddr)
        && is_within(NVMDATA0, data[0])
        && is_within(NVMDATA1, data[1])
        && is_within(NVMDATA2, data[2])
        && is_within(NVMDATA3, data[3])
        && is_within(NVMSRCADDR, d.launched.nvmsrcaddr)
}

// Whether what was launched is all 0.
#[tactic(auto, unfolding(crate::specs::Possible::nothing_launched_of))]
fn nothing_launched(d: Device) -> bool
    ensures { result ≡ nothing_launched_of d.launched }
{
    let data = d.launched.nvmdata;
    d.launched.nvmaddr == 0
        && data[0] == 0
        && data[1] == 0
        && data[2] == 0
        && data[3] == 0
        && d.launched.nvmsrcaddr == 0
}

// Whether a device with WR = 0 holds nothing of an operation.
#[tactic(auto, unfolding(crate::specs::Possible::resting_of))]
fn is_resting(d: Device) -> bool
    ensures { result ≡ resting_of d }
{
    d.step == 0 && nothing_launched(d)
}

// Whether an operation that runs can have been launched so.
#[tactic(auto, unfolding(crate::specs::Possible::running_of))]
fn is_running(layout: Layout, d: Device) -> bool
    ensures { result ≡ running_of layout.geometry d }
{
    d.keystep == 0
        && has(d.nvmcon.0, Nvmcon::WRERR)
        && !has(d.nvmcon.0, Nvmcon::LVDERR)
        && launched_begins(layout, d)
        && d.step < length(layout, op(d))
}

// Whether the operation, or that there is none, fits the rest of the device.
#[tactic(auto, unfolding(crate::specs::Possible::possible_of))]
fn is_running_or_resting(layout: Layout, d: Device) -> bool
    ensures { result ≡ pick (running d) (running_of layout.geometry d) (resting_of d) }
{
    if has(d.nvmcon.0, Nvmcon::WR) {
        is_running(layout, d)
    } else {
        is_resting(d)
    }
}

// Whether decline 3 does not apply.
#[tactic(auto, unfolding(crate::specs::Possible::possible_of))]
pub fn is_possible(layout: Layout, d: Device) -> bool
    ensures { result ≡ possible_of layout.geometry d }
{
    is_implemented(d)
        && launched_fits(d)
        && has(d.nvmbwp.0, Nvmbwp::ALWAYS)
        && d.keystep <= 3
        && is_running_or_resting(layout, d)
}
