// The launch.
// What takes a Layout here is no call of the device: its callers judge decline 1 first.
ghost use Rattle.std.specs.Prelude.{◌≡◌, false};
ghost use Rattle.launch.specs.Launch.{launched, launch_of};

use device::builders::operands;
use device::numbers::{BOTH_ERASE, NO_OPERATION, QUAD_PROGRAM};
use device::record::{Device, Operands};
use device::registers::Nvmcon;
use geometry::layout::Layout;
use nvmop::{begins, op};
use words::word::{clear, has};

// NVMCON after a launch, whether there was an event, and what the device holds as launched.
#[derive(Clone, Copy)]
pub struct Launched {
    pub nvmcon: u32,
    pub event: bool,
    pub operands: Operands,
}

// The launch by a store whose fields the device has taken.
#[tactic(auto, unfolding(crate::specs::Launch::launch_of))]
pub fn launch(layout: Layout, d: Device) -> Launched
    ensures { result ≡ launch_of layout.geometry d }
{
    let con = d.nvmcon.0;
    match op(d) {
        NO_OPERATION => nothing_launched(d, clear(con, Nvmcon::WRERR + Nvmcon::LVDERR)),
        _ if has(con, Nvmcon::WRERR + Nvmcon::LVDERR) => nothing_launched(d, con),
        QUAD_PROGRAM..=BOTH_ERASE if begins(layout, d) => Launched {
            nvmcon: con | Nvmcon::WR + Nvmcon::WRERR,
            event: false,
            operands: operands(d),
        },
        QUAD_PROGRAM..=BOTH_ERASE => Launched {
            nvmcon: con | Nvmcon::WRERR,
            event: true,
            operands: d.launched,
        },
        _ => nothing_launched(d, con),
    }
}

// What was launched stays, and there is no event.
pub(crate) fn nothing_launched(d: Device, nvmcon: u32) -> Launched
    ensures { result ≡ launched nvmcon false d.launched }
{
    Launched {
        nvmcon,
        event: false,
        operands: d.launched,
    }
}
