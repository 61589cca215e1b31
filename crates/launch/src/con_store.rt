// A store to NVMCON.
// What takes a Layout here is no call of the device: its callers judge decline 1 first.
ghost use Rattle.std.specs.Prelude.{◌≡◌};
ghost use Rattle.launch.specs.ConStore.{launches_of, con_store_of};

use crate::launch::{Launched, launch, nothing_launched};
use device::builders::with_con;
use device::record::Device;
use device::registers::Nvmcon;
use geometry::layout::Layout;
use register_fields::con_takes;
use words::word::{has, merge};

// Whether a store to NVMCON launches.
#[tactic(auto, unfolding(crate::specs::ConStore::launches_of))]
fn launches(d: Device, w: u32) -> bool
    ensures { result ≡ launches_of d w }
{
    has(w, Nvmcon::WR) && has(d.nvmcon.0, Nvmcon::WREN) && d.keystep == 3
}

// NVMCON after a store, whether there was an event, and what is launched.
#[tactic(auto, unfolding(crate::specs::ConStore::con_store_of))]
pub fn con_store(layout: Layout, d: Device, w: u32) -> Launched
    ensures { result ≡ con_store_of layout.geometry d w }
{
    let nvmcon = merge(con_takes(d), w, d.nvmcon.0);
    if launches(d, w) {
        launch(layout, with_con(d, nvmcon, d.keystep, d.step))
    } else {
        nothing_launched(d, nvmcon)
    }
}
