// Start-up: what the boot code stores after a reset.
#![tactic(auto)]

ghost use Rattle.std.specs.Prelude.{◌≡◌};
ghost use Rattle.register_access.specs.Store.{store_of};
ghost use Rattle.start_up.specs.StartedUp.{started_up_from};
ghost use Rattle.start_up.specs.StartUp.{start_up_decline_of, unlocked_of, swapped_of, start_up_of};

use common_declines::common_decline::common_decline;
use device::numbers::{KEY1, KEY2, KEY3, PLAIN, SET};
use device::record::Device;
use device::registers::{NVMKEY, Nvmcon, Nvmcon2};
use geometry::banks::Geometry;
use geometry::lent::Lent;
use register_access::store;
use words::decline::Decline;
use words::word::has;

#[tactic(auto, unfolding(crate::specs::StartUp::start_up_decline_of))]
fn start_up_decline(g: Geometry, d: Device) -> Result<(), Decline>
    ensures { result ≡ start_up_decline_of g d }
{
    common_decline(g, d, Lent::Nothing, 0)?;
    if has(d.nvmcon.0, Nvmcon::WR) {
        return Err(Decline::Running);
    }
    Ok(())
}

// The device after a store; a store that is declined leaves it. Inlined: up to five stores follow each other, each of the device before.
#[inline(always)]
fn stored(g: Geometry, d: Device, number: u32, form: u32, value: u32) -> Device
    ensures { result ≡ (store_of g d number form value).device }
{
    match store(g, d, number, form, value) {
        Ok(outcome) => outcome.device,
        Err(_) => d,
    }
}

// The device after the three key stores.
pub fn unlocked(g: Geometry, d: Device) -> Device
    ensures { result ≡ unlocked_of g d }
{
    let first = stored(g, d, NVMKEY, PLAIN, KEY1);
    let second = stored(g, first, NVMKEY, PLAIN, KEY2);
    stored(g, second, NVMKEY, PLAIN, KEY3)
}

// The device after PFSWAP follows BFSWAP.
fn swapped(g: Geometry, d: Device) -> Device
    ensures { result ≡ swapped_of g d }
{
    if has(d.nvmcon.0, Nvmcon::BFSWAP) {
        stored(g, unlocked(g, d), Nvmcon::NUMBER, SET, Nvmcon::PFSWAP)
    } else {
        d
    }
}

// The whole start-up.
#[tactic(auto, unfolding(crate::specs::StartUp::start_up_of, crate::specs::StartUp::start_up_stores))]
pub fn start_up(g: Geometry, d: Device) -> Result<Device, Decline>
    ensures { started_up_from d result ≡ start_up_of g d }
{
    start_up_decline(g, d)?;
    Ok(stored(g, swapped(g, d), Nvmcon2::NUMBER, SET, Nvmcon2::SWAPLOCK))
}
