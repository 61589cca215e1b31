// Stores and register reads.
#![tactic(auto)]

ghost use Rattle.std.specs.Prelude.{◌≡◌, IfOk};
ghost use Rattle.words.specs.Decline.{verdict_from};
ghost use Rattle.device.specs.Answer.{answer_from};
ghost use Rattle.register_access.specs.RegisterRead.{register_read_from};
ghost use Rattle.register_access.specs.Store.{accepted, has_form_of, may_store_of, store_decline_of, applied_of, store_accepted_of, store_of, read_decline_of, register_read_of};

use common_declines::common_decline::common_decline;
use device::builders::{with_con, with_launched};
use device::numbers::{INVERT, PLAIN};
use device::outcome::Outcome;
use device::record::{Device, register};
use device::registers::{
    NVMADDR, NVMDATA0, NVMDATA1, NVMDATA2, NVMDATA3, NVMKEY, NVMSRCADDR, Nvmbwp, Nvmcon, Nvmcon2,
    Nvmpwp,
};
use geometry::banks::Geometry;
use geometry::layout::Layout;
use geometry::lent::Lent;
use launch::con_store::con_store;
use register_fields::{bwp_takes, con2_takes, key_after_read, key_next, pwp_takes, wanted};
use words::decline::Decline;
use words::word::{has, merge};

// The value of a register, and the device after the read.
#[derive(Clone, Copy)]
pub struct RegisterValue {
    pub value: u32,
    pub device: Device,
}

// Whether there is such a register and it has such a form.
#[tactic(auto, unfolding(crate::specs::Store::has_form_of))]
fn has_form(number: u32, form: u32) -> bool
    ensures { result ≡ has_form_of number form }
{
    number <= Nvmcon2::NUMBER && form <= INVERT && (number != NVMKEY || form == PLAIN)
}

// Whether decline 5 does not apply to a store. No call of the device.
#[tactic(auto, unfolding(crate::specs::Store::may_store_of))]
pub fn may_store(d: Device, number: u32) -> bool
    ensures { result ≡ may_store_of d number }
{
    !has(d.nvmcon.0, Nvmcon::WR) || (NVMADDR <= number && number <= NVMSRCADDR)
}

#[tactic(auto, unfolding(crate::specs::Store::store_decline_of))]
fn store_decline(g: Geometry, d: Device, number: u32, form: u32) -> Result<Layout, Decline>
    ensures verdict { verdict_from result ≡ store_decline_of g d number form }
    ensures layout { IfOk result (λ layout. layout.geometry ≡ g) }
{
    let layout = common_decline(g, d, Lent::Nothing, 0)?;
    if !has_form(number, form) {
        return Err(Decline::Register);
    }
    if !may_store(d, number) {
        return Err(Decline::Running);
    }
    Ok(layout)
}

// The device after a store to another register than NVMCON.
#[tactic(auto, unfolding(crate::specs::Store::applied_of))]
fn applied(d: Device, number: u32, w: u32) -> Device
    ensures { result ≡ applied_of d number w }
{
    let mut e = d;
    e.keystep = 0;
    match number {
        NVMKEY => e.keystep = key_next(d.keystep, w),
        NVMADDR => e.nvmaddr = w,
        NVMDATA0 => e.nvmdata[0] = w,
        NVMDATA1 => e.nvmdata[1] = w,
        NVMDATA2 => e.nvmdata[2] = w,
        NVMDATA3 => e.nvmdata[3] = w,
        NVMSRCADDR => e.nvmsrcaddr = w,
        Nvmpwp::NUMBER => e.nvmpwp = Nvmpwp(merge(pwp_takes(d), w, d.nvmpwp.0)),
        Nvmbwp::NUMBER => e.nvmbwp = Nvmbwp(merge(bwp_takes(d), w, d.nvmbwp.0)),
        Nvmcon2::NUMBER => e.nvmcon2 = Nvmcon2(merge(con2_takes(d), w, d.nvmcon2.0)),
        _ => {}
    }
    e
}

// A store that is not declined. No call of the device: its callers judge the declines first.
#[tactic(auto, unfolding(crate::specs::Store::store_accepted_of))]
pub fn store_accepted(layout: Layout, d: Device, number: u32, form: u32, value: u32) -> Outcome
    ensures { accepted result.device result.event ≡ store_accepted_of layout.geometry d number form value }
{
    let w = wanted(form, register(d, number), value);
    if number == Nvmcon::NUMBER {
        let l = con_store(layout, d, w);
        let operands = l.operands;
        return Outcome {
            device: with_launched(with_con(d, l.nvmcon, 0, d.step), operands),
            event: l.event,
        };
    }
    Outcome {
        device: applied(d, number, w),
        event: false,
    }
}

// A store of a form and a value to a register.
#[tactic(auto, unfolding(crate::specs::Store::store_of))]
pub fn store(g: Geometry, d: Device, number: u32, form: u32, value: u32) -> Result<Outcome, Decline>
    ensures { answer_from d result ≡ store_of g d number form value }
{
    let layout = store_decline(g, d, number, form)?;
    Ok(store_accepted(layout, d, number, form, value))
}

#[tactic(auto, unfolding(crate::specs::Store::read_decline_of))]
fn read_decline(g: Geometry, d: Device, number: u32) -> Result<(), Decline>
    ensures { result ≡ read_decline_of g d number }
{
    common_decline(g, d, Lent::Nothing, 0)?;
    if Nvmcon2::NUMBER < number {
        return Err(Decline::Register);
    }
    Ok(())
}

// A read of a register: at key step 0 or 1 it changes nothing, at 2 or 3 it closes the key.
#[tactic(auto, unfolding(crate::specs::Store::register_read_of))]
pub fn register_read(g: Geometry, d: Device, number: u32) -> Result<RegisterValue, Decline>
    ensures { register_read_from d result ≡ register_read_of g d number }
{
    read_decline(g, d, number)?;
    Ok(RegisterValue {
        value: register(d, number),
        device: with_con(d, d.nvmcon.0, key_after_read(d.keystep), d.step),
    })
}
