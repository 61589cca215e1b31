// What a store asks for, and which fields of a register take it: each condition is judged on the device before the store.
#![tactic(auto)]

ghost use Rattle.std.specs.Prelude.{◌≡◌, ◌+◌, ◌^◌, ◌<◌};
ghost use Rattle.words.specs.Word.{pick, has_of};
ghost use Rattle.register_fields.specs.Fields.{wanted_of, key_next_of, key_after_read_of, con_takes_of, pwp_takes_of};
ghost use Rattle.register_fields.specs.Fields.{bwp_takes_of, keyed_takes_of, swaplock_takes_of, con2_takes_of};

use device::numbers::{CLEAR, KEY1, KEY2, KEY3, PLAIN, SET};
use device::record::Device;
use device::registers::{Nvmbwp, Nvmcon, Nvmcon2, Nvmpwp};
use words::word::{clear, has};

// The value that a store of a form asks for: plain, clear, set, invert.
pub fn wanted(form: u32, old: u32, value: u32) -> u32
    ensures { result ≡ wanted_of form old value }
{
    match form {
        PLAIN => value,
        CLEAR => clear(old, value),
        SET => old | value,
        _ => old ^ value,
    }
}

// The key step after a store to NVMKEY.
#[tactic(auto, unfolding(crate::specs::Fields::key_next_of))]
pub fn key_next(keystep: u32, value: u32) -> u32
    ensures { result ≡ key_next_of keystep value }
{
    match (keystep, value) {
        (_, KEY1) => 1,
        (1, KEY2) => 2,
        (2, KEY3) => 3,
        _ => 0,
    }
}

// The key step after a register read.
#[tactic(auto, unfolding(crate::specs::Fields::key_after_read_of))]
pub fn key_after_read(keystep: u32) -> u32
    ensures { result ≡ key_after_read_of keystep }
{
    if keystep < 2 { keystep } else { 0 }
}

// The fields of NVMCON that take the wanted value.
#[tactic(auto, unfolding(crate::specs::Fields::con_takes_of))]
pub fn con_takes(d: Device) -> u32
    ensures { result ≡ con_takes_of d }
{
    if has(d.nvmcon.0, Nvmcon::WREN) {
        return Nvmcon::WREN;
    }
    if has(d.nvmcon2.0, Nvmcon2::SWAPLOCK) || d.keystep != 3 {
        return Nvmcon::WREN + Nvmcon::NVMOP;
    }
    Nvmcon::WREN + Nvmcon::NVMOP + Nvmcon::PFSWAP + Nvmcon::BFSWAP
}

// A lock bit and the fields under it take the wanted value where the bit is 1: so it never rises.
fn under_lock(value: u32, lock: u32, fields: u32) -> u32
    requires { lock + fields < 2 ^ 32 }
    ensures { result ≡ pick (has_of value lock) (lock + fields) 0 }
{
    if has(value, lock) { lock + fields } else { 0 }
}

// The fields of NVMPWP that take the wanted value.
#[tactic(auto, unfolding(crate::specs::Fields::pwp_takes_of))]
pub fn pwp_takes(d: Device) -> u32
    ensures { result ≡ pwp_takes_of d }
{
    if d.keystep != 3 {
        return 0;
    }
    under_lock(d.nvmpwp.0, Nvmpwp::PWPULOCK, Nvmpwp::PWP)
}

// The fields of NVMBWP that take the wanted value.
#[tactic(auto, unfolding(crate::specs::Fields::bwp_takes_of))]
pub fn bwp_takes(d: Device) -> u32
    ensures { result ≡ bwp_takes_of d }
{
    if d.keystep != 3 {
        return 0;
    }
    under_lock(d.nvmbwp.0, Nvmbwp::LBWPULOCK, Nvmbwp::LBWP)
        + under_lock(d.nvmbwp.0, Nvmbwp::UBWPULOCK, Nvmbwp::UBWP)
}

fn keyed_takes(d: Device) -> u32
    ensures { result ≡ keyed_takes_of d }
{
    if d.keystep != 3 {
        return 0;
    }
    Nvmcon2::NVMWS + Nvmcon2::NVMLPRD + Nvmcon2::NVMCRD + Nvmcon2::NVMVRD
}

fn swaplock_takes(d: Device) -> u32
    ensures { result ≡ swaplock_takes_of d }
{
    if d.nvmcon2.0 / 64 % 4 == 3 {
        0
    } else {
        Nvmcon2::SWAPLOCK
    }
}

// The fields of NVMCON2 that take the wanted value.
#[tactic(auto, unfolding(crate::specs::Fields::con2_takes_of))]
pub fn con2_takes(d: Device) -> u32
    ensures { result ≡ con2_takes_of d }
{
    Nvmcon2::NVMERS + Nvmcon2::NVMRETRY + keyed_takes(d) + swaplock_takes(d)
}
