// The device record.
ghost use Rattle.std.specs.Prelude.{◌≡◌};
ghost use Rattle.device.specs.Record.{register_of};

use crate::registers::{
    NVMADDR, NVMDATA0, NVMDATA1, NVMDATA2, NVMDATA3, NVMKEY, NVMSRCADDR, Nvmbwp, Nvmcon, Nvmcon2,
    Nvmpwp,
};

// What an operation works with: an address, four words of data and the address of a row's data.
#[repr(C)]
#[derive(Clone, Copy, PartialEq, Eq, Debug)]
pub struct Operands {
    pub nvmaddr: u32,
    pub nvmdata: [u32; 4],
    pub nvmsrcaddr: u32,
}

// The eleven registers, the key step, and of the running operation the step number and what it was launched with.
#[repr(C)]
#[derive(Clone, Copy, PartialEq, Eq, Debug)]
pub struct Device {
    pub nvmcon: Nvmcon,
    pub nvmkey: u32,
    pub nvmaddr: u32,
    pub nvmdata: [u32; 4],
    pub nvmsrcaddr: u32,
    pub nvmpwp: Nvmpwp,
    pub nvmbwp: Nvmbwp,
    pub nvmcon2: Nvmcon2,
    pub keystep: u32,
    pub step: u32,
    pub launched: Operands,
}

// A register by its number, and 0 where there is none.
#[tactic(auto, unfolding(crate::specs::Record::register_of))]
pub fn register(d: Device, number: u32) -> u32
    ensures { result ≡ register_of d number }
{
    match number {
        Nvmcon::NUMBER => d.nvmcon.0,
        NVMKEY => d.nvmkey,
        NVMADDR => d.nvmaddr,
        NVMDATA0 => d.nvmdata[0],
        NVMDATA1 => d.nvmdata[1],
        NVMDATA2 => d.nvmdata[2],
        NVMDATA3 => d.nvmdata[3],
        NVMSRCADDR => d.nvmsrcaddr,
        Nvmpwp::NUMBER => d.nvmpwp.0,
        Nvmbwp::NUMBER => d.nvmbwp.0,
        Nvmcon2::NUMBER => d.nvmcon2.0,
        _ => 0,
    }
}
