// The device after a change of some of its registers.
ghost use Rattle.std.specs.Prelude.{◌≡◌};
ghost use Rattle.device.specs.Builders.{power_on, with_con, with_launched};
ghost use Rattle.device.specs.Record.{operands_of, no_operands};

use crate::record::{Device, Operands};
use crate::registers::{
    NVMADDR, NVMDATA0, NVMDATA1, NVMDATA2, NVMDATA3, NVMKEY, NVMSRCADDR, Nvmbwp, Nvmcon, Nvmcon2,
    Nvmpwp, reset_value,
};

// What registers 2 to 7 hold.
pub fn operands(d: Device) -> Operands
    ensures { result ≡ operands_of d }
{
    let nvmdata = d.nvmdata;
    Operands {
        nvmaddr: d.nvmaddr,
        nvmdata,
        nvmsrcaddr: d.nvmsrcaddr,
    }
}

// What was launched while no operation runs.
pub fn no_operands() -> Operands
    ensures { result ≡ no_operands }
{
    Operands {
        nvmaddr: 0,
        nvmdata: [0; 4],
        nvmsrcaddr: 0,
    }
}

// The device after power-on, before the comparison of the banks.
pub fn power_on() -> Device
    ensures { result ≡ power_on }
{
    Device {
        nvmcon: Nvmcon(reset_value(Nvmcon::NUMBER)),
        nvmkey: reset_value(NVMKEY),
        nvmaddr: reset_value(NVMADDR),
        nvmdata: [
            reset_value(NVMDATA0),
            reset_value(NVMDATA1),
            reset_value(NVMDATA2),
            reset_value(NVMDATA3),
        ],
        nvmsrcaddr: reset_value(NVMSRCADDR),
        nvmpwp: Nvmpwp(reset_value(Nvmpwp::NUMBER)),
        nvmbwp: Nvmbwp(reset_value(Nvmbwp::NUMBER)),
        nvmcon2: Nvmcon2(reset_value(Nvmcon2::NUMBER)),
        keystep: 0,
        step: 0,
        launched: no_operands(),
    }
}

// The device with another NVMCON, key step and step number.
pub fn with_con(d: Device, con: u32, keystep: u32, step: u32) -> Device
    ensures { result ≡ with_con d con keystep step }
{
    Device {
        nvmcon: Nvmcon(con),
        keystep,
        step,
        ..d
    }
}

// The device with other operands of the running operation.
pub fn with_launched(d: Device, launched: Operands) -> Device
    ensures { result ≡ with_launched d launched }
{
    Device { launched, ..d }
}
