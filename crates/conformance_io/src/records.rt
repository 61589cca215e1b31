// The geometry and the device as numbers of a case.
ghost use Rattle.std.specs.Prelude.{◌≡◌};
ghost use Rattle.conformance_io.specs.Records.{geometry_of, device_of};

use device::record::{Device, Operands};
use device::registers::{Nvmbwp, Nvmcon, Nvmcon2, Nvmpwp};
use geometry::banks::Geometry;

/// Q, B and P.
pub fn geometry_of(numbers: [u32; 3]) -> Geometry
    ensures { result ≡ geometry_of numbers }
{
    let [q, b, p] = numbers;
    Geometry { q, b, p }
}

/// A device by its nineteen numbers: the registers by theirs, the key step, the step number and what was launched.
#[derive(Clone, Copy)]
pub struct DeviceNumbers(pub [u32; 19]);

impl From<DeviceNumbers> for Device {
    ghost from_gives = { λ numbers d. d ≡ device_of numbers.0 };

    fn from(numbers: DeviceNumbers) -> Device {
        let [
            nvmcon,
            nvmkey,
            nvmaddr,
            data0,
            data1,
            data2,
            data3,
            nvmsrcaddr,
            nvmpwp,
            nvmbwp,
            nvmcon2,
            keystep,
            step,
            launched_address,
            launched0,
            launched1,
            launched2,
            launched3,
            launched_source,
        ] = numbers.0;
        Device {
            nvmcon: Nvmcon(nvmcon),
            nvmkey,
            nvmaddr,
            nvmdata: [data0, data1, data2, data3],
            nvmsrcaddr,
            nvmpwp: Nvmpwp(nvmpwp),
            nvmbwp: Nvmbwp(nvmbwp),
            nvmcon2: Nvmcon2(nvmcon2),
            keystep,
            step,
            launched: Operands {
                nvmaddr: launched_address,
                nvmdata: [launched0, launched1, launched2, launched3],
                nvmsrcaddr: launched_source,
            },
        }
    }
}

impl From<Device> for DeviceNumbers {
    ghost from_gives = { λ d numbers. device_of numbers.0 ≡ d };

    fn from(d: Device) -> DeviceNumbers {
        let [data0, data1, data2, data3] = d.nvmdata;
        let launched = d.launched;
        let [launched0, launched1, launched2, launched3] = launched.nvmdata;
        DeviceNumbers([
            d.nvmcon.0,
            d.nvmkey,
            d.nvmaddr,
            data0,
            data1,
            data2,
            data3,
            d.nvmsrcaddr,
            d.nvmpwp.0,
            d.nvmbwp.0,
            d.nvmcon2.0,
            d.keystep,
            d.step,
            launched.nvmaddr,
            launched0,
            launched1,
            launched2,
            launched3,
            launched.nvmsrcaddr,
        ])
    }
}
