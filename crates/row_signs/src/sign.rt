// The record of a sign.
ghost use Rattle.std.specs.Prelude.{◌≡◌};
ghost use Rattle.row_signs.specs.Signs.{no_sign};

use device::builders::power_on;
use device::record::Device;

// The device, the place in the update, and where the two banks start in the store.
#[repr(C)]
#[derive(Clone, Copy)]
pub struct Sign {
    pub device: Device,
    pub place: u32,
    pub one: u32,
    pub two: u32,
}

// The record of a row's free place.
pub fn no_sign() -> Sign
    ensures { result ≡ no_sign }
{
    Sign {
        device: power_on(),
        place: 0,
        one: 0,
        two: 0,
    }
}
