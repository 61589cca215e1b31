// The exported calls on a device alone.
ghost use Rattle.std.specs.Prelude.{◌≡◌};
ghost use Rattle.device.specs.Builders.{power_on};
ghost use Rattle.register_access.specs.Store.{store_of, register_read_of};
ghost use Rattle.start_up.specs.StartUp.{start_up_of};
ghost use Rattle.yohrundel.specs.Answers.{store_answer_of, register_read_answer_of, start_up_answer_of};

use crate::answers::{DeviceAnswer, EventAnswer, RegisterReadAnswer};
use device::builders::power_on;
use device::record::Device;
use geometry::banks::Geometry;
use register_access::{register_read, store};
use start_up::start_up;

// The device after power-on, before any comparison of banks.
#[unsafe(no_mangle)]
pub extern "C" fn yohrundel_power_on_2() -> Device
    ensures { result ≡ power_on }
{
    power_on()
}

#[unsafe(no_mangle)]
pub extern "C" fn yohrundel_store_2(
    g: Geometry,
    d: Device,
    register: u32,
    form: u32,
    value: u32,
) -> EventAnswer
    ensures { result ≡ store_answer_of (store_of g d register form value) }
{
    // Matched here: by `EventAnswer::of` the device would be copied once more, and a store takes a tenth longer.
    match store(g, d, register, form, value) {
        Ok(o) => EventAnswer {
            decline: 0,
            event: o.event,
            device: o.device,
        },
        Err(decline) => EventAnswer {
            decline: decline.number(),
            event: false,
            device: d,
        },
    }
}

#[unsafe(no_mangle)]
pub extern "C" fn yohrundel_register_read_2(
    g: Geometry,
    d: Device,
    register: u32,
) -> RegisterReadAnswer
    ensures { result ≡ register_read_answer_of (register_read_of g d register) }
{
    match register_read(g, d, register) {
        Ok(r) => RegisterReadAnswer {
            decline: 0,
            value: r.value,
            device: r.device,
        },
        Err(decline) => RegisterReadAnswer {
            decline: decline.number(),
            value: 0,
            device: d,
        },
    }
}

#[unsafe(no_mangle)]
pub extern "C" fn yohrundel_start_up_2(g: Geometry, d: Device) -> DeviceAnswer
    ensures { result ≡ start_up_answer_of (start_up_of g d) }
{
    match start_up(g, d) {
        Ok(device) => DeviceAnswer { decline: 0, device },
        Err(decline) => DeviceAnswer {
            decline: decline.number(),
            device: d,
        },
    }
}
