// What a call that may give an event leaves of the device.
use crate::record::Device;

// The device after a store, a step or a record of a script, and whether there was an event.
#[derive(Clone, Copy)]
pub struct Outcome {
    pub device: Device,
    pub event: bool,
}
