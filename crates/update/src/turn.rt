// What a turn answers, and what it writes.
use device::record::Device;
use flash::write::Write;

// The answer to a turn. At the total everything is as before.
#[derive(Clone, Copy)]
pub struct TurnOutcome {
    pub done: bool,
    pub device: Device,
    pub place: u32,
    pub event: bool,
}

// The answer, and at most one quad to write.
#[derive(Clone, Copy)]
pub struct TurnChange {
    pub outcome: TurnOutcome,
    pub write: Write,
}
