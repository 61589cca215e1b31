// What the exported calls answer. In each, decline is 0 or the paper's number of why the call was declined.
use device::outcome::Outcome;
use device::record::Device;
use words::decline::Decline;

// The answer to a store and to a step.
#[repr(C)]
#[derive(Clone, Copy)]
pub struct EventAnswer {
    pub decline: u32,
    pub event: bool,
    pub device: Device,
}

impl EventAnswer {
    ghost use Rattle.std.specs.Prelude.{◌≡◌};
    ghost use Rattle.device.specs.Answer.{answer_from};
    ghost use Rattle.yohrundel.specs.Answers.{store_answer_of};

    // Of a call on this device.
    pub fn of(d: Device, outcome: Result<Outcome, Decline>) -> Self
        ensures { result ≡ store_answer_of (answer_from d outcome) }
    {
        match outcome {
            Ok(o) => EventAnswer {
                decline: 0,
                event: o.event,
                device: o.device,
            },
            Err(decline) => EventAnswer {
                decline: decline.number(),
                event: false,
                device: d,
            },
        }
    }
}

// The answer to a start-up.
#[repr(C)]
#[derive(Clone, Copy)]
pub struct DeviceAnswer {
    pub decline: u32,
    pub device: Device,
}

// The answer to a reset; the reason of its comparison by number, 4 where it is declined.
#[repr(C)]
#[derive(Clone, Copy)]
pub struct ResetAnswer {
    pub decline: u32,
    pub reason: u32,
    pub device: Device,
}

// The bank that the comparison puts lower, 1 or 2, and why, by number.
#[repr(C)]
#[derive(Clone, Copy)]
pub struct CompareAnswer {
    pub bank: u32,
    pub reason: u32,
}

#[repr(C)]
#[derive(Clone, Copy)]
pub struct RegisterReadAnswer {
    pub decline: u32,
    pub value: u32,
    pub device: Device,
}

#[repr(C)]
#[derive(Clone, Copy)]
pub struct FlashReadAnswer {
    pub decline: u32,
    pub word: u32,
    pub event: bool,
    pub device: Device,
}

// The number of the bank on the lower alias, 1 or 2, and how many words it has; both 0 where the request is declined.
#[repr(C)]
#[derive(Clone, Copy)]
pub struct LowerBankAnswer {
    pub decline: u32,
    pub bank: u32,
    pub length: usize,
}

// The word of the lent bank at which a page starts, and how many words it has; both 0 where the request is declined.
#[repr(C)]
#[derive(Clone, Copy)]
pub struct PageAnswer {
    pub decline: u32,
    pub offset: usize,
    pub length: usize,
}

// The four words of a torn mask.
#[repr(C)]
#[derive(Clone, Copy)]
pub struct Mask {
    pub words: [u32; 4],
}

#[repr(C)]
#[derive(Clone, Copy)]
pub struct UpdateStartAnswer {
    pub decline: u32,
    pub place: u32,
    pub total: u32,
}

// The bytes of the whole output: a shorter buffer holds the output's front.
#[repr(C)]
#[derive(Clone, Copy)]
pub struct PlayAnswer {
    pub decline: u32,
    pub bytes: usize,
    pub device: Device,
}

#[repr(C)]
#[derive(Clone, Copy)]
pub struct PlayLengthAnswer {
    pub decline: u32,
    pub bytes: usize,
}

#[repr(C)]
#[derive(Clone, Copy)]
pub struct PlanAnswer {
    pub decline: u32,
    pub wait: u32,
}

#[repr(C)]
#[derive(Clone, Copy)]
pub struct PageSheetAnswer {
    pub decline: u32,
    pub bytes: usize,
}

#[repr(C)]
#[derive(Clone, Copy)]
pub struct WriteScriptAnswer {
    pub decline: u32,
    pub records: u32,
}

#[repr(C)]
#[derive(Clone, Copy)]
pub struct SmallestAnswer {
    pub decline: u32,
    pub records: u32,
}

// What two images differ in: the kind of the answer by its number, then the place of the action that differs, or the differing words.
// What a kind does not use is 0.
#[repr(C)]
#[derive(Clone, Copy)]
pub struct ReachResult {
    pub decline: u32,
    pub kind: u32,
    pub place: u32,
    pub count: u32,
    pub lowest: u32,
    pub highest: u32,
}
