// What a call leaves, and what it answers.
ghost use Rattle.std.specs.Prelude.{◌≡◌};
ghost use Rattle.row_schedule.specs.Schedule.{answer_from};

use row_signs::queue::Queue;
use row_signs::sign::Sign;
use words::decline::Decline;

// The record that a call serves: its number, the record after its turn, and the turn's event.
#[derive(Clone, Copy)]
pub struct ServedSign {
    pub number: u32,
    pub sign: Sign,
    pub event: bool,
}

// Whom a call serves, and who waits then.
#[derive(Clone, Copy)]
pub struct Scheduled {
    pub served: Option<ServedSign>,
    pub queue: Queue,
}

// What a call answers: beside a decline queue and last served are as handed over.
#[repr(C)]
#[derive(Clone, Copy)]
pub struct ScheduleAnswer {
    pub decline: u32,
    pub idle: bool,
    pub served: u32,
    pub event: bool,
    pub queue: Queue,
    pub last: u32,
}

impl ScheduleAnswer {
    // Of a call with this queue and this record last served, by what it leaves or why it is declined.
    pub fn of(outcome: &Result<Scheduled, Decline>, queue: Queue, last: u32) -> Self
        ensures { result ≡ answer_from queue last outcome.now }
    {
        let none = ScheduleAnswer {
            decline: 0,
            idle: false,
            served: 0,
            event: false,
            queue,
            last,
        };
        let scheduled = match outcome {
            Ok(scheduled) => scheduled,
            Err(decline) => {
                return ScheduleAnswer {
                    decline: decline.number(),
                    ..none
                };
            }
        };
        match scheduled.served {
            Some(s) => ScheduleAnswer {
                served: s.number,
                event: s.event,
                queue: scheduled.queue,
                last: s.number,
                ..none
            },
            None => ScheduleAnswer {
                idle: true,
                queue: scheduled.queue,
                ..none
            },
        }
    }
}
