// The choice: how many have WR set, the queue's first that can be served, else as the search round the list has it.
ghost use Rattle.std.specs.Prelude.{◌≡◌, ◌<◌, ◌≤◌, length, IfSome};
ghost use Rattle.device.specs.Record.{running};
ghost use Rattle.row_signs.specs.Signs.{sign_at};
ghost use Rattle.row_choice.specs.Choice.{count_of, ready_of};
ghost use Rattle.row_schedule.specs.Round.{round_of, choice_from};
ghost use Rattle.row_schedule.specs.Schedule.{choice_of};
ghost use Rattle.row_schedule.specs.Calls.{some_below, known_at, stands_at};

use crate::judged::Judged;
use crate::round::joined_queue;
use device::registers::Nvmcon;
use row_queue::without;
use row_signs::queue::Queue;
use row_signs::row::Row;
use words::word::has;

// The record that is served, and who waits then.
#[derive(Clone, Copy)]
pub struct Choice {
    pub served: Option<usize>,
    pub queue: Queue,
}

// How many of a row's records have WR set.
fn set_count(row: &Row) -> usize
    requires { row.now.count ≤ 32 }
    ensures { result ≡ count_of (λ j. running (sign_at row.now.signs j).device) row.now.count }
{
    row.signs[..row.count]
        .iter()
        .filter(|s| has(s.device.nvmcon.0, Nvmcon::WR))
        .count()
}

impl Judged<'_> {
    // The position in the queue of the first sign that can be served.
    fn first_ready(&self) -> Option<usize>
        ensures { result ≡ some_below (ready_of (known_at self.now)) (length (known_at self.now).waiting) }
    {
        for (p, number) in self.row.queue.waiting().iter().enumerate() {
            if self.shared.look_at(self.row.signs[*number as usize]).can {
                return Some(p);
            }
        }
        None
    }

    // The choice as the search has it.
    fn from_round(&self, full: bool) -> Choice
        ensures value { choice_from self.now.row.now.count result
            ≡ round_of self.now.row.now.count self.now.row.now.queue self.now.row.now.last (stands_at self.now full) }
        ensures listed { IfSome result.served (λ j. j < self.now.row.now.count) }
    {
        let round = self.search(full);
        Choice {
            served: round.found,
            queue: joined_queue(self.row.queue, self.row.count, round.begins),
        }
    }

    // Whom the call serves, and who waits then.
    pub fn choose(&self) -> Choice
        ensures value { choice_from self.now.row.now.count result ≡ choice_of (known_at self.now) }
        ensures listed { IfSome result.served (λ j. j < self.now.row.now.count) }
    {
        let full = self.k as usize <= set_count(self.row);
        if full {
            return self.from_round(full);
        }
        match self.first_ready() {
            Some(p) => Choice {
                served: Some(self.row.queue.numbers[p] as usize),
                queue: without(self.row.queue, p),
            },
            None => self.from_round(full),
        }
    }
}
