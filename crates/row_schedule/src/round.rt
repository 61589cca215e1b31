// The search round the list: how a record stands, which one it serves, and who begins to wait.
ghost use Rattle.std.specs.Prelude.{◌≡◌, false, ◌++◌, ◌≤◌, ◌<◌, get_or, IfSome};
ghost use Rattle.row_signs.specs.Signs.{waiting_of, queue_of};
ghost use Rattle.row_choice.specs.Choice.{records_of};
ghost use Rattle.row_schedule.specs.Round.{QueueSound, MarksNew, Searched, standing_of, search_from};
ghost use Rattle.row_schedule.specs.Calls.{stands_at};

use crate::judged::Judged;
use row_queue::{join, without};
use row_signs::queue::Queue;

// How a record stands to the search.
#[derive(Clone, Copy)]
pub enum Stand {
    // It waits already, or its turn is declined or done.
    Passed,
    // Its turn would set WR while K or more are set, so it begins to wait.
    Waits,
    Served,
}

// The record that the search serves, and which begin to wait.
#[derive(Clone, Copy)]
pub struct Search {
    pub found: Option<usize>,
    pub begins: [bool; 32],
}

impl Judged<'_> {
    // How record j stands, where K or more are set or not.
    fn stand(&self, full: bool, j: usize) -> Stand
        requires { j < self.now.row.now.count }
        ensures { result ≡ standing_of (stands_at self.now full j) }
    {
        let look = self.shared.look_at(self.row.signs[j]);
        let waits = self.row.queue.waiting().contains(&(j as u32));
        let free = look.can & !waits;
        let held = look.sets & full;
        if !free {
            return Stand::Passed;
        }
        if held { Stand::Waits } else { Stand::Served }
    }

    // The search: each record that it meets is looked at once.
    pub fn search(&self, full: bool) -> Search
        ensures told { Searched self.now.row.now.count self.now.row.now.last (stands_at self.now full) (search_from self.now.row.now.count result) }
        ensures listed { IfSome result.found (λ j. j < self.now.row.now.count) }
    {
        let n = self.row.count;
        let mut begins = [false; 32];
        for i in 0..n {
            let j = (self.row.last as usize + 1 + i) % n;
            match self.stand(full, j) {
                Stand::Served => {
                    return Search {
                        found: Some(j),
                        begins,
                    };
                }
                Stand::Waits => begins[j] = true,
                Stand::Passed => {}
            }
        }
        Search {
            found: None,
            begins,
        }
    }
}

// The queue with those that begin to wait, in record order.
pub fn joined_queue(queue: Queue, n: usize, begins: [bool; 32]) -> Queue
    requires n_bound { n ≤ 32 }
    requires queue_sound { QueueSound queue n }
    requires marks_new { MarksNew queue n begins }
    ensures { result ≡ queue_of (waiting_of queue ++ records_of (λ j. get_or begins j false) n) }
{
    let mut waiting = without(queue, queue.count as usize);
    for (j, begin) in begins[..n].iter().enumerate() {
        if *begin {
            waiting = join(waiting, j as u32);
        }
    }
    waiting
}
