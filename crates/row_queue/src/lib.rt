// The queue of a row: an entry joins it, and one leaves it.
// What asks for room here is no call of the row: schedule_row judges decline 19 first.
#![tactic(auto)]

ghost use Rattle.std.specs.Prelude.{◌≡◌, ◌≤◌, ◌<◌};
ghost use Rattle.row_queue.specs.Waiting.{joined, without_of};

use row_signs::queue::Queue;

// A record joins the end.
pub fn join(mut queue: Queue, number: u32) -> Queue
    requires { queue.count < 32 }
    ensures { result ≡ joined queue number }
{
    queue.numbers[queue.count as usize] = number;
    queue.count += 1;
    queue
}

// The queue without an entry; what stands past its count is 0 then.
pub fn without(queue: Queue, p: usize) -> Queue
    requires { queue.count ≤ 32 }
    ensures { result ≡ without_of queue p }
{
    let mut numbers = queue.numbers;
    let mut count = queue.count as usize;
    if p < count {
        numbers.copy_within(p + 1..count, p);
        count -= 1;
    }
    numbers[count..].fill(0);
    Queue {
        count: count as u32,
        numbers,
    }
}
