// Reads cases from standard input, one to a line, and writes what each call gives. A failed write is ignored, and a failed
// read is the end of the input.
#![tactic(auto)]

mod answers;
mod input;

use answers::Answers;
use conformance_io::room::{LONGEST_LIST, MOST_LENT};
use input::answer_all;

// The longest line that can be a case, with its line feed.
const LONGEST_LINE: usize = 1048576;

// Lends the arrays as slices. Where they are made, their lengths would have to be counted out element by element.
fn answer_lent(
    rt: &HostRuntime,
    buffer: &mut [u8; LONGEST_LINE],
    one: &mut [u32; LONGEST_LIST],
    two: &mut [u32; LONGEST_LIST],
    spare: &mut [u32; MOST_LENT],
) {
    let mut answers = Answers::new(rt.stdout(), one, two, spare);
    answer_all(rt.stdin(), buffer, &mut answers);
}

fn main(rt: HostRuntime) {
    let mut buffer = [0; LONGEST_LINE];
    let mut one = [0; LONGEST_LIST];
    let mut two = [0; LONGEST_LIST];
    let mut spare = [0; MOST_LENT];
    answer_lent(&rt, &mut buffer, &mut one, &mut two, &mut spare);
}
