// Plays service scripts for the tests. Each stands after its length in four bytes, little-endian; after what is printed
// for it stands a line of one hyphen. A failed write is ignored, and a failed read is the end of the input.
#![tactic(auto)]

ghost use Rattle.std.specs.Prelude.{◌≤◌, length};
ghost use Rattle.script_program.specs.Program.{output_room};

use script_program::input::read_full;
use script_program::{OUTPUT, print};

// No more of the input is read.
const INPUT: usize = 1048576;

// Plays one script; the buffer has room for every output.
fn play_one(rt: &impl Print, script: &[u8], out: &mut [u8])
    requires { output_room ≤ length out.old }
{
    let bytes = print(script, out);
    let _ = rt.write_all(&out[..bytes]);
    let _ = rt.write_all(b"-\n");
}

// Plays every script that is there whole.
fn play_all(rt: &impl Print, input: &[u8], out: &mut [u8])
    requires { output_room ≤ length out.old }
{
    let mut rest = input;
    while let Some((head, tail)) = rest.split_first_chunk::<4>() {
        let count = u32::from_le_bytes(*head) as usize;
        let Some((script, next)) = tail.split_at_checked(count) else {
            return;
        };
        play_one(rt, script, out);
        rest = next;
    }
}

// Reads the input and plays it; the buffer has room for every output.
fn play_input(rt: &HostRuntime, input: &mut [u8], out: &mut [u8])
    requires { output_room ≤ length out.old }
{
    let count = read_full(rt.stdin(), input);
    play_all(rt, &input[..count], out);
}

// Lends the arrays as slices. In main itself their lengths would have to be counted out element by element.
fn run(rt: &HostRuntime, input: &mut [u8; INPUT], out: &mut [u8; OUTPUT]) {
    play_input(rt, input, out);
}

fn main(rt: HostRuntime) {
    let mut input = [0u8; INPUT];
    let mut out = [0u8; OUTPUT];
    run(&rt, &mut input, &mut out);
}
