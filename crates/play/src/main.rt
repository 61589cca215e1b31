// Plays the service script of standard input after power-on, and prints a line for each record.
// A read or a write that fails is told on standard error; a failed write there is ignored.
#![tactic(auto)]

ghost use Rattle.std.specs.Prelude.{◌≤◌, length};
ghost use Rattle.script_program.specs.Program.{output_room};

use script_program::input::read_full;
use script_program::{LONGEST, OUTPUT, print};
use std::io::{Read, Stdin};

// One byte more than the longest script: where all are read, the script is too long.
const INPUT: usize = LONGEST + 1;

// Whether the input ends after the bytes that were read. A read that failed is no end.
fn is_end(mut from: Stdin, input: &mut [u8], count: usize) -> bool
    requires { count ≤ length input.old }
{
    if input.len() <= count {
        return true;
    }
    matches!(from.read(&mut input[count..]), Ok(0))
}

// Reads a script and writes what is printed for it; the buffer has room for every output.
fn play_input(rt: &HostRuntime, input: &mut [u8], out: &mut [u8])
    requires { output_room ≤ length out.old }
{
    let count = read_full(rt.stdin(), input);
    if !is_end(rt.stdin(), input, count) {
        let _ = eprintln!(rt; "play: standard input cannot be read");
        return;
    }
    let bytes = print(&input[..count], out);
    if rt.write_all(&out[..bytes]).is_err() {
        let _ = eprintln!(rt; "play: standard output cannot be written");
    }
}

// Lends the arrays as slices. In main itself their lengths would have to be counted out element by element.
fn run(rt: &HostRuntime, input: &mut [u8; INPUT], out: &mut [u8; OUTPUT]) {
    play_input(rt, input, out);
}

fn main(rt: HostRuntime) {
    let mut input = [0u8; INPUT];
    let mut out = [0u8; OUTPUT];
    run(&rt, &mut input, &mut out);
}
