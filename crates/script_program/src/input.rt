// The input of a program that plays scripts.
ghost use Rattle.std.specs.Prelude.{◌≤◌, length};

use std::io::{Read, Stdin};

/// Reads until the buffer is full, the input ends or a read fails; gives how many bytes are read.
pub fn read_full(mut from: Stdin, input: &mut [u8]) -> usize
    ensures { result ≤ length input.new }
{
    let mut count = 0;
    while count < input.len() {
        let got = from.read(&mut input[count..]).unwrap_or(0);
        if got == 0 {
            break;
        }
        count += got;
    }
    count
}
