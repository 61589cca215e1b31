// The lines of the input, in a buffer whose first bytes are held.
// What asks for bytes within the buffer is no call of the device: its callers show it.
ghost use Rattle.std.specs.Prelude.{◌≤◌, IfSome, length};

use crate::answers::Answers;
use std::io::{Read, Stdin};

// Keeps the bytes from start to end; gives how many there are. Of a line that fills the whole buffer only a bar is kept, and
// a line that starts with a bar is no case, whatever follows.
fn keep(buffer: &mut [u8], start: usize, end: usize) -> usize
    requires { (start ≤ end) × (end ≤ length buffer.old) }
    ensures { result ≤ length buffer.new }
{
    if start != 0 {
        buffer.copy_within(start..end, 0);
        return end - start;
    }
    if end < buffer.len() {
        return end;
    }
    match buffer.first_mut() {
        None => 0,
        Some(first) => {
            *first = b'|';
            1
        }
    }
}

// Reads once, and answers what is whole then; gives how many bytes are held, none at the end of the input.
fn turn(from: &mut Stdin, buffer: &mut [u8], held: usize, answers: &mut Answers) -> Option<usize>
    requires { held ≤ length buffer.old }
    ensures { IfSome result (λ held. held ≤ length buffer.new) }
{
    let count = from.read(&mut buffer[held..]).unwrap_or(0);
    if count == 0 {
        return None;
    }
    let end = held + count;
    let mut start = 0;
    if buffer[held..end].contains(&b'\n') {
        start = answers.put_lines(&buffer[..end]);
    }
    Some(keep(buffer, start, end))
}

/// Answers every line of the input; the last one may lack its line feed.
pub fn answer_all(mut from: Stdin, buffer: &mut [u8], answers: &mut Answers) {
    let mut held = 0;
    for _ in 0..u64::MAX {
        match turn(&mut from, buffer, held, answers) {
            Some(more) => held = more,
            None => break,
        }
    }
    if held != 0 {
        answers.put_last(&buffer[..held]);
    }
}
