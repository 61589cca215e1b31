// The lines that a play prints.
// What asks for room is no call of the paper: its callers show it.
ghost use Rattle.std.specs.Prelude.{◌≡◌, ◌+◌, ◌≤◌, ◌<◌, length};
ghost use Rattle.std.proofs.lemmas.List.Edits.{sets};
ghost use Rattle.text.specs.Buffer.{saturated_of};
ghost use Rattle.text.specs.Digits.{width_of};
ghost use Rattle.text.specs.Lines.{column_of, decimal_of, line_of, lines_length_of};

use crate::buffer::put_front;
use crate::digits::{put_digits, width};

pub const BLANK: u8 = b' ';

pub const LINE_FEED: u8 = b'\n';

// What the line of a record says.
#[derive(Clone, Copy)]
pub struct Line {
    pub number: usize,
    pub answer: u32,
    pub con: u32,
    pub event: bool,
}

// The bytes of a line but for the digits of its number, and the most of a line: a number of 64 bits has 20 digits.
const BESIDE_NUMBER: usize = 14;

const LONGEST_LINE: usize = 20 + BESIDE_NUMBER;

// Writes digits and the byte that ends them; gives the position after it.
fn put_column(out: &mut [u8], at: usize, number: usize, base: usize, count: usize, end: u8) -> usize
    requires base_nonzero { (0 < base) × (base ≤ 16) }
    requires count_in_bounds { at + count + 1 ≤ length out.old }
    ensures { (out.new ≡ sets out.old at (column_of base number count end)) × (result ≡ at + count + 1) }
{
    put_digits(out, at, number, base, count);
    out[at + count] = end;
    at + count + 1
}

// Writes a decimal number and the byte that ends it; gives the position after it.
pub fn put_decimal(out: &mut [u8], at: usize, number: usize, end: u8) -> usize
    requires { at + width_of number + 1 ≤ length out.old }
    ensures { (out.new ≡ sets out.old at (decimal_of number end)) × (result ≡ at + width_of number + 1) }
{
    put_column(out, at, number, 10, width(number), end)
}

// Writes the line of a record at a position; gives the position after it.
pub fn put_line(out: &mut [u8], at: usize, line: Line) -> usize
    requires answer_bound { line.answer < 10 }
    requires number_in_bounds { at + width_of line.number + 14 ≤ length out.old }
    ensures { (out.new ≡ sets out.old at (line_of line.number line.answer line.con line.event))
        × (result ≡ at + width_of line.number + 14) }
{
    let second = put_decimal(out, at, line.number, BLANK);
    let third = put_decimal(out, second, line.answer as usize, BLANK);
    let fourth = put_column(out, third, line.con as usize, 16, 8, BLANK);
    put_decimal(out, fourth, usize::from(line.event), LINE_FEED)
}

// Writes the front of a record's line that has room at a position; gives the position after the whole line.
pub fn write_line(out: &mut [u8], at: usize, line: Line) -> usize
    requires { line.answer < 10 }
    ensures { (out.new ≡ sets out.old at (line_of line.number line.answer line.con line.event))
        × (result ≡ saturated_of (at + (width_of line.number + 14))) }
{
    let mut bytes = [0; LONGEST_LINE];
    let count = put_line(&mut bytes, 0, line);
    put_front(out, at, &bytes[..count]);
    at.saturating_add(count)
}

// The bytes of so many lines.
pub fn lines_length(lines: usize) -> usize
    ensures { result ≡ saturated_of (lines_length_of lines) }
{
    let mut bytes = 0usize;
    for i in 0..lines {
        bytes = bytes.saturating_add(width(i) + BESIDE_NUMBER);
    }
    bytes
}
