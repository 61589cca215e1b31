// The line of a page. What asks for room or for a small number here is a helper for the sheet, whose call asks for
// nothing.
#![tactic(auto)]

ghost use Rattle.std.specs.Prelude.{◌≡◌, ◌+◌, ◌≤◌, ◌<◌, length};
ghost use Rattle.std.proofs.lemmas.List.Edits.{sets};
ghost use Rattle.text.specs.Digits.{width_of};
ghost use Rattle.sheet_line.specs.Line.{right_column_of, letter_of, bank_number_of, kind_letter_of, side_letter_of, line_of};

use sheet_page::PageState;
use text::digits::width;
use text::lines::{BLANK, LINE_FEED, put_decimal};

// Writes a number right-aligned in so many columns, and the byte after it.
fn put_right_column(out: &mut [u8], at: usize, columns: usize, number: usize, end: u8)
    requires number_bound { width_of number ≤ columns }
    requires columns_in_bounds { at + columns + 1 ≤ length out.old }
    ensures { out.new ≡ sets out.old at (right_column_of columns number end) }
{
    // Blanks in all the columns, since each caller gives a fixed number of these: so many are stored at once, with no call.
    out[at..at + columns].fill(BLANK);
    let padding = columns - width(number);
    put_decimal(out, at + padding, number, end);
}

// Writes a letter, and the blank after it.
fn put_letter(out: &mut [u8], at: usize, letter: u8)
    requires { at + 2 ≤ length out.old }
    ensures { out.new ≡ sets out.old at (letter_of letter) }
{
    out[at] = letter;
    out[at + 1] = BLANK;
}

fn bank_number(second: bool) -> usize
    ensures { result ≡ bank_number_of second }
{
    if second { 2 } else { 1 }
}

fn kind_letter(program: bool) -> u8
    ensures { result ≡ kind_letter_of program }
{
    if program { b'P' } else { b'B' }
}

fn side_letter(upper: bool) -> u8
    ensures { result ≡ side_letter_of upper }
{
    if upper { b'U' } else { b'L' }
}

// The bytes of a line.
pub const LINE_BYTES: usize = 17;

// Writes the line of a page at a position.
pub fn put_line(out: &mut [u8], at: usize, s: PageState)
    requires page_bound { (s.page < 1000) × (s.quads < 10000) }
    requires at_in_bounds { at + 17 ≤ length out.old }
    ensures { out.new ≡ sets out.old at (line_of s) }
{
    put_right_column(out, at, 1, bank_number(s.second), BLANK);
    put_letter(out, at + 2, kind_letter(s.program));
    put_right_column(out, at + 4, 3, s.page, BLANK);
    put_letter(out, at + 8, side_letter(s.upper));
    put_right_column(out, at + 10, 1, usize::from(s.protected), BLANK);
    put_right_column(out, at + 12, 4, s.quads, LINE_FEED);
}
