// What is written for a line.
ghost use Rattle.std.specs.Prelude.{◌≤◌, length};

use conformance_calls::names::outcome;
use conformance_calls::written::put_outcome;
use conformance_io::outcome::Outcome;
use conformance_io::output::Output;
use conformance_io::room::Rooms;
use conformance_lists::line::Line;
use conformance_lists::no_outcome::NoOutcome;
use std::fmt;
use std::io::Stdout;

// The inputs of a line stand before a bar, and before one blank at the end.
fn inputs(line: &[u8]) -> Result<&str, NoOutcome> {
    let front = line.split(|byte| *byte == b'|').next().unwrap_or(line);
    let text = str::from_utf8(front).map_err(|_| NoOutcome::NoCase)?;
    Ok(text.strip_suffix(' ').unwrap_or(text))
}

fn outcome_of<'a>(
    line: &'a [u8],
    rooms: Rooms<'a>,
    spare: &mut [u32],
) -> Result<Outcome<'a>, NoOutcome> {
    outcome(&mut Line::of(inputs(line)?), rooms, spare)
}

// Writes what the call of a line gives, the number of its decline, or a question mark where the line is no case.
fn put_answer<W: fmt::Write>(
    f: &mut fmt::Formatter<W>,
    line: &[u8],
    rooms: Rooms,
    spare: &mut [u32],
) -> fmt::Result {
    match outcome_of(line, rooms, &mut *spare) {
        Ok(outcome) => put_outcome(f, outcome, spare)?,
        Err(why) => write!(f, "{why}")?,
    }
    writeln!(f)
}

/// Standard output, and room for the lists of a line.
#[derive(Drop)]
pub struct Answers<'a> {
    out: Output,
    one: &'a mut [u32],
    two: &'a mut [u32],
    spare: &'a mut [u32],
}

impl<'a> Answers<'a> {
    pub fn new(
        to: Stdout,
        one: &'a mut [u32],
        two: &'a mut [u32],
        spare: &'a mut [u32],
    ) -> Answers<'a> {
        Answers {
            out: Output::new(to),
            one,
            two,
            spare,
        }
    }

    fn put(&mut self, line: &[u8]) {
        let rooms = Rooms {
            one: &mut *self.one,
            two: &mut *self.two,
        };
        let mut f = fmt::Formatter::new(&mut self.out);
        let _ = put_answer(&mut f, line, rooms, &mut *self.spare);
    }

    /// Answers a line, and writes what is not yet written.
    pub fn put_last(&mut self, line: &[u8]) {
        self.put(line);
        self.out.flush();
    }

    /// Answers each line that has its line feed, and writes what is not yet written; gives where the first line without
    /// one starts. The answers are out before a read that may wait for who reads them.
    pub fn put_lines(&mut self, held: &[u8]) -> usize
        ensures { result ≤ length held.now }
    {
        let mut rest = 0;
        for line in held.split_inclusive(|byte| *byte == b'\n') {
            match line.strip_suffix(b"\n") {
                Some(text) => self.put(text),
                None => rest = line.len(),
            }
        }
        self.out.flush();
        held.len().saturating_sub(rest)
    }
}
