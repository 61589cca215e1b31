// What is written of a call's outcome. A flash read that waits may change a whole region, so the changes are held nowhere:
// the lists of the line tell the banks as they were, and are read again, one bank at a time.
ghost use Rattle.std.specs.Prelude.{◌≡◌, IsOk, IfOk};
ghost use Rattle.std.specs.Fmt.{IsPlainFormatter};
ghost use Rattle.conformance_calls.specs.Written.{BankWritten, ChangesWritten, OutcomeWritten};

use conformance_io::banks::BankChanges;
use conformance_io::outcome::{Changed, Outcome};
use conformance_lists::line::Line;
use std::fmt;

// The changes of a bank since a line's next list.
fn changes<'r>(
    bank: u32,
    after: &'r [u32],
    line: &mut Line,
    spare: &'r mut [u32],
) -> Result<BankChanges<'r>, fmt::Error>
    ensures bank { IfOk result (λ changes. changes.bank ≡ bank) }
    ensures after { IfOk result (λ changes. changes.after.now ≡ after.now) }
{
    let before = line.list(spare.len(), spare).map_err(|_| fmt::Error)?;
    Ok(BankChanges {
        bank,
        before,
        after,
    })
}

// Writes the changes of a bank, which were counted. Where there are some, the list is read again, and has as many.
fn put_bank<W: fmt::Write>(
    f: &mut fmt::Formatter<W>,
    bank: u32,
    after: &[u32],
    mut line: Line,
    spare: &mut [u32],
    count: usize,
) -> fmt::Result
    ensures { IsPlainFormatter f.old → IsOk result → BankWritten W.write_str_gives f.old bank after.now count f.new }
{
    if count == 0 {
        return Ok(());
    }
    let changes = changes(bank, after, &mut line, spare)?;
    if changes.count() != count {
        return Err(fmt::Error);
    }
    write!(f, "{changes}")
}

// Writes how many words changed, and each change.
fn put_changed<W: fmt::Write>(
    f: &mut fmt::Formatter<W>,
    changed: Changed,
    spare: &mut [u32],
) -> fmt::Result
    ensures { IsPlainFormatter f.old → IsOk result → ChangesWritten W.write_str_gives f.old changed.entry f.new }
{
    let Changed { one, two, before } = changed;
    let first = Line::of(before);
    let mut line = first;
    let in_one = changes(1, one, &mut line, &mut *spare)?.count();
    let second = line;
    let in_two = changes(2, two, &mut line, &mut *spare)?.count();
    write!(f, " {}", in_one + in_two)?;
    put_bank(f, 1, one, first, &mut *spare, in_one)?;
    put_bank(f, 2, two, second, spare, in_two)
}

/// Writes what a call gives, with room for a bank as it was.
pub fn put_outcome<W: fmt::Write>(
    f: &mut fmt::Formatter<W>,
    outcome: Outcome,
    spare: &mut [u32],
) -> fmt::Result
    ensures { IsPlainFormatter f.old → IsOk result → OutcomeWritten W.write_str_gives f.old outcome.entry f.new }
{
    write!(f, "{}", outcome.numbers)?;
    match outcome.changed {
        None => Ok(()),
        Some(changed) => put_changed(f, changed, spare),
    }
}
