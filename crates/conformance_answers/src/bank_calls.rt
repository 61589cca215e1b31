// The calls that only read lent banks.
ghost use Rattle.std.specs.Prelude.{◌≡◌, IfOk};
ghost use Rattle.conformance_io.specs.Outcome.{IsOutcome};

use bank_parts::{lower_bank, lower_bank_decline, page, page_decline};
use conformance_cases::{banks, geometry, list, sign};
use conformance_io::numbers::Numbers;
use conformance_io::outcome::Outcome;
use conformance_io::room::Rooms;
use conformance_lists::line::Line;
use conformance_lists::no_outcome::NoOutcome;
use device::registers::Nvmcon;
use words::word::has;

// The number of the bank that a part is. Where both are equal, BFSWAP names it.
fn bank_number(part: &[u32], one: &[u32], two: &[u32], is_swapped: bool) -> Option<u32> {
    let is_two = part == two;
    if is_swapped && is_two {
        Some(2)
    } else if part == one {
        Some(1)
    } else if is_two {
        Some(2)
    } else {
        None
    }
}

pub fn lower_bank_outcome<'a>(
    line: &mut Line<'a>,
    rooms: Rooms<'a>,
) -> Result<Outcome<'a>, NoOutcome>
    ensures { IfOk result (λ outcome. IsOutcome outcome) }
{
    let (g, d) = sign(line)?;
    let (one, two) = banks(line, rooms)?;
    line.end()?;
    lower_bank_decline(g, d, one, two)?;
    let part = lower_bank(g, d, one, two);
    let is_swapped = has(d.nvmcon.0, Nvmcon::BFSWAP);
    let number = bank_number(part, one, two, is_swapped).ok_or(NoOutcome::NoCase)?;
    Ok(Outcome::only(Numbers::one(0).and(number)))
}

// An index or a length of a list.
fn as_number(count: usize) -> Result<u32, NoOutcome>
    ensures { IfOk result (λ number. number ≡ count) }
{
    u32::try_from(count).map_err(|_| NoOutcome::NoCase)
}

// A page is told by where it starts in the bank, and its length.
pub fn page_outcome<'a>(line: &mut Line<'a>, spare: &mut [u32]) -> Result<Outcome<'a>, NoOutcome>
    ensures { IfOk result (λ outcome. IsOutcome outcome) }
{
    let g = geometry(line)?;
    let bank = list(line, spare)?;
    let number = line.number()?;
    line.end()?;
    let layout = page_decline(g, bank, number)?;
    let part = page(g, bank, number);
    let start = number as usize * layout.page_words() as usize;
    let rest = bank.get(start..).ok_or(NoOutcome::NoCase)?;
    if !rest.starts_with(part) {
        return Err(NoOutcome::NoCase);
    }
    let numbers = Numbers::one(0)
        .and(as_number(start)?)
        .and(as_number(part.len())?);
    Ok(Outcome::only(numbers))
}
