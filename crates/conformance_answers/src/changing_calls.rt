// The calls that change lent banks: what each gives, with the changes after it where it is not declined.
ghost use Rattle.std.specs.Prelude.{IfOk};
ghost use Rattle.conformance_io.specs.Outcome.{IsOutcome};

use conformance_cases::{banks, list, sign};
use conformance_io::numbers::Numbers;
use conformance_io::outcome::{Changed, Outcome};
use conformance_io::room::Rooms;
use conformance_lists::line::Line;
use conformance_lists::no_outcome::NoOutcome;
use flash::step::step;
use reads::flash_read;
use resets::reset;

pub fn flash_read_outcome<'a>(
    line: &mut Line<'a>,
    rooms: Rooms<'a>,
    spare: &mut [u32],
) -> Result<Outcome<'a>, NoOutcome>
    ensures { IfOk result (λ outcome. IsOutcome outcome) }
{
    let (g, d) = sign(line)?;
    let before = line.words()?;
    let (one, two) = banks(line, rooms)?;
    let sram = list(line, spare)?;
    let address = line.number()?;
    line.end()?;
    let given = flash_read(g, d, &mut *one, &mut *two, sram, address)?;
    let numbers = Numbers::one(0)
        .and(given.word)
        .and(u32::from(given.event))
        .and_device(given.device.into());
    let changed = Changed { one, two, before };
    Ok(Outcome::changing(numbers, changed))
}

pub fn step_outcome<'a>(
    line: &mut Line<'a>,
    rooms: Rooms<'a>,
    spare: &mut [u32],
) -> Result<Outcome<'a>, NoOutcome>
    ensures { IfOk result (λ outcome. IsOutcome outcome) }
{
    let (g, d) = sign(line)?;
    let before = line.words()?;
    let (one, two) = banks(line, rooms)?;
    let sram = list(line, spare)?;
    line.end()?;
    let given = step(g, d, &mut *one, &mut *two, sram)?;
    let numbers = Numbers::one(0)
        .and_device(given.device.into())
        .and(u32::from(given.event));
    let changed = Changed { one, two, before };
    Ok(Outcome::changing(numbers, changed))
}

pub fn reset_outcome<'a>(
    line: &mut Line<'a>,
    rooms: Rooms<'a>,
    spare: &mut [u32],
) -> Result<Outcome<'a>, NoOutcome>
    ensures { IfOk result (λ outcome. IsOutcome outcome) }
{
    let (g, d) = sign(line)?;
    let before = line.words()?;
    let (one, two) = banks(line, rooms)?;
    let sram = list(line, spare)?;
    let kind = line.number()?;
    let mask = line.numbers::<4>()?;
    line.end()?;
    let given = reset(g, d, &mut *one, &mut *two, sram, kind, mask)?;
    let numbers = Numbers::one(0)
        .and_device(given.device.into())
        .and(given.reason.number());
    let changed = Changed { one, two, before };
    Ok(Outcome::changing(numbers, changed))
}
