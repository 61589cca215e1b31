// The update's calls.
ghost use Rattle.std.specs.Prelude.{IfOk};
ghost use Rattle.conformance_io.specs.Outcome.{IsOutcome};

use conformance_cases::{banks, image_and_sram, list, sign};
use conformance_io::numbers::Numbers;
use conformance_io::outcome::{Changed, Outcome};
use conformance_io::room::Rooms;
use conformance_lists::line::Line;
use conformance_lists::no_outcome::NoOutcome;
use update_start::start;
use update_turn::turn;

pub fn update_start_outcome<'a>(
    line: &mut Line<'a>,
    rooms: Rooms<'a>,
    spare: &mut [u32],
) -> Result<Outcome<'a>, NoOutcome>
    ensures { IfOk result (λ outcome. IsOutcome outcome) }
{
    let (g, d) = sign(line)?;
    let (one, two) = banks(line, rooms)?;
    let image = list(line, spare)?;
    line.end()?;
    let given = start(g, d, one, two, image)?;
    let numbers = Numbers::one(0).and(given.place).and(given.total);
    Ok(Outcome::only(numbers))
}

pub fn turn_outcome<'a>(
    line: &mut Line<'a>,
    rooms: Rooms<'a>,
    spare: &mut [u32],
) -> Result<Outcome<'a>, NoOutcome>
    ensures { IfOk result (λ outcome. IsOutcome outcome) }
{
    let (g, d) = sign(line)?;
    let before = line.words()?;
    let (one, two) = banks(line, rooms)?;
    let (image, sram) = image_and_sram(line, spare)?;
    let place = line.number()?;
    line.end()?;
    let given = turn(g, d, &mut *one, &mut *two, image, sram, place)?;
    let numbers = Numbers::one(0)
        .and(u32::from(given.done))
        .and_device(given.device.into())
        .and(given.place)
        .and(u32::from(given.event));
    let changed = Changed { one, two, before };
    Ok(Outcome::changing(numbers, changed))
}
