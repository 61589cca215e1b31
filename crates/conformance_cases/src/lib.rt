// What the calls take from a line: the geometry and the device, the banks, an image and an SRAM.
#![tactic(auto)]

ghost use Rattle.std.specs.Prelude.{◌≡◌, ◌+◌, ◌≤◌, IfErr, IfOk, length};
ghost use Rattle.conformance_lists.specs.declared.no_outcome.NoOutcome.TheVariants.{NoCase};

use conformance_io::records::{DeviceNumbers, geometry_of};
use conformance_io::room::{LONGEST_LIST, MOST_LENT, Rooms};
use conformance_lists::line::Line;
use conformance_lists::no_outcome::NoOutcome;
use device::record::Device;
use geometry::banks::Geometry;

pub fn geometry(line: &mut Line) -> Result<Geometry, NoOutcome>
    ensures { IfErr result (λ why. why ≡ NoCase) }
{
    Ok(geometry_of(line.numbers::<3>()?))
}

/// The geometry and the device of a sign.
pub fn sign(line: &mut Line) -> Result<(Geometry, Device), NoOutcome>
    ensures { IfErr result (λ why. why ≡ NoCase) }
{
    let geometry = geometry(line)?;
    let numbers = DeviceNumbers(line.numbers::<19>()?);
    Ok((geometry, numbers.into()))
}

/// A bank, an image or an SRAM.
pub fn list<'r>(line: &mut Line, room: &'r mut [u32]) -> Result<&'r mut [u32], NoOutcome>
    ensures ok { IfOk result (λ words. length words.now ≤ LONGEST_LIST) }
    ensures err { IfErr result (λ why. why ≡ NoCase) }
{
    line.list(LONGEST_LIST, room)
}

/// Both banks, each in a room of its own.
pub fn banks<'r>(
    line: &mut Line,
    rooms: Rooms<'r>,
) -> Result<(&'r mut [u32], &'r mut [u32]), NoOutcome>
    ensures one { IfOk result (λ banks. length banks.0.now ≤ LONGEST_LIST) }
    ensures two { IfOk result (λ banks. length banks.1.now ≤ LONGEST_LIST) }
    ensures err { IfErr result (λ why. why ≡ NoCase) }
{
    Ok((list(line, rooms.one)?, list(line, rooms.two)?))
}

/// An image and the SRAM after it, one after the other in a room.
pub fn image_and_sram<'r>(
    line: &mut Line,
    room: &'r mut [u32],
) -> Result<(&'r [u32], &'r [u32]), NoOutcome>
    ensures image { IfOk result (λ lists. length lists.0.now ≤ LONGEST_LIST) }
    ensures both { IfOk result (λ lists. length lists.0.now + length lists.1.now ≤ MOST_LENT) }
    ensures err { IfErr result (λ why. why ≡ NoCase) }
{
    let length = list(line, &mut *room)?.len();
    let (image, others) = room.split_at_mut_checked(length).ok_or(NoOutcome::NoCase)?;
    let sram = line.list(LONGEST_LIST.min(MOST_LENT - length), others)?;
    Ok((image, sram))
}
