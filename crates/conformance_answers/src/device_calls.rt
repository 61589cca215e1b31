// The calls that lend no list: the comparison and the calls on the device alone.
ghost use Rattle.std.specs.Prelude.{◌≡◌, ◌≤◌, eqb, IfErr, IfOk, IfSome};
ghost use Rattle.conformance_io.specs.Outcome.{IsOutcome};
ghost use Rattle.conformance_lists.specs.declared.no_outcome.NoOutcome.TheVariants.{NoCase};
ghost use Rattle.words.specs.Word.{pick};

use common_declines::possible::is_possible;
use conformance_cases::sign;
use conformance_io::numbers::Numbers;
use conformance_io::outcome::Outcome;
use conformance_lists::line::Line;
use conformance_lists::no_outcome::NoOutcome;
use geometry::banks::Geometry;
use geometry::layout::Layout;
use protection::is_protected;
use register_access::{register_read, store};
use sequence::comparison::compare;
use start_up::start_up;

pub fn compare_outcome<'a>(line: &mut Line<'a>) -> Result<Outcome<'a>, NoOutcome>
    ensures outcome { IfOk result (λ outcome. IsOutcome outcome) }
    ensures err { IfErr result (λ why. why ≡ NoCase) }
{
    let [first, second] = line.numbers::<2>()?;
    line.end()?;
    let bank = if compare(first, second).second { 2 } else { 1 };
    Ok(Outcome::only(Numbers::one(bank)))
}

pub fn possible_outcome<'a>(line: &mut Line<'a>) -> Result<Outcome<'a>, NoOutcome>
    ensures outcome { IfOk result (λ outcome. IsOutcome outcome) }
    ensures err { IfErr result (λ why. why ≡ NoCase) }
{
    let (g, d) = sign(line)?;
    line.end()?;
    let layout = Layout::of(g).ok_or(NoOutcome::NoCase)?;
    let is_so = u32::from(is_possible(layout, d));
    Ok(Outcome::only(Numbers::one(is_so)))
}

// The pages of a kind, 0 for boot and 1 for program.
fn pages_of(g: Geometry, kind: u32) -> Option<u32>
    ensures { IfSome result (λ pages. pages ≤ pick (eqb kind 1) g.p g.b) }
{
    match kind {
        0 => Some(g.b),
        1 => Some(g.p),
        _ => None,
    }
}

pub fn protected_outcome<'a>(line: &mut Line<'a>) -> Result<Outcome<'a>, NoOutcome>
    ensures outcome { IfOk result (λ outcome. IsOutcome outcome) }
    ensures err { IfErr result (λ why. why ≡ NoCase) }
{
    let (g, d) = sign(line)?;
    let [kind, side, page] = line.numbers::<3>()?;
    line.end()?;
    let pages = pages_of(g, kind).ok_or(NoOutcome::NoCase)?;
    let layout = Layout::of(g).ok_or(NoOutcome::NoCase)?;
    if 1 < side || pages <= page {
        return Err(NoOutcome::NoCase);
    }
    let is_so = u32::from(is_protected(layout, d, kind == 1, side == 1, page));
    Ok(Outcome::only(Numbers::one(is_so)))
}

pub fn store_outcome<'a>(line: &mut Line<'a>) -> Result<Outcome<'a>, NoOutcome>
    ensures { IfOk result (λ outcome. IsOutcome outcome) }
{
    let (g, d) = sign(line)?;
    let [number, form, value] = line.numbers::<3>()?;
    line.end()?;
    let given = store(g, d, number, form, value)?;
    let numbers = Numbers::one(0)
        .and_device(given.device.into())
        .and(u32::from(given.event));
    Ok(Outcome::only(numbers))
}

pub fn register_read_outcome<'a>(line: &mut Line<'a>) -> Result<Outcome<'a>, NoOutcome>
    ensures { IfOk result (λ outcome. IsOutcome outcome) }
{
    let (g, d) = sign(line)?;
    let number = line.number()?;
    line.end()?;
    let given = register_read(g, d, number)?;
    let numbers = Numbers::one(0)
        .and(given.value)
        .and_device(given.device.into());
    Ok(Outcome::only(numbers))
}

pub fn start_up_outcome<'a>(line: &mut Line<'a>) -> Result<Outcome<'a>, NoOutcome>
    ensures { IfOk result (λ outcome. IsOutcome outcome) }
{
    let (g, d) = sign(line)?;
    line.end()?;
    let started = start_up(g, d)?;
    Ok(Outcome::only(Numbers::one(0).and_device(started.into())))
}
