// The calls by their names, and what each gives.
ghost use Rattle.std.specs.Prelude.{IfOk};
ghost use Rattle.conformance_io.specs.Outcome.{IsOutcome};
ghost use Rattle.conformance_calls.specs.Names.{Named};

use conformance_answers::bank_calls::{lower_bank_outcome, page_outcome};
use conformance_answers::changing_calls::{flash_read_outcome, reset_outcome, step_outcome};
use conformance_answers::device_calls::{
    compare_outcome, possible_outcome, protected_outcome, register_read_outcome, start_up_outcome,
    store_outcome,
};
use conformance_answers::update_calls::{turn_outcome, update_start_outcome};
use conformance_io::outcome::Outcome;
use conformance_io::room::Rooms;
use conformance_lists::line::Line;
use conformance_lists::no_outcome::NoOutcome;

#[derive(Clone, Copy, Debug, PartialEq, Eq)]
pub enum Call {
    Compare,
    Possible,
    Protected,
    Store,
    RegisterRead,
    FlashRead,
    LowerBank,
    Page,
    Step,
    Reset,
    StartUp,
    UpdateStart,
    Turn,
}

impl Call {
    pub fn of(name: &[u8]) -> Option<Call>
        ensures { Named name.now result }
    {
        match name {
            b"compare" => Some(Call::Compare),
            b"possible" => Some(Call::Possible),
            b"protected" => Some(Call::Protected),
            b"store" => Some(Call::Store),
            b"register_read" => Some(Call::RegisterRead),
            b"flash_read" => Some(Call::FlashRead),
            b"lower_bank" => Some(Call::LowerBank),
            b"page" => Some(Call::Page),
            b"step" => Some(Call::Step),
            b"reset" => Some(Call::Reset),
            b"startup" => Some(Call::StartUp),
            b"update_start" => Some(Call::UpdateStart),
            b"turn" => Some(Call::Turn),
            _ => None,
        }
    }

    /// What the call gives for the inputs that are left in a line.
    pub fn outcome<'a>(
        self,
        line: &mut Line<'a>,
        rooms: Rooms<'a>,
        spare: &mut [u32],
    ) -> Result<Outcome<'a>, NoOutcome>
        ensures { IfOk result (λ outcome. IsOutcome outcome) }
    {
        match self {
            Call::Compare => compare_outcome(line),
            Call::Possible => possible_outcome(line),
            Call::Protected => protected_outcome(line),
            Call::Store => store_outcome(line),
            Call::RegisterRead => register_read_outcome(line),
            Call::FlashRead => flash_read_outcome(line, rooms, spare),
            Call::LowerBank => lower_bank_outcome(line, rooms),
            Call::Page => page_outcome(line, spare),
            Call::Step => step_outcome(line, rooms, spare),
            Call::Reset => reset_outcome(line, rooms, spare),
            Call::StartUp => start_up_outcome(line),
            Call::UpdateStart => update_start_outcome(line, rooms, spare),
            Call::Turn => turn_outcome(line, rooms, spare),
        }
    }
}

/// What the call that a line names gives.
pub fn outcome<'a>(
    line: &mut Line<'a>,
    rooms: Rooms<'a>,
    spare: &mut [u32],
) -> Result<Outcome<'a>, NoOutcome>
    ensures { IfOk result (λ outcome. IsOutcome outcome) }
{
    let call = Call::of(line.word()?.as_bytes()).ok_or(NoOutcome::NoCase)?;
    call.outcome(line, rooms, spare)
}
