// The script of an update, written into a lent buffer.
// What takes a Layout or asks for room here is no call of the script: its callers ask first.
#![tactic(auto)]

ghost use Rattle.std.specs.Prelude.{◌≡◌, ◌*◌, ◌≤◌, length};
ghost use Rattle.std.proofs.lemmas.List.Edits.{sets};
ghost use Rattle.device.specs.State.{lent};
ghost use Rattle.update.specs.Actions.{recorded, total_of};
ghost use Rattle.script_write.specs.Script.{script_of, write_script_decline_of, writing_from, write_script_of};

use device::record::Device;
use flash::lent::Banks;
use geometry::banks::Geometry;
use geometry::layout::Layout;
use script_format::{Record, put_record};
use update::actions::Action;
use update_actions::actions::total;
use update_actions::lower_word::lower_word;
use update_actions::new_bank::NewBank;
use update_start::start;
use words::decline::Decline;

// The bytes of a record.
const RECORD_BYTES: usize = 8;

// The record of an action.
fn record_of(action: Action) -> Record
    ensures { result ≡ recorded action }
{
    match action {
        Action::Store(number, form, value) => Record {
            kind: 0,
            number,
            form,
            unused: 0,
            value,
        },
        Action::Step => Record {
            kind: 1,
            number: 0,
            form: 0,
            unused: 0,
            value: 0,
        },
    }
}

// Writes the record of every action.
fn put_actions(out: &mut [u8], new: NewBank)
    requires { 8 * total_of new.layout.geometry ≤ length out.old }
    ensures { out.new ≡ sets out.old 0 (script_of new.entry.layout.geometry new.entry.image.now new.entry.word) }
{
    let layout = new.layout;
    for place in 0..total(layout) {
        let action = new.action_at(place);
        put_record(out, RECORD_BYTES * place as usize, record_of(action));
    }
}

// Start's declines, and then 17, by the length of the buffer.
#[tactic(auto, unfolding(crate::specs::Script::write_script_decline_of))]
fn write_script_decline(
    g: Geometry,
    d: Device,
    one: &[u32],
    two: &[u32],
    image: &[u32],
    buffer: usize,
) -> Result<(), Decline>
    ensures { result ≡ write_script_decline_of g (lent d one.entry two.entry) image.now buffer }
{
    let started = start(g, d, one, two, image)?;
    if buffer < RECORD_BYTES * started.total as usize {
        return Err(Decline::ScriptBuffer);
    }
    Ok(())
}

// Writes every action of an update that may start as a record, and gives their number; the bytes after the last record stay.
#[tactic(auto, unfolding(crate::specs::Script::write_script_of), using(crate::proofs::AcceptedLaws::went_holds))]
pub fn write_script(
    g: Geometry,
    d: Device,
    one: &[u32],
    two: &[u32],
    image: &[u32],
    out: &mut [u8],
) -> Result<u32, Decline>
    ensures { writing_from result out.new
        ≡ write_script_of g (lent d one.entry two.entry) image.now out.old }
{
    write_script_decline(g, d, one, two, image, out.len())?;
    let layout = Layout { geometry: g };
    let banks = Banks { layout, one, two };
    let new = NewBank {
        layout,
        image,
        word: lower_word(banks, d),
    };
    put_actions(out, new);
    Ok(total(layout))
}
