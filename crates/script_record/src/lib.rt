// Playing one record on lent banks.
#![tactic(auto)]

ghost use Rattle.std.specs.Prelude.{◌≡◌};
ghost use Rattle.device.specs.Answer.{answer_from};
ghost use Rattle.device.specs.State.{state, leaves};
ghost use Rattle.script_record.specs.Record.{record_after_of};

use device::outcome::Outcome;
use device::record::Device;
use flash::step::step;
use geometry::banks::Geometry;
use register_access::store;
use resets::reset;
use script_format::Record;
use words::decline::Decline;

// Plays one record. Inlined, so that the outcome of its store, step or reset is not copied on the way.
#[inline(always)]
#[tactic(auto, unfolding(crate::specs::Record::record_after_of))]
pub fn play_record(
    g: Geometry,
    d: Device,
    one: &mut [u32],
    two: &mut [u32],
    sram: &[u32],
    r: Record,
) -> Result<Outcome, Decline>
    ensures { leaves (answer_from d result) one.new two.new ≡ record_after_of g sram.now (state d one.old two.old) r }
{
    match r.kind {
        0 => store(g, d, r.number, r.form, r.value),
        1 => step(g, d, one, two, sram),
        _ => {
            let after = reset(g, d, one, two, sram, r.number, [0; 4])?;
            Ok(Outcome {
                device: after.device,
                event: false,
            })
        }
    }
}
