// One turn of an update: from both banks its effect, and then the one write.
#![tactic(auto)]

ghost use Rattle.std.specs.Prelude.{◌≡◌, true, false, ◌+◌, ◌≤◌, ◌<◌, length};
ghost use Rattle.geometry.specs.Lent.{most_sram};
ghost use Rattle.geometry.specs.Banks.{in_range_of};
ghost use Rattle.device.specs.State.{state, lent};
ghost use Rattle.common_declines.specs.Possible.{possible_of};
ghost use Rattle.flash.specs.Write.{no_write, Fits};
ghost use Rattle.update.specs.Answers.{turned_from, turn_effect_from};
ghost use Rattle.update.specs.Turn.{Formed, act_of, turn_of, effected_of, turn_leaves};

use common_declines::common_decline::common_decline;
use device::outcome::Outcome;
use device::record::Device;
use device::registers::Nvmcon;
use flash::lent::{Banks, Running};
use flash::write::{Write, apply, no_write};
use geometry::banks::Geometry;
use geometry::lent::Lent;
use register_access::{may_store, store_accepted};
use update::actions::Action;
use update::turn::{TurnChange, TurnOutcome};
use update_actions::actions::total;
use update_actions::lower_word::lower_word;
use update_actions::new_bank::NewBank;
use words::decline::Decline;
use words::word::has;

// The effect of a turn whose action is carried out.
fn going(outcome: Outcome, write: Write, place: u32) -> TurnChange
    requires { place < 2000000 }
    ensures { result ≡ record { outcome = record { done = false; device = outcome.device; place = place + 1; event = outcome.event }; write = write } }
{
    TurnChange {
        outcome: TurnOutcome {
            done: false,
            device: outcome.device,
            place: place + 1,
            event: outcome.event,
        },
        write,
    }
}

// The effect of the action of a place, or its decline. No call of the updater: turn_effect judges the other declines first.
#[tactic(auto, unfolding(update::specs::Turn::act_of))]
fn act(
    banks: Banks,
    d: Device,
    sram: &[u32],
    place: u32,
    action: Action,
) -> Result<TurnChange, Decline>
    requires g_value { in_range_of banks.layout.geometry ≡ true }
    requires d_value { possible_of banks.layout.geometry d ≡ true }
    requires sram_len_bound { length sram.now ≤ most_sram }
    requires formed { Formed action }
    requires place_bound { place < 2000000 }
    ensures result_value { effected_of (lent d banks.entry.one banks.entry.two) (turn_effect_from d place result)
        ≡ act_of banks.entry.layout.geometry (lent d banks.entry.one banks.entry.two) sram.now place action }
    ensures fits { Fits banks.entry.one.now banks.entry.two.now (turn_effect_from d place result).write }
{
    match action {
        Action::Store(number, form, value) => {
            if !may_store(d, number) {
                return Err(Decline::Running);
            }
            Ok(going(
                store_accepted(banks.layout, d, number, form, value),
                no_write(),
                place,
            ))
        }
        Action::Step => {
            if !has(d.nvmcon.0, Nvmcon::WR) {
                return Err(Decline::Idle);
            }
            let running = Running { banks, device: d };
            let e = running.step_effect(sram);
            Ok(going(e.outcome, e.write, place))
        }
    }
}

// The effect of a turn: the action of its place and no other; done at the total and only there.
#[tactic(auto, unfolding(update::specs::Turn::turn_of, update::specs::Turn::turn_decline_of, update::specs::Turn::act_of))]
pub fn turn_effect(
    g: Geometry,
    d: Device,
    one: &[u32],
    two: &[u32],
    image: &[u32],
    sram: &[u32],
    place: u32,
) -> Result<TurnChange, Decline>
    ensures result_value { effected_of (lent d one.entry two.entry) (turn_effect_from d place result)
        ≡ turn_of g (lent d one.entry two.entry) image.now sram.now place }
    ensures fits { Fits one.now two.now (turn_effect_from d place result).write }
{
    let lent = Lent::BanksAndImage(one.len(), two.len(), image.len());
    let layout = common_decline(g, d, lent, sram.len())?;
    let total = total(layout);
    if total < place {
        return Err(Decline::Place);
    }
    if place == total {
        return Ok(TurnChange {
            outcome: TurnOutcome {
                done: true,
                device: d,
                place,
                event: false,
            },
            write: no_write(),
        });
    }
    let banks = Banks { layout, one, two };
    let new = NewBank {
        layout,
        image,
        word: lower_word(banks, d),
    };
    let action = new.action_at(place);
    act(banks, d, sram, place, action)
}

// One turn.
pub fn turn(
    g: Geometry,
    d: Device,
    one: &mut [u32],
    two: &mut [u32],
    image: &[u32],
    sram: &[u32],
    place: u32,
) -> Result<TurnOutcome, Decline>
    ensures { turn_leaves (turned_from d place result) one.new two.new
        ≡ turn_of g (state d one.old two.old) image.now sram.now place }
{
    // a match, since `?` would move the whole change once more
    match turn_effect(g, d, one, two, image, sram, place) {
        Ok(change) => {
            apply(one, two, change.write);
            Ok(change.outcome)
        }
        Err(decline) => Err(decline),
    }
}
