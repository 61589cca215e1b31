// One step of the running operation.
// What asks that no decline applies is no call of the device: its callers decide their decline first.
ghost use Rattle.std.specs.Prelude.{◌≡◌, IfOk, true, length};
ghost use Rattle.words.specs.Decline.{verdict_from, accepted_of};
ghost use Rattle.device.specs.Answer.{answer_from};
ghost use Rattle.device.specs.State.{state, lent, leaves};
ghost use Rattle.flash.specs.Step.{step_decline_of, advanced, ended_of, advance_of, step_effect_from, step_effect_of, step_of};

use crate::lent::{Banks, Running};
use crate::write::{Write, apply};
use common_declines::common_decline::common_decline;
use device::builders::{no_operands, with_con, with_launched};
use device::outcome::Outcome;
use device::record::Device;
use device::registers::Nvmcon;
use geometry::banks::Geometry;
use geometry::layout::Layout;
use geometry::lent::Lent;
use nvmop::{length, op};
use words::decline::Decline;
use words::word::{clear, has};

// What a step leaves of the device, and what it writes.
#[derive(Clone, Copy)]
pub struct StepEffect {
    pub outcome: Outcome,
    pub write: Write,
}

#[tactic(auto, unfolding(crate::specs::Step::step_decline_of))]
fn step_decline(
    g: Geometry,
    d: Device,
    one: usize,
    two: usize,
    sram: usize,
) -> Result<Layout, Decline>
    ensures verdict { verdict_from result ≡ step_decline_of g d one two sram }
    ensures layout { IfOk result (λ layout. layout.geometry ≡ g) }
{
    let layout = common_decline(g, d, Lent::Banks(one, two), sram)?;
    if !has(d.nvmcon.0, Nvmcon::WR) {
        return Err(Decline::Idle);
    }
    Ok(layout)
}

// The device after an operation.
fn ended(d: Device, con: u32) -> Device
    ensures { result ≡ ended_of d con }
{
    with_launched(with_con(d, con, d.keystep, 0), no_operands())
}

impl Running<'_> {
    // What a step leaves that aborts or not.
    #[tactic(auto, using(crate::proofs::EffectLaws::steps_high), unfolding(crate::specs::Step::advance_of))]
    fn advance(self, aborts: bool) -> Outcome
        ensures { advanced result.device result.event ≡ advance_of self.entry.banks.layout.geometry self.entry.device aborts }
    {
        let d = self.device;
        let con = d.nvmcon.0;
        let next = d.step + 1;
        if aborts {
            return Outcome {
                device: ended(d, clear(con, Nvmcon::WR)),
                event: true,
            };
        }
        if next == length(self.banks.layout, op(d)) {
            return Outcome {
                device: ended(d, clear(con, Nvmcon::WR + Nvmcon::WRERR)),
                event: true,
            };
        }
        Outcome {
            device: with_con(d, con, d.keystep, next),
            event: false,
        }
    }

    // A step that is not declined: one quad, ascending. Inlined, as the two functions below: each copies the device once more where it is
    // a function of its own.
    #[inline(always)]
    pub fn step_effect(self, sram: &[u32]) -> StepEffect
        ensures { step_effect_from result
            ≡ step_effect_of self.entry.banks.layout.geometry (lent self.entry.device self.entry.banks.one self.entry.banks.two) sram.now }
    {
        let e = self.next_effect(sram);
        StepEffect {
            outcome: self.advance(e.aborts),
            write: e.write,
        }
    }
}

// A step that is not declined, with its write. No call of the device: its callers judge the declines first.
#[inline(always)]
#[tactic(auto, unfolding(crate::specs::Step::step_of))]
pub fn step_accepted(
    layout: Layout,
    d: Device,
    one: &mut [u32],
    two: &mut [u32],
    sram: &[u32],
) -> Outcome
    requires { accepted_of (step_decline_of layout.geometry d (length one.old) (length two.old) (length sram.now)) ≡ true }
    ensures { leaves (advanced result.device result.event) one.new two.new ≡ step_of layout.geometry (state d one.old two.old) sram.now }
{
    let banks = Banks { layout, one, two };
    let e = Running { banks, device: d }.step_effect(sram);
    apply(one, two, e.write);
    e.outcome
}

// One step of the running operation.
#[inline(always)]
#[tactic(auto, unfolding(crate::specs::Step::step_of))]
pub fn step(
    g: Geometry,
    d: Device,
    one: &mut [u32],
    two: &mut [u32],
    sram: &[u32],
) -> Result<Outcome, Decline>
    ensures { leaves (answer_from d result) one.new two.new ≡ step_of g (state d one.old two.old) sram.now }
{
    let layout = step_decline(g, d, one.len(), two.len(), sram.len())?;
    Ok(step_accepted(layout, d, one, two, sram))
}
