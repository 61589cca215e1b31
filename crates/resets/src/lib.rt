// Resets: the tear of a running step, the registers by kind, the comparison of the banks.
#![tactic(auto)]

ghost use Rattle.std.specs.Prelude.{◌≡◌, true, length, IfOk};
ghost use Rattle.words.specs.Decline.{verdict_from};
ghost use Rattle.sequence.specs.Comparison.{comparison_from};
ghost use Rattle.geometry.specs.Banks.{bank_words_of};
ghost use Rattle.common_declines.specs.Possible.{possible_of};
ghost use Rattle.device.specs.State.{state};
ghost use Rattle.resets.specs.Kind.{kind_number_of};
ghost use Rattle.resets.specs.Reset.{reset_decline_of, tear_of, comparison_of, reset_con_of, reset_device_of, explained_from, explained_of};

pub mod kind;

use crate::kind::Kind;
use common_declines::common_decline::common_decline;
use device::builders::{no_operands, power_on, with_con, with_launched};
use device::record::Device;
use device::registers::{Nvmbwp, Nvmcon, Nvmcon2, Nvmpwp, reset_value};
use flash::effect::old_quad;
use flash::lent::{Banks, Running};
use flash::write::{Write, apply};
use geometry::banks::Geometry;
use geometry::layout::Layout;
use geometry::lent::Lent;
use sequence::comparison::{Comparison, Reason, compare};
use sequence::sequence_index;
use words::decline::Decline;
use words::quad::merge_quad;
use words::word::{clear, has, merge};

// What a reset leaves of the device, with the reason of its comparison.
#[derive(Clone, Copy)]
pub struct AfterReset {
    pub device: Device,
    pub reason: Reason,
}

// The kind of a reset that is not declined.
#[tactic(auto, unfolding(crate::specs::Reset::reset_decline_of))]
fn reset_kind(
    g: Geometry,
    d: Device,
    one: usize,
    two: usize,
    sram: usize,
    kind: u32,
) -> Result<(Layout, Kind), Decline>
    ensures verdict { verdict_from result ≡ reset_decline_of g d one two sram kind }
    ensures known { IfOk result (λ r. (r.0.geometry ≡ g) × (kind ≡ kind_number_of r.1)) }
{
    let layout = common_decline(g, d, Lent::Banks(one, two), sram)?;
    Ok((layout, Kind::try_from(kind)?))
}

// Tears the quad of the next step where an operation runs.
fn tear(layout: Layout, d: Device, one: &mut [u32], two: &mut [u32], sram: &[u32], mask: [u32; 4])
    requires d_value { possible_of layout.geometry d ≡ true }
    requires one_len { (length one.old ≡ bank_words_of layout.geometry) × (length two.old ≡ bank_words_of layout.geometry) }
    ensures { state d one.new two.new ≡ tear_of layout.geometry (state d one.old two.old) sram.now mask }
{
    if !has(d.nvmcon.0, Nvmcon::WR) {
        return;
    }
    let banks = Banks { layout, one, two };
    let running = Running { banks, device: d };
    let write = running.next_effect(sram).write;
    if let Some(words) = write.words {
        let old = old_quad(one, two, write.second, write.quad);
        let torn = Write {
            words: Some(merge_quad(mask, words, old)),
            ..write
        };
        apply(one, two, torn);
    }
}

// The comparison of the two banks.
pub fn compared(banks: Banks) -> Comparison
    ensures { comparison_from result ≡ comparison_of banks.entry.layout.geometry banks.entry.one.now banks.entry.two.now }
{
    let i = sequence_index(banks.layout) as usize;
    compare(banks.one[i], banks.two[i])
}

// NVMCON after a reset, but for BFSWAP.
#[tactic(auto, unfolding(crate::specs::Reset::reset_con_of))]
fn reset_con(d: Device, kind: Kind) -> u32
    ensures { result ≡ reset_con_of d (kind_number_of kind) }
{
    let kept = clear(
        d.nvmcon.0,
        Nvmcon::WR + Nvmcon::WREN + Nvmcon::PFSWAP + Nvmcon::BFSWAP,
    );
    match kind {
        Kind::PowerOn => reset_value(Nvmcon::NUMBER),
        Kind::BrownOut if has(d.nvmcon.0, Nvmcon::WR) => kept | Nvmcon::LVDERR,
        Kind::BrownOut | Kind::Other => kept,
    }
}

// The device after a reset.
#[tactic(auto, unfolding(crate::specs::Reset::reset_device_of))]
fn reset_device(d: Device, kind: Kind, swap: bool) -> Device
    ensures { result ≡ reset_device_of d (kind_number_of kind) swap }
{
    let con = reset_con(d, kind) | if swap { Nvmcon::BFSWAP } else { 0 };
    match kind {
        Kind::PowerOn => with_con(power_on(), con, 0, 0),
        Kind::BrownOut | Kind::Other => {
            let kept = Device {
                nvmpwp: Nvmpwp(reset_value(Nvmpwp::NUMBER)),
                nvmbwp: Nvmbwp(reset_value(Nvmbwp::NUMBER)),
                nvmcon2: Nvmcon2(merge(Nvmcon2::NVMERS, d.nvmcon2.0, reset_value(Nvmcon2::NUMBER))),
                ..d
            };
            with_launched(with_con(kept, con, 0, 0), no_operands())
        }
    }
}

// A reset: kind 0 power-on, 1 brown-out, 2 other.
#[tactic(auto, unfolding(crate::specs::Reset::explained_of))]
pub fn reset(
    g: Geometry,
    d: Device,
    one: &mut [u32],
    two: &mut [u32],
    sram: &[u32],
    kind: u32,
    mask: [u32; 4],
) -> Result<AfterReset, Decline>
    ensures { explained_from d result one.new two.new ≡ explained_of g (state d one.old two.old) sram.now kind mask }
{
    let (layout, kind) = reset_kind(g, d, one.len(), two.len(), sram.len(), kind)?;
    tear(layout, d, one, two, sram, mask);
    let banks = Banks { layout, one, two };
    let c = compared(banks);
    Ok(AfterReset {
        device: reset_device(d, kind, c.second),
        reason: c.reason,
    })
}
