// The update start.
#![tactic(auto)]

ghost use Rattle.std.specs.Prelude.{◌≡◌, IfOk};
ghost use Rattle.words.specs.Decline.{verdict_from};
ghost use Rattle.device.specs.State.{lent};
ghost use Rattle.update.specs.Answers.{started_from};
ghost use Rattle.update.specs.Start.{clash_of, sequence_allows_of, upper_free_of, start_decline_of, start_of};

use common_declines::common_decline::common_decline;
use device::record::Device;
use device::registers::{Nvmbwp, Nvmcon};
use flash::lent::Banks;
use geometry::banks::Geometry;
use geometry::layout::Layout;
use geometry::lent::Lent;
use protection::pwp;
use resets::compared;
use sequence::{cseq, is_valid, tseq};
use update::start::UpdateStart;
use update_actions::actions::total;
use update_actions::lower_word::lower_word;
use words::decline::Decline;
use words::word::has;

// Whether a bit position is at 1 in both halves.
#[tactic(auto, unfolding(update::specs::Start::clash_of))]
fn clashes(w: u32) -> bool
    ensures { result ≡ clash_of w }
{
    tseq(w) & cseq(w) != 0
}

// Whether decline 10 does not apply.
#[tactic(auto, unfolding(update::specs::Start::sequence_allows_of))]
fn sequence_allows(banks: Banks, d: Device) -> bool
    ensures { result ≡ sequence_allows_of banks.entry.layout.geometry (lent d banks.entry.one banks.entry.two) }
{
    let bfswap = has(d.nvmcon.0, Nvmcon::BFSWAP);
    // the lower bank of the banks exchanged is the other bank
    let exchanged = Banks {
        layout: banks.layout,
        one: banks.two,
        two: banks.one,
    };
    let other = lower_word(exchanged, d);
    is_valid(lower_word(banks, d))
        && compared(banks).second == bfswap
        && has(d.nvmcon.0, Nvmcon::PFSWAP) == bfswap
        && (is_valid(other) || clashes(other))
}

// Whether decline 12 does not apply.
#[tactic(auto, unfolding(update::specs::Start::upper_free_of))]
fn is_upper_free(layout: Layout, d: Device) -> bool
    ensures { result ≡ upper_free_of layout.geometry d }
{
    has(d.nvmbwp.0, Nvmbwp::UBWPULOCK) && pwp(d) < layout.program_bytes()
}

#[tactic(auto, unfolding(update::specs::Start::start_decline_of))]
fn start_decline(
    g: Geometry,
    d: Device,
    one: &[u32],
    two: &[u32],
    image: usize,
) -> Result<Layout, Decline>
    ensures verdict { verdict_from result ≡ start_decline_of g (lent d one.entry two.entry) image }
    ensures layout { IfOk result (λ layout. layout.geometry ≡ g) }
{
    let layout = common_decline(g, d, Lent::BanksAndImage(one.len(), two.len(), image), 0)?;
    if has(d.nvmcon.0, Nvmcon::WR) {
        return Err(Decline::Running);
    }
    let banks = Banks { layout, one, two };
    if !sequence_allows(banks, d) {
        return Err(Decline::Sequence);
    }
    if tseq(lower_word(banks, d)) == 65535 {
        return Err(Decline::LastSequence);
    }
    if !is_upper_free(layout, d) {
        return Err(Decline::Protection);
    }
    Ok(layout)
}

// Starts an update: it changes nothing.
#[tactic(auto, unfolding(update::specs::Start::start_of))]
pub fn start(
    g: Geometry,
    d: Device,
    one: &[u32],
    two: &[u32],
    image: &[u32],
) -> Result<UpdateStart, Decline>
    ensures { started_from result ≡ start_of g (lent d one.entry two.entry) image.now }
{
    let layout = start_decline(g, d, one, two, image.len())?;
    Ok(UpdateStart {
        place: 0,
        total: total(layout),
    })
}
