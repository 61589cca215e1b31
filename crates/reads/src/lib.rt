// Flash reads.
#![tactic(auto)]

ghost use Rattle.std.specs.Prelude.{◌≡◌, ◌<◌, true, length, IfOk};
ghost use Rattle.words.specs.Quad.{word_at};
ghost use Rattle.words.specs.Decline.{verdict_from, accepted_of};
ghost use Rattle.map.specs.Windows.{window_bytes_of, locate_of, word_index_of};
ghost use Rattle.map.specs.Location.{stands_of};
ghost use Rattle.device.specs.State.{state, lent, bank_of};
ghost use Rattle.common_declines.specs.Possible.{possible_of};
ghost use Rattle.flash.specs.Step.{step_decline_of};
ghost use Rattle.reads.specs.Read.{second_at_of, free_of, flash_read_decline_of, stepped, steps_of, reading_from, flash_read_of};

use common_declines::common_decline::common_decline;
use device::numbers::BOTH_ERASE;
use device::outcome::Outcome;
use device::record::Device;
use device::registers::Nvmcon;
use flash::effect::{second_at, step_location};
use flash::lent::Banks;
use flash::step::step_accepted;
use geometry::banks::Geometry;
use geometry::layout::Layout;
use geometry::lent::Lent;
use map::{Location, locate};
use nvmop::{length, op};
use words::decline::Decline;
use words::word::has;

// What a flash read gives: the word, and the device after it, with an event where it had to wait.
#[derive(Clone, Copy)]
pub struct FlashWord {
    pub word: u32,
    pub event: bool,
    pub device: Device,
}

// Whether no running operation targets the bank.
#[tactic(auto, unfolding(crate::specs::Read::free_of))]
fn is_free(layout: Layout, d: Device, second: bool) -> bool
    requires { possible_of layout.geometry d ≡ true }
    ensures { result ≡ free_of layout.geometry d second }
{
    if !has(d.nvmcon.0, Nvmcon::WR) {
        return true;
    }
    if op(d) == BOTH_ERASE {
        return false;
    }
    second_at(d, step_location(layout, d)) != second
}

// Where the word of a read stands that is not declined.
#[tactic(auto, unfolding(crate::specs::Read::flash_read_decline_of))]
fn read_location(
    g: Geometry,
    d: Device,
    one: usize,
    two: usize,
    sram: usize,
    address: u32,
) -> Result<(Layout, Location), Decline>
    ensures verdict { verdict_from result ≡ flash_read_decline_of g d one two sram address }
    ensures found { IfOk result (λ r. (r.0.geometry ≡ g) × (stands_of r.1 ≡ locate_of g address)) }
{
    let layout = common_decline(g, d, Lent::Banks(one, two), sram)?;
    match locate(layout, address) {
        Some(l) if address % 4 == 0 => Ok((layout, l)),
        _ => Err(Decline::Address),
    }
}

// Steps with an SRAM while WR is set, at most `count` of them, and whether the last of them gave an event. None is
// declined: each leaves a possible device.
fn steps(
    layout: Layout,
    d: Device,
    one: &mut [u32],
    two: &mut [u32],
    sram: &[u32],
    count: u32,
) -> Outcome
    requires { accepted_of (step_decline_of layout.geometry d (length one.old) (length two.old) (length sram.now)) ≡ true }
    ensures { stepped (state result.device one.new two.new) result.event
        ≡ steps_of layout.geometry sram.now count (state d one.old two.old) }
{
    let mut device = d;
    for _ in 0..count {
        let a = step_accepted(layout, device, one, two, sram);
        if !has(a.device.nvmcon.0, Nvmcon::WR) {
            return a;
        }
        device = a.device;
    }
    Outcome {
        device,
        event: false,
    }
}

// The word at a place of the four windows.
fn word_read(banks: Banks, d: Device, l: Location) -> u32
    requires { l.offset < window_bytes_of banks.layout.geometry l.program }
    ensures { result ≡ word_at (bank_of (lent d banks.entry.one banks.entry.two) (second_at_of d (stands_of l)))
        (word_index_of banks.entry.layout.geometry (stands_of l)) }
{
    let bank = if second_at(d, l) {
        banks.two
    } else {
        banks.one
    };
    bank[l.word_index(banks.layout) as usize]
}

// A flash read: of a bank that the running operation works on it first carries out the steps that remain.
#[tactic(auto, unfolding(crate::specs::Read::flash_read_of))]
pub fn flash_read(
    g: Geometry,
    d: Device,
    one: &mut [u32],
    two: &mut [u32],
    sram: &[u32],
    address: u32,
) -> Result<FlashWord, Decline>
    ensures { reading_from d result one.new two.new ≡ flash_read_of g (state d one.old two.old) sram.now address }
{
    let (layout, l) = read_location(g, d, one.len(), two.len(), sram.len(), address)?;
    let waited = if is_free(layout, d, second_at(d, l)) {
        Outcome {
            device: d,
            event: false,
        }
    } else {
        steps(layout, d, one, two, sram, length(layout, op(d)) - d.step)
    };
    let banks = Banks { layout, one, two };
    Ok(FlashWord {
        word: word_read(banks, waited.device, l),
        event: waited.event,
        device: waited.device,
    })
}
