// What the next step of a running operation does: a step carries it out, and a reset tears it.
// What asks for Runs, or for room in the banks, is no call of the device: its callers decide their decline first.
ghost use Rattle.std.specs.Prelude.{◌≡◌, ℕ, Bool, ◌+◌, ◌*◌, ◌^◌, ◌<◌, ◌≤◌, true, length};
ghost use Rattle.std.specs.Option.{is_none, is_some, unwrap_or};
ghost use Rattle.words.specs.Word.{pick};
ghost use Rattle.words.specs.Quad.{quad_at, blank_quad};
ghost use Rattle.device.specs.Record.{bfswap, pfswap};
ghost use Rattle.device.specs.State.{lent};
ghost use Rattle.map.specs.Windows.{window_bytes_of, located, in_second_of};
ghost use Rattle.map.specs.Location.{stands_of};
ghost use Rattle.flash.specs.Effect.{Runs, step_location_of, blocked_of, source_fits_of, source_word_of, effect, effect_from, effect_at_of, effect_of};

use crate::lent::{Banks, Running};
use crate::write::Write;
use device::numbers::{
    LOWER_ERASE, NO_OPERATION, PAGE_ERASE, QUAD_PROGRAM, ROW_PROGRAM, UPPER_ERASE,
};
use device::record::Device;
use device::registers::Nvmcon;
use geometry::layout::Layout;
use map::Location;
use nvmop::{op, target};
use protection::is_boot_protected;
use words::quad::{is_blank, quad_at, quad_from};
use words::word::has;

// Whether the step aborts, and what it writes; the bank and the quad are those that it works on, also where it writes nothing.
#[derive(Clone, Copy, PartialEq, Eq, Debug)]
pub struct Effect {
    pub aborts: bool,
    pub write: Write,
}

// Where a quad of a program region stands.
fn in_region(upper: bool, quad: u32) -> Location
    requires { 16 * quad < 2 ^ 32 }
    ensures { stands_of result ≡ located true upper (16 * quad) }
{
    Location {
        program: true,
        upper,
        offset: 16 * quad,
    }
}

// Whether that quad is in a protected boot page.
#[tactic(auto, unfolding(crate::specs::Effect::blocked_of))]
fn is_blocked(layout: Layout, d: Device, l: Location) -> bool
    requires { l.offset + 16 ≤ window_bytes_of layout.geometry l.program }
    ensures { result ≡ blocked_of layout.geometry d (stands_of l) }
{
    !l.program && is_boot_protected(d, l.upper, l.page(layout))
}

// The word of the SRAM at which the data of a row's next quad begins.
fn source_word(d: Device) -> usize
    ensures { result ≡ source_word_of d }
{
    (d.launched.nvmsrcaddr as usize + 16 * (d.step as usize)) / 4
}

// Whether a row's data is aligned and lies in the SRAM.
#[tactic(auto, unfolding(crate::specs::Effect::source_fits_of))]
fn source_fits(d: Device, sram: usize) -> bool
    ensures { result ≡ source_fits_of d sram }
{
    d.launched.nvmsrcaddr % 4 == 0 && source_word(d) + 4 <= sram
}

// Whether bank 2 stands at a place.
pub fn second_at(d: Device, l: Location) -> bool
    ensures { result ≡ in_second_of (stands_of l) (bfswap d) (pfswap d) }
{
    l.is_second(
        has(d.nvmcon.0, Nvmcon::BFSWAP),
        has(d.nvmcon.0, Nvmcon::PFSWAP),
    )
}

// A quad as it is before the step.
pub fn old_quad(one: &[u32], two: &[u32], second: bool, quad: u32) -> [u32; 4]
    requires { (4 * quad + 4 ≤ length one.now) × (4 * quad + 4 ≤ length two.now) }
    ensures { result ≡ quad_at (pick second two.now one.now) quad }
{
    let bank = if second { two } else { one };
    quad_at(bank, quad as usize)
}

// The words that the next step writes over a quad that is not in a protected boot page. Where there are none it aborts.
#[tactic(auto, using(crate::proofs::EffectLaws::source_room), unfolding(crate::specs::Effect::effect_at_of))]
fn intended(d: Device, sram: &[u32], old: [u32; 4]) -> Option<[u32; 4]>
    ensures { (second : Bool) (quad : ℕ) → effect (is_none result) (is_some result) second quad (unwrap_or result blank_quad)
        ≡ effect_at_of d sram.now second quad old }
{
    let op = op(d);
    if ROW_PROGRAM < op {
        return Some([0xFFFF_FFFF; 4]);
    }
    if !is_blank(old) {
        return None;
    }
    if op == QUAD_PROGRAM {
        return Some(d.launched.nvmdata);
    }
    if !source_fits(d, sram.len()) {
        return None;
    }
    Some(quad_from(sram, source_word(d)))
}

// Where the quad of the next step stands. No call of the device: its callers show that an operation runs.
#[tactic(auto, using(crate::proofs::EffectLaws::steps_high), unfolding(crate::specs::Effect::step_at_of))]
pub fn step_location(layout: Layout, d: Device) -> Location
    requires { Runs layout.geometry d }
    ensures { stands_of result ≡ step_location_of layout.geometry d }
{
    let op = op(d);
    let step = d.step;
    let region = 8 * layout.geometry.q * layout.geometry.p;
    match op {
        NO_OPERATION..=PAGE_ERASE => {
            let target = target(layout, op, d.launched.nvmaddr).unwrap();
            Location {
                offset: target.offset + 16 * step,
                ..target
            }
        }
        LOWER_ERASE => in_region(false, step),
        UPPER_ERASE => in_region(true, step),
        _ if step < region => in_region(false, step),
        _ => in_region(true, step - region),
    }
}

impl Running<'_> {
    // Where the quad of the next step stands.
    pub fn step_location(self) -> Location
        ensures { stands_of result ≡ step_location_of self.entry.banks.layout.geometry self.entry.device }
    {
        step_location(self.banks.layout, self.device)
    }

    // What the next step does.
    #[tactic(auto, unfolding(crate::specs::Effect::effect_of))]
    pub fn next_effect(self, sram: &[u32]) -> Effect
        ensures { effect_from result
            ≡ effect_of self.entry.banks.layout.geometry (lent self.entry.device self.entry.banks.one self.entry.banks.two) sram.now }
    {
        let Banks { layout, one, two } = self.banks;
        let d = self.device;
        let l = self.step_location();
        let second = second_at(d, l);
        let quad = l.quad_index(layout);
        if is_blocked(layout, d, l) {
            return Effect {
                aborts: false,
                write: Write {
                    second,
                    quad,
                    words: None,
                },
            };
        }
        let words = intended(d, sram, old_quad(one, two, second, quad));
        Effect {
            aborts: words.is_none(),
            write: Write {
                second,
                quad,
                words,
            },
        }
    }
}
