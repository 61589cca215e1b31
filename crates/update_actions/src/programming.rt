// The quads of an update: where each stands, what it holds, and its actions.
// What takes a Layout, or asks for a quad of the bank, is no call of the updater: its callers judge their declines first.
ghost use Rattle.std.specs.Prelude.{◌≡◌, ◌<◌};
ghost use Rattle.update.specs.Actions.{upper_address_of, programmed_quad_of, new_quad_of, bank_quads_of, quad_action_of};

use crate::actions::launch_action;
use crate::new_bank::NewBank;
use device::numbers::{CLEAR, PLAIN, QUAD_PROGRAM};
use device::registers::{NVMADDR, NVMDATA0, NVMDATA1, NVMDATA2, NVMDATA3, Nvmcon};
use geometry::layout::Layout;
use map::{LOWER_PROGRAM, UPPER_BOOT};
use sequence::{next_sequence, sequence_quad};
use update::actions::Action;
use words::quad::quad_at;

// Where a quad of a bank stands on the upper side.
#[tactic(auto, unfolding(update::specs::Actions::upper_address_of))]
pub fn upper_address(layout: Layout, quad: u32) -> u32
    requires { quad < bank_quads_of layout.geometry }
    ensures { result ≡ upper_address_of layout.geometry quad }
{
    if quad < layout.boot_quads() {
        return UPPER_BOOT + 16 * quad;
    }
    LOWER_PROGRAM + layout.program_bytes() + 16 * (quad - layout.boot_quads())
}

// Quad i of the programming, by its number in the bank.
#[tactic(auto, unfolding(update::specs::Actions::programmed_quad_of))]
fn programmed_quad(layout: Layout, i: u32) -> u32
    requires { i < bank_quads_of layout.geometry }
    ensures { result ≡ programmed_quad_of layout.geometry i }
{
    let program = layout.geometry.p * layout.page_quads();
    if i < program {
        return layout.boot_quads() + i;
    }
    i - program
}

impl NewBank<'_> {
    // A quad of the new bank.
    #[tactic(auto, unfolding(update::specs::Actions::new_quad_of))]
    fn quad(self, quad: u32) -> [u32; 4]
        requires { quad < bank_quads_of self.layout.geometry }
        ensures { result ≡ new_quad_of self.entry.layout.geometry self.entry.image.now self.entry.word quad }
    {
        if quad == sequence_quad(self.layout) {
            return next_sequence(self.word);
        }
        quad_at(self.image, quad as usize)
    }

    // Action k of quad i of the programming.
    pub fn quad_action(self, i: u32, k: u32) -> Action
        requires i_bound { i < bank_quads_of self.layout.geometry }
        requires k_bound { k < 13 }
        ensures { result ≡ quad_action_of self.entry.layout.geometry (programmed_quad_of self.entry.layout.geometry i)
            (new_quad_of self.entry.layout.geometry self.entry.image.now self.entry.word (programmed_quad_of self.entry.layout.geometry i)) k }
    {
        let quad = programmed_quad(self.layout, i);
        program_action(self.layout, quad, self.quad(quad), k)
    }
}

// Action k of the programming of a quad.
#[tactic(auto, unfolding(update::specs::Actions::quad_action_of))]
fn program_action(layout: Layout, quad: u32, words: [u32; 4], k: u32) -> Action
    requires quad_bound { quad < bank_quads_of layout.geometry }
    requires k_bound { k < 13 }
    ensures { result ≡ quad_action_of layout.geometry quad words k }
{
    match k {
        0 => Action::Store(NVMADDR, PLAIN, upper_address(layout, quad)),
        1 => Action::Store(NVMDATA0, PLAIN, words[0]),
        2 => Action::Store(NVMDATA1, PLAIN, words[1]),
        3 => Action::Store(NVMDATA2, PLAIN, words[2]),
        4 => Action::Store(NVMDATA3, PLAIN, words[3]),
        11 => Action::Step,
        12 => Action::Store(Nvmcon::NUMBER, CLEAR, Nvmcon::WREN),
        _ => launch_action(QUAD_PROGRAM, k - 5),
    }
}
