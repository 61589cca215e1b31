// The actions of an update, by place.
// What takes a Layout, or asks for a place of its list, is no call of the updater: its callers judge their declines first.
ghost use Rattle.std.specs.Prelude.{◌≡◌, ◌+◌, ◌<◌, get_or};
ghost use Rattle.geometry.specs.Banks.{pages_of};
ghost use Rattle.update.specs.declared.actions.Action.TheVariants.{Step};
ghost use Rattle.update.specs.Actions.{prologue, stored, launch_stores, erased_page_of, total_of, page_action_of, action_at_of};

use crate::new_bank::NewBank;
use crate::programming::upper_address;
use device::numbers::{CLEAR, KEY1, KEY2, KEY3, PAGE_ERASE, PLAIN, SET};
use device::registers::{NVMADDR, NVMKEY, Nvmbwp, Nvmcon};
use geometry::layout::Layout;
use update::actions::Action;

// How many actions an update has.
#[tactic(auto, unfolding(update::specs::Actions::total_of))]
pub fn total(layout: Layout) -> u32
    ensures { result ≡ total_of layout.geometry }
{
    12 + 8 * layout.pages() + 112 * (layout.pages() * layout.geometry.q)
}

// The prologue: errors cleared by a launch of NVMOP 0, and the upper alias freed.
fn prologue_action(place: u32) -> Action
    requires { place < 12 }
    ensures { result ≡ get_or prologue place Step }
{
    match place {
        0 => Action::Store(Nvmcon::NUMBER, CLEAR, Nvmcon::WREN),
        1 => Action::Store(Nvmcon::NUMBER, PLAIN, 0),
        2 => Action::Store(Nvmcon::NUMBER, SET, Nvmcon::WREN),
        3 => Action::Store(NVMKEY, PLAIN, KEY1),
        4 => Action::Store(NVMKEY, PLAIN, KEY2),
        5 => Action::Store(NVMKEY, PLAIN, KEY3),
        6 => Action::Store(Nvmcon::NUMBER, SET, Nvmcon::WR),
        7 => Action::Store(Nvmcon::NUMBER, CLEAR, Nvmcon::WREN),
        8 => Action::Store(NVMKEY, PLAIN, KEY1),
        9 => Action::Store(NVMKEY, PLAIN, KEY2),
        10 => Action::Store(NVMKEY, PLAIN, KEY3),
        _ => Action::Store(Nvmbwp::NUMBER, CLEAR, Nvmbwp::UBWP),
    }
}

// The stores that launch an operation whose address stands.
pub fn launch_action(op: u32, k: u32) -> Action
    requires { k < 6 }
    ensures { result ≡ get_or (stored (launch_stores op)) k Step }
{
    match k {
        0 => Action::Store(Nvmcon::NUMBER, PLAIN, op),
        1 => Action::Store(Nvmcon::NUMBER, SET, Nvmcon::WREN),
        2 => Action::Store(NVMKEY, PLAIN, KEY1),
        3 => Action::Store(NVMKEY, PLAIN, KEY2),
        4 => Action::Store(NVMKEY, PLAIN, KEY3),
        _ => Action::Store(Nvmcon::NUMBER, SET, Nvmcon::WR),
    }
}

// Page i of the erasing, by its number in the bank.
#[tactic(auto, unfolding(update::specs::Actions::erased_page_of))]
fn erased_page(layout: Layout, i: u32) -> u32
    ensures { result ≡ erased_page_of layout.geometry i }
{
    if i == 0 {
        return layout.geometry.b - 1;
    }
    if i < layout.geometry.b {
        return i - 1;
    }
    i
}

// Action k of a page of the bank: its stores, its steps, its end.
#[tactic(auto, unfolding(update::specs::Actions::page_action_of))]
fn page_action(layout: Layout, page: u32, k: u32) -> Action
    requires { page < pages_of layout.geometry }
    ensures { result ≡ page_action_of layout.geometry page k }
{
    if k == 0 {
        return Action::Store(
            NVMADDR,
            PLAIN,
            upper_address(layout, page * layout.page_quads()),
        );
    }
    if k < 7 {
        return launch_action(PAGE_ERASE, k - 1);
    }
    if k < 7 + layout.page_quads() {
        return Action::Step;
    }
    Action::Store(Nvmcon::NUMBER, CLEAR, Nvmcon::WREN)
}

impl NewBank<'_> {
    // The action of a place.
    #[tactic(auto, unfolding(update::specs::Actions::action_at_of))]
    pub fn action_at(self, place: u32) -> Action
        requires { place < total_of self.layout.geometry }
        ensures { result ≡ action_at_of self.entry.layout.geometry self.entry.image.now self.entry.word place }
    {
        if place < 12 {
            return prologue_action(place);
        }
        let layout = self.layout;
        let block = 8 + layout.page_quads();
        let programming = 12 + layout.pages() * block;
        if place < programming {
            let from = place - 12;
            return page_action(layout, erased_page(layout, from / block), from % block);
        }
        let from = place - programming;
        self.quad_action(from / 13, from % 13)
    }
}
