// What the sheet says of a page.
// What takes a Layout here is no call of the device: its callers judge decline 1 first.
#![tactic(auto)]

ghost use Rattle.std.specs.Prelude.{◌≡◌, ◌+◌, ◌*◌, ◌≤◌, ◌<◌, length};
ghost use Rattle.geometry.specs.Banks.{bank_words_of};
ghost use Rattle.sheet_page.specs.State.{used_quads_of, swap_of, upper_of, kind_pages_of, page_index_of, page_state_of};

use device::record::Device;
use device::registers::Nvmcon;
use geometry::banks::Geometry;
use geometry::layout::Layout;
use protection::is_protected;
use words::quad::{is_blank, quad_at};
use words::word::has;

// A page of bank 1 or, with second, bank 2: boot or, with program, program; its number of its kind from 0; on the lower
// or, with upper, the upper side; whether it is protected; how many of its quads are not all ones.
#[derive(Clone, Copy)]
pub struct PageState {
    pub second: bool,
    pub program: bool,
    pub page: usize,
    pub upper: bool,
    pub protected: bool,
    pub quads: usize,
}

// A bank of a sign: bank 1 or, with second, bank 2, and the device whose swap bits and protection its pages are under.
#[derive(Clone, Copy)]
pub struct SheetBank<'a> {
    pub layout: Layout,
    pub d: Device,
    pub words: &'a [u32],
    pub second: bool,
    ghost words_len: { length words.now ≡ bank_words_of layout.geometry },
}

// How many of so many quads of a bank are not all ones. Not a call of the device: its callers show that they lie in the
// bank.
fn used_quads(bank: &[u32], first: usize, count: usize) -> usize
    requires { 4 * (first + count) ≤ length bank.now }
    ensures { result ≡ used_quads_of bank.now first count }
{
    // A sum, and no filter: every quad then takes the same steps, blank or not.
    let mut quads = 0;
    for i in 0..count {
        quads += usize::from(!is_blank(quad_at(bank, first + i)));
    }
    quads
}

// The swap bit of a kind of pages.
fn swap(d: Device, program: bool) -> bool
    ensures { result ≡ swap_of d program }
{
    if program {
        has(d.nvmcon.0, Nvmcon::PFSWAP)
    } else {
        has(d.nvmcon.0, Nvmcon::BFSWAP)
    }
}

// Whether a bank's pages of a kind are on the upper side.
fn is_upper(d: Device, second: bool, program: bool) -> bool
    ensures { result ≡ upper_of d second program }
{
    swap(d, program) != second
}

// How many pages of a kind a bank has.
pub fn kind_pages(g: Geometry, program: bool) -> u32
    ensures { result ≡ kind_pages_of g program }
{
    if program { g.p } else { g.b }
}

// The number of a page in its bank: the boot pages come first.
fn page_index(layout: Layout, program: bool, page: u32) -> u32
    requires { page < kind_pages_of layout.geometry program }
    ensures { result ≡ page_index_of layout.geometry program page }
{
    if program {
        layout.geometry.b + page
    } else {
        page
    }
}

impl<'a> SheetBank<'a> {
    // What the sheet says of a page of the bank.
    pub fn page_state(self, program: bool, page: u32) -> PageState
        requires { page < kind_pages_of self.layout.geometry program }
        ensures { result ≡ page_state_of self.entry.layout.geometry self.entry.d self.entry.words.now self.entry.second program page }
    {
        let upper = is_upper(self.d, self.second, program);
        let count = self.layout.page_quads() as usize;
        let first = page_index(self.layout, program, page) as usize * count;
        PageState {
            second: self.second,
            program,
            page: page as usize,
            upper,
            protected: is_protected(self.layout, self.d, program, upper, page),
            quads: used_quads(self.words, first, count),
        }
    }
}
