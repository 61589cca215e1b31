// The four windows, and where an address stands in them.
// What takes a Layout here is no call of the device: its callers judge decline 1 first.
#![tactic(auto)]

ghost use Rattle.std.specs.Prelude.{◌≡◌};
ghost use Rattle.map.specs.Windows.{window_start_of, window_bytes_of, in_window_of, locate_of, page_of, word_index_of, quad_index_of, in_second_of};
ghost use Rattle.map.specs.Location.{stands_of, location_of};

use geometry::layout::Layout;

pub const LOWER_BOOT: u32 = 0x1FC0_0000;

pub const UPPER_BOOT: u32 = 0x1FC2_0000;

pub const LOWER_PROGRAM: u32 = 0x1D00_0000;

// Where an address stands: in a window of boot pages or, with program, of program pages, on the lower or, with upper,
// the upper side, at an offset in bytes from the window's start.
#[derive(Clone, Copy, PartialEq, Eq, Debug)]
pub struct Location {
    pub program: bool,
    pub upper: bool,
    pub offset: u32,
}

impl Location {
    // The page of its kind, from 0.
    pub fn page(self, layout: Layout) -> u32
        ensures { result ≡ page_of layout.geometry (stands_of self) }
    {
        self.offset / layout.page_bytes()
    }

    // The index of the word in its bank.
    pub fn word_index(self, layout: Layout) -> u32
        ensures { result ≡ word_index_of layout.geometry (stands_of self) }
    {
        if self.program {
            layout.boot_words() + self.offset / 4
        } else {
            self.offset / 4
        }
    }

    // The index of the quad in its bank.
    pub fn quad_index(self, layout: Layout) -> u32
        ensures { result ≡ quad_index_of layout.geometry (stands_of self) }
    {
        if self.program {
            layout.boot_quads() + self.offset / 16
        } else {
            self.offset / 16
        }
    }

    // Whether that place is in bank 2, by the two swap bits.
    pub fn is_second(self, bfswap: bool, pfswap: bool) -> bool
        ensures { result ≡ in_second_of (stands_of self) bfswap pfswap }
    {
        if self.program {
            self.upper != pfswap
        } else {
            self.upper != bfswap
        }
    }
}

// The first address of a window.
pub fn window_start(layout: Layout, program: bool, upper: bool) -> u32
    ensures { result ≡ window_start_of layout.geometry program upper }
{
    match (program, upper) {
        (false, false) => LOWER_BOOT,
        (false, true) => UPPER_BOOT,
        (true, false) => LOWER_PROGRAM,
        (true, true) => LOWER_PROGRAM + layout.program_bytes(),
    }
}

// The length of a window in bytes.
pub fn window_bytes(layout: Layout, program: bool) -> u32
    ensures { result ≡ window_bytes_of layout.geometry program }
{
    if program {
        layout.program_bytes()
    } else {
        layout.boot_bytes()
    }
}

// Where an address stands in one window.
#[tactic(auto, unfolding(crate::specs::Windows::in_window_of))]
fn in_window(layout: Layout, program: bool, upper: bool, address: u32) -> Option<Location>
    ensures { location_of result ≡ in_window_of layout.geometry program upper address }
{
    let offset = address.checked_sub(window_start(layout, program, upper))?;
    if window_bytes(layout, program) <= offset {
        return None;
    }
    Some(Location {
        program,
        upper,
        offset,
    })
}

// Where an address stands in the four windows.
#[tactic(auto, unfolding(crate::specs::Windows::locate_of))]
pub fn locate(layout: Layout, address: u32) -> Option<Location>
    ensures { location_of result ≡ locate_of layout.geometry address }
{
    in_window(layout, false, false, address)
        .or_else(|| in_window(layout, false, true, address))
        .or_else(|| in_window(layout, true, false, address))
        .or_else(|| in_window(layout, true, true, address))
}
