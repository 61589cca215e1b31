// Protected pages. Protection follows the mapping: it is by window, whichever bank stands there.
#![tactic(auto)]

ghost use Rattle.std.specs.Prelude.{◌≡◌, ◌<◌};
ghost use Rattle.words.specs.Word.{pick};
ghost use Rattle.protection.specs.Protection.{pwp_of, program_protected_of, boot_protected_of, page_offset_of, protected_of};

use device::record::Device;
use geometry::layout::Layout;

// PWP, the low 24 bits of NVMPWP.
pub fn pwp(d: Device) -> u32
    ensures { result ≡ pwp_of d }
{
    d.nvmpwp.0 % 0x100_0000
}

// Whether PWP protects the program page that starts at this offset from 0x1D000000.
#[tactic(auto, unfolding(crate::specs::Protection::program_protected_of))]
fn is_program_protected(last: u32, offset: u32) -> bool
    ensures { result ≡ program_protected_of last offset }
{
    last != 0 && offset <= last
}

// Whether the boot page of an alias is protected. No call of the device: there are at most five.
pub fn is_boot_protected(d: Device, upper: bool, page: u32) -> bool
    requires { page < 5 }
    ensures { result ≡ boot_protected_of d upper page }
{
    let lock = if upper { page } else { 8 + page };
    (d.nvmbwp.0 >> lock) % 2 == 1
}

// The offset of a program page from 0x1D000000.
fn page_offset(layout: Layout, upper: bool, page: u32) -> u32
    requires { page < layout.geometry.p }
    ensures { result ≡ page_offset_of layout.geometry upper page }
{
    let start = if upper { layout.program_bytes() } else { 0 };
    start + page * layout.page_bytes()
}

// Whether PWP protects a page of a program region. No call of the device: callers show that there is such a page.
pub fn is_page_protected(layout: Layout, last: u32, upper: bool, page: u32) -> bool
    requires { page < layout.geometry.p }
    ensures { result ≡ program_protected_of last (page_offset_of layout.geometry upper page) }
{
    is_program_protected(last, page_offset(layout, upper, page))
}

// Whether a page of a window is protected. No call of the device: callers show that there is such a page.
#[tactic(auto, unfolding(crate::specs::Protection::protected_of))]
pub fn is_protected(layout: Layout, d: Device, program: bool, upper: bool, page: u32) -> bool
    requires { page < pick program layout.geometry.p layout.geometry.b }
    ensures { result ≡ protected_of layout.geometry d program upper page }
{
    if program {
        is_page_protected(layout, pwp(d), upper, page)
    } else {
        is_boot_protected(d, upper, page)
    }
}
