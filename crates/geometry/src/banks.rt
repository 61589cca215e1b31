// Q, B and P, and decline 1.
ghost use Rattle.std.specs.Prelude.{◌≡◌, ◌<◌};
ghost use Rattle.geometry.specs.Banks.{listed_of, in_range_of, round_down_of};

// Q quads per row, B boot pages and P program pages per bank, as a caller lends them.
#[repr(C)]
#[derive(Clone, Copy)]
pub struct Geometry {
    pub q: u32,
    pub b: u32,
    pub p: u32,
}

pub const MOST_BOOT_PAGES: u32 = 5;

pub const MOST_PROGRAM_PAGES: u32 = 128;

// Whether Q is in its list.
#[tactic(auto, unfolding(crate::specs::Banks::listed_of))]
fn is_listed(q: u32) -> bool
    ensures { result ≡ listed_of q }
{
    matches!(q, 1 | 2 | 4 | 8 | 16 | 32 | 64 | 128)
}

// Whether decline 1 does not apply. By `&`, since every call asks this first, and five comparisons cost less than five branches.
#[tactic(auto, unfolding(crate::specs::Banks::in_range_up_to))]
pub fn in_range(g: Geometry) -> bool
    ensures { result ≡ in_range_of g }
{
    is_listed(g.q)
        & (1 <= g.b)
        & (g.b <= MOST_BOOT_PAGES)
        & (1 <= g.p)
        & (g.p <= MOST_PROGRAM_PAGES)
}

// An address rounded down to a multiple of a unit, which is not 0.
pub fn round_down(address: u32, unit: u32) -> u32
    requires { 0 < unit }
    ensures { result ≡ round_down_of address unit }
{
    address / unit * unit
}
