// The register types with their named bits and fields, and the table of masks and reset values.
ghost use Rattle.std.specs.Prelude.{◌≡◌, ◌<◌, get_or};
ghost use Rattle.device.specs.Registers.{resets, within_of};

#[repr(C)]
#[derive(Clone, Copy, PartialEq, Eq, Debug)]
pub struct Nvmcon(pub u32);

impl Nvmcon {
    pub const NUMBER: u32 = 0;

    pub const WR: u32 = 0x8000;

    pub const WREN: u32 = 0x4000;

    pub const WRERR: u32 = 0x2000;

    pub const LVDERR: u32 = 0x1000;

    pub const PFSWAP: u32 = 0x80;

    pub const BFSWAP: u32 = 0x40;

    pub const NVMOP: u32 = 0xF;
}

#[repr(C)]
#[derive(Clone, Copy, PartialEq, Eq, Debug)]
pub struct Nvmpwp(pub u32);

impl Nvmpwp {
    pub const NUMBER: u32 = 8;

    pub const PWPULOCK: u32 = 0x8000_0000;

    pub const PWP: u32 = 0xFF_FFFF;
}

#[repr(C)]
#[derive(Clone, Copy, PartialEq, Eq, Debug)]
pub struct Nvmbwp(pub u32);

impl Nvmbwp {
    pub const NUMBER: u32 = 9;

    pub const LBWPULOCK: u32 = 0x8000;

    pub const LBWP: u32 = 0x1F00;

    pub const UBWPULOCK: u32 = 0x80;

    // Bit 6, which is always 1.
    pub const ALWAYS: u32 = 0x40;

    pub const UBWP: u32 = 0x1F;
}

#[repr(C)]
#[derive(Clone, Copy, PartialEq, Eq, Debug)]
pub struct Nvmcon2(pub u32);

impl Nvmcon2 {
    pub const NUMBER: u32 = 10;

    pub const NVMERS: u32 = 0xF000_0000;

    pub const NVMWS: u32 = 0x1F_0000;

    pub const NVMLPRD: u32 = 0x8000;

    pub const NVMCRD: u32 = 0x2000;

    pub const NVMVRD: u32 = 0x1000;

    pub const NVMRETRY: u32 = 0x300;

    pub const SWAPLOCK: u32 = 0xC0;
}

// The numbers of the registers that are plain words.
pub const NVMKEY: u32 = 1;

pub const NVMADDR: u32 = 2;

pub const NVMDATA0: u32 = 3;

pub const NVMDATA1: u32 = 4;

pub const NVMDATA2: u32 = 5;

pub const NVMDATA3: u32 = 6;

pub const NVMSRCADDR: u32 = 7;

// The bits of each register that are implemented, by its number.
pub const MASKS: [u32; 11] = [
    0xF0CF,
    0,
    0xFFFF_FFFF,
    0xFFFF_FFFF,
    0xFFFF_FFFF,
    0xFFFF_FFFF,
    0xFFFF_FFFF,
    0xFFFF_FFFF,
    0x80FF_FFFF,
    0x9FDF,
    0xF01F_B3C0,
];

// The reset value of each register, by its number.
pub const RESETS: [u32; 11] = [0, 0, 0, 0, 0, 0, 0, 0, 0x8000_0000, 0x9FDF, 0x001F_0000];

// No call of the device: callers show that there is such a register.
pub fn reset_value(register: u32) -> u32
    requires { register < 11 }
    ensures { result ≡ get_or resets register 0 }
{
    RESETS[register as usize]
}

// Whether a value has no bit outside the register's mask. No call of the device: callers show that there is such a
// register.
pub fn is_within(register: u32, value: u32) -> bool
    requires { register < 11 }
    ensures { result ≡ within_of register value }
{
    value & MASKS[register as usize] == value
}
