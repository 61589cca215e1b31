// Forms of a store, the keys and the operations, by their numbers.
pub const PLAIN: u32 = 0;

pub const CLEAR: u32 = 1;

pub const SET: u32 = 2;

pub const INVERT: u32 = 3;

// What opens the key, in this order.
pub const KEY1: u32 = 0;

pub const KEY2: u32 = 0xAA99_6655;

pub const KEY3: u32 = 0x5566_99AA;

// Values of NVMOP. The launch of the first clears the errors.
pub const NO_OPERATION: u32 = 0;

pub const QUAD_PROGRAM: u32 = 2;

pub const ROW_PROGRAM: u32 = 3;

pub const PAGE_ERASE: u32 = 4;

pub const LOWER_ERASE: u32 = 5;

pub const UPPER_ERASE: u32 = 6;

pub const BOTH_ERASE: u32 = 7;
