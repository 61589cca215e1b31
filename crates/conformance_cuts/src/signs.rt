// The signs that are updated, and their words.
ghost use Rattle.std.specs.Prelude.{◌<◌, ◌≤◌};

use crate::state::{Bank, State};
use device::builders::power_on;
use geometry::banks::Geometry;

/// The words of the longest bank: Q=2, B=2, P=1.
pub const MOST_WORDS: usize = 192;

/// A sign before power-on: its geometry, the words of a bank and the index of the sequence word there, the old bank, and
/// the sequence words of the old bank and of the other.
#[derive(Clone, Copy)]
pub struct Sign {
    pub geometry: Geometry,
    pub words: usize,
    pub sequence: usize,
    pub old: Bank,
    pub own: u32,
    pub other: u32,
    ghost in_bank: { sequence < words },
    ghost in_room: { words ≤ 192 },
}

// Q=B=P=1.
fn small(old: Bank, own: u32, other: u32) -> Sign
    ensures { (result.words ≤ 192) × (result.sequence < result.words) }
{
    Sign {
        geometry: Geometry { q: 1, b: 1, p: 1 },
        words: 64,
        sequence: 28,
        old,
        own,
        other,
    }
}

// Q=2, B=2, P=1.
fn larger(old: Bank, own: u32, other: u32) -> Sign
    ensures { (result.words ≤ 192) × (result.sequence < result.words) }
{
    Sign {
        geometry: Geometry { q: 2, b: 2, p: 1 },
        words: 192,
        sequence: 124,
        old,
        own,
        other,
    }
}

/// T is 7 beside 6, 7 beside a word that is not valid, 65,534 beside a blank word, and 0x8000 beside 0x7FFF.
pub fn signs() -> [Sign; 4] {
    [
        small(Bank::One, 0xFFF8_0007, 0xFFF9_0006),
        small(Bank::Two, 0xFFF8_0007, 0x8000_8000),
        larger(Bank::One, 0x0001_FFFE, 0xFFFF_FFFF),
        larger(Bank::Two, 0x7FFF_8000, 0x8000_7FFF),
    ]
}

// The words of a bank or an image before power-on, as many as the longest has; those of the sign are the first.
fn filled(seed: u32) -> [u32; MOST_WORDS] {
    let mut words = [seed.wrapping_mul(987654321); MOST_WORDS];
    let mut mixed = 0u32;
    for word in words.iter_mut() {
        mixed = mixed.wrapping_add(2654435761);
        *word = word.wrapping_add(mixed);
    }
    words
}

impl Sign {
    /// The first `words` are the image.
    pub fn image(&self) -> [u32; MOST_WORDS] {
        filled(3)
    }

    /// The sign before power-on.
    pub fn state(&self) -> State {
        let mut one = filled(1);
        let mut two = filled(2);
        let (of_one, of_two) = match self.old {
            Bank::One => (self.own, self.other),
            Bank::Two => (self.other, self.own),
        };
        one[self.sequence] = of_one;
        two[self.sequence] = of_two;
        State {
            sign: *self,
            device: power_on(),
            one,
            two,
        }
    }
}
