// A quad is four words, by value. Quad i of a bank is its words 4×i to 4×i + 3.
ghost use Rattle.std.specs.Prelude.{◌≡◌, ◌+◌, ◌*◌, ◌≤◌, length};
ghost use Rattle.words.specs.Quad.{merge_quad_of, is_blank_of, quad_from, quad_at, put_quad};

use crate::word::merge;

// Word by word and bit by bit, chosen where the mask is 1, else other.
pub fn merge_quad(mask: [u32; 4], chosen: [u32; 4], other: [u32; 4]) -> [u32; 4]
    ensures { result ≡ merge_quad_of mask chosen other }
{
    [
        merge(mask[0], chosen[0], other[0]),
        merge(mask[1], chosen[1], other[1]),
        merge(mask[2], chosen[2], other[2]),
        merge(mask[3], chosen[3], other[3]),
    ]
}

// Whether the four words are all ones.
pub fn is_blank(quad: [u32; 4]) -> bool
    ensures { result ≡ is_blank_of quad }
{
    quad == [0xFFFF_FFFF; 4]
}

// The four words from word w on. Not a call of the device: its callers show that they lie in the slice.
pub fn quad_from(words: &[u32], w: usize) -> [u32; 4]
    requires { w + 4 ≤ length words.now }
    ensures { result ≡ quad_from words.now w }
{
    [words[w], words[w + 1], words[w + 2], words[w + 3]]
}

// Quad i of a bank. Not a call of the device: its callers show that the quad lies in the bank.
pub fn quad_at(bank: &[u32], i: usize) -> [u32; 4]
    requires { 4 * i + 4 ≤ length bank.now }
    ensures { result ≡ quad_at bank.now i }
{
    quad_from(bank, 4 * i)
}

// Stores a quad as quad i of a bank. Not a call of the device: its callers show that the quad lies in the bank.
pub fn put_quad(bank: &mut [u32], i: usize, quad: [u32; 4])
    requires { 4 * i + 4 ≤ length bank.old }
    ensures { bank.new ≡ put_quad bank.old i quad }
{
    let w = 4 * i;
    bank[w] = quad[0];
    bank[w + 1] = quad[1];
    bank[w + 2] = quad[2];
    bank[w + 3] = quad[3];
}
