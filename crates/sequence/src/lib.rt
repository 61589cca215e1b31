// The sequence word of a bank: TSEQ, its low half, and CSEQ, its high half.
// What takes a Layout here is no call of the device: its callers judge decline 1 first.
#![tactic(auto)]

ghost use Rattle.std.specs.Prelude.{◌≡◌, ◌<◌};
ghost use Rattle.sequence.specs.Sequence.{sequence_quad_of, sequence_index_of, tseq_of, cseq_of, complement_of, valid_of};
ghost use Rattle.sequence.specs.Sequence.{sequence_word_of, next_sequence_of};

use geometry::layout::Layout;

pub mod comparison;

// The index of the sequence quad, the last of the last boot page, in a bank.
pub fn sequence_quad(layout: Layout) -> u32
    ensures { result ≡ sequence_quad_of layout.geometry }
{
    layout.boot_quads() - 1
}

// The index of the sequence word, word 0 of the sequence quad, in a bank.
pub fn sequence_index(layout: Layout) -> u32
    ensures { result ≡ sequence_index_of layout.geometry }
{
    4 * sequence_quad(layout)
}

// T.
pub fn tseq(w: u32) -> u32
    ensures { result ≡ tseq_of w }
{
    w % 65536
}

// C.
pub fn cseq(w: u32) -> u32
    ensures { result ≡ cseq_of w }
{
    w / 65536
}

// Whether C is the bitwise complement of T, by the sum of the two.
#[tactic(auto, using(crate::proofs::Sum::valid_sum))]
pub fn is_valid(w: u32) -> bool
    ensures { result ≡ valid_of w }
{
    let high = cseq(w);
    let low = tseq(w);
    high + low == 65535
}

// The bitwise complement of a half word.
#[tactic(auto, unfolding(crate::specs::Sequence::complement_of))]
fn complement(half: u32) -> u32
    ensures { result ≡ complement_of half }
{
    half ^ 0xFFFF
}

// The valid sequence word of T.
#[tactic(auto, using(crate::proofs::SequenceLaws::complement_below), unfolding(crate::specs::Sequence::sequence_word_of))]
pub fn sequence_word(t: u32) -> u32
    requires { t < 65536 }
    ensures { result ≡ sequence_word_of t }
{
    complement(t) * 65536 + t
}

// The sequence quad of the bank that is to follow the one with sequence word w.
#[tactic(auto, unfolding(crate::specs::Sequence::next_sequence_of))]
pub fn next_sequence(w: u32) -> [u32; 4]
    ensures { result ≡ next_sequence_of w }
{
    let next = sequence_word((tseq(w) + 1) % 65536);
    [next, 0xFFFF_FFFF, 0xFFFF_FFFF, 0xFFFF_FFFF]
}
