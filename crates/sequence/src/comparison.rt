// The comparison of two sequence words: which bank a reset puts lower, and why.
ghost use Rattle.std.specs.Prelude.{◌≡◌};
ghost use Rattle.sequence.specs.Comparison.{reason_number_of, reason_from, comparison_from, compare_of};

use crate::{is_valid, tseq};

#[derive(Clone, Copy, PartialEq, Eq, Debug)]
pub enum Reason {
    // 0: both words are valid, and the higher T goes lower.
    Higher,
    // 1: both are valid with equal T, and bank 1 goes lower.
    Equal,
    // 2: one is valid, and goes lower.
    OnlyOneValid,
    // 3: none is valid, and bank 1 goes lower.
    NoneValid,
}

impl Reason {
    // The number of a reason: ours, the paper gives none.
    pub fn number(self) -> u32
        ensures { result ≡ reason_number_of (reason_from self) }
    {
        match self {
            Reason::Higher => 0,
            Reason::Equal => 1,
            Reason::OnlyOneValid => 2,
            Reason::NoneValid => 3,
        }
    }
}

// Whether bank 2 goes lower, as a reset then sets BFSWAP, and why.
#[derive(Clone, Copy, PartialEq, Eq, Debug)]
pub struct Comparison {
    pub second: bool,
    pub reason: Reason,
}

// The comparison of the sequence words of bank 1 and bank 2.
#[tactic(auto, unfolding(crate::specs::Comparison::compare_of))]
pub fn compare(first: u32, other: u32) -> Comparison
    ensures { comparison_from result ≡ compare_of first other }
{
    let t = tseq(first);
    let u = tseq(other);
    match (is_valid(first), is_valid(other)) {
        (true, true) if t == u => Comparison {
            second: false,
            reason: Reason::Equal,
        },
        (true, true) => Comparison {
            second: t < u,
            reason: Reason::Higher,
        },
        (true, false) => Comparison {
            second: false,
            reason: Reason::OnlyOneValid,
        },
        (false, true) => Comparison {
            second: true,
            reason: Reason::OnlyOneValid,
        },
        (false, false) => Comparison {
            second: false,
            reason: Reason::NoneValid,
        },
    }
}
