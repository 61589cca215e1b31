// A word by its bits.
ghost use Rattle.std.specs.Prelude.{◌≡◌};
ghost use Rattle.words.specs.Word.{has_of, merge_of, clear_of};

// Whether w has a bit of the mask.
pub fn has(w: u32, mask: u32) -> bool
    ensures { result ≡ has_of w mask }
{
    w & mask != 0
}

// Bit by bit, chosen where the mask is 1, else other.
pub fn merge(mask: u32, chosen: u32, other: u32) -> u32
    ensures { result ≡ merge_of mask chosen other }
{
    ((chosen ^ other) & mask) ^ other
}

// w with the bits of the mask at 0.
pub fn clear(w: u32, mask: u32) -> u32
    ensures { result ≡ clear_of w mask }
{
    (w & mask) ^ w
}
