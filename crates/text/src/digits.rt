// Numbers as the bytes of their digits.
// What asks for room is no call of the paper: its callers show it.
ghost use Rattle.std.specs.Prelude.{◌≡◌, ◌+◌, ◌≤◌, ◌<◌, length};
ghost use Rattle.std.proofs.lemmas.List.Edits.{sets};
ghost use Rattle.text.specs.Digits.{digit_of, digits_of, width_of};

// The ASCII code of a digit.
#[tactic(auto, unfolding(crate::specs::Digits::digit_of))]
fn digit(value: usize) -> u8
    requires { value < 16 }
    ensures { result ≡ digit_of value }
{
    if value < 10 {
        b'0' + value as u8
    } else {
        b'A' + (value - 10) as u8
    }
}

// How many decimal digits a number has.
pub fn width(number: usize) -> usize
    ensures { result ≡ width_of number }
{
    number.max(1).ilog10() as usize + 1
}

// Writes the last digits of a number at a position.
pub fn put_digits(out: &mut [u8], at: usize, number: usize, base: usize, count: usize)
    requires base_nonzero { (0 < base) × (base ≤ 16) }
    requires count_in_bounds { at + count ≤ length out.old }
    ensures { out.new ≡ sets out.old at (digits_of base number count) }
{
    let mut rest = number;
    for place in (0..count).rev() {
        out[at + place] = digit(rest % base);
        rest /= base;
    }
}
