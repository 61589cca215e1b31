// The word that t is read from, at the start and at each turn.
ghost use Rattle.std.specs.Prelude.{◌≡◌};
ghost use Rattle.device.specs.State.{lent};
ghost use Rattle.update.specs.Start.{lower_word_of};

use device::record::Device;
use device::registers::Nvmcon;
use flash::lent::Banks;
use sequence::sequence_index;
use words::word::has;

// The sequence word of the bank on the lower alias.
pub fn lower_word(banks: Banks, d: Device) -> u32
    ensures { result ≡ lower_word_of banks.entry.layout.geometry (lent d banks.entry.one banks.entry.two) }
{
    let i = sequence_index(banks.layout) as usize;
    if has(d.nvmcon.0, Nvmcon::BFSWAP) {
        return banks.two[i];
    }
    banks.one[i]
}
