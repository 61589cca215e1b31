// The way out to byte lanes and the way back, each in one pass over its source.
#![tactic(auto)]

ghost use Rattle.std.specs.Prelude.{◌≡◌, length};
ghost use Rattle.lanes.specs.Lanes.{lanes_out_of, lanes_back_of, lanes_decline_of, target_of};

use lanes_interleave::blocks::{BLOCK_WORDS, block_end, words_back};
use words::decline::Decline;

// Why a way out or back is declined, by the lengths of its source and target.
#[tactic(auto, unfolding(crate::specs::Lanes::lanes_decline_of))]
fn lanes_decline(source: usize, target: usize) -> Result<(), Decline>
    ensures { result ≡ lanes_decline_of source target }
{
    if source != target || source % 4 != 0 {
        return Err(Decline::Lanes);
    }
    Ok(())
}

// Writes the lanes of an image's bytes to the target: all first bytes, then all second, third and fourth.
// Where it is declined the target is as before.
pub fn lanes_out(source: &[u8], target: &mut [u8]) -> Result<(), Decline>
    ensures { (result ≡ lanes_decline_of (length source.now) (length target.old))
        × (target.new ≡ target_of lanes_out_of source.now target.old) }
{
    lanes_decline(source.len(), target.len())?;
    let n = source.len() / 4;
    for i in 0..n {
        target[i] = source[4 * i];
        target[n + i] = source[4 * i + 1];
        target[2 * n + i] = source[4 * i + 2];
        target[3 * n + i] = source[4 * i + 3];
    }
    Ok(())
}

// Writes the bytes of an image to the target, given its lanes. Where it is declined the target is as before.
pub fn lanes_back(source: &[u8], target: &mut [u8]) -> Result<(), Decline>
    ensures { (result ≡ lanes_decline_of (length source.now) (length target.old))
        × (target.new ≡ target_of lanes_back_of source.now target.old) }
{
    lanes_decline(source.len(), target.len())?;
    let n = source.len() / 4;
    for block in 0..n.div_ceil(BLOCK_WORDS) {
        let from = BLOCK_WORDS * block;
        words_back(source, target, n, from, block_end(n, from));
    }
    Ok(())
}
