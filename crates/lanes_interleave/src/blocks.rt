// The way back by blocks of words, so that what stands between its two stages fits a local array.
// What asks for words within the lists is no call of the request: its callers show it.
ghost use Rattle.std.specs.Prelude.{◌≡◌, ◌+◌, ◌*◌, ◌≤◌, ◌<◌, min, length};
ghost use Rattle.lanes_interleave.specs.Blocks.{WordsBack};

use crate::interleave::interleave_four;

// The words of a block; the last one has those that are left.
pub const BLOCK_WORDS: usize = 128;

// Where the block that begins with word i ends: 128 words on, or at word n.
pub fn block_end(n: usize, i: usize) -> usize
    requires { i < n }
    ensures { result ≡ min (i + 128) n }
{
    i + (n - i).min(BLOCK_WORDS)
}

// Writes the words from word `from` to before word `to`, given the lanes of n words.
pub fn words_back(source: &[u8], target: &mut [u8], n: usize, from: usize, to: usize)
    requires { (length source.now ≡ 4 * n) × (length target.old ≡ 4 * n) × (from ≤ to) × (to ≤ n) × (to ≤ from + 128) }
    ensures { WordsBack source.now target.old target.new n from to }
{
    interleave_four(
        &source[from..to],
        &source[n + from..n + to],
        &source[2 * n + from..2 * n + to],
        &source[3 * n + from..3 * n + to],
        &mut target[4 * from..],
    );
}
