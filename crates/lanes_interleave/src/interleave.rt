// Lists written by turns.
// What asks for lists of such lengths is no call of the request: its callers show it.
ghost use Rattle.std.specs.Prelude.{◌≡◌, [], ◌∷◌, ◌*◌, ◌≤◌, length};
ghost use Rattle.lanes_interleave.specs.Interleave.{Interleaved};

// Writes two lists by turns to the front of the target.
pub fn interleave_two(first: &[u8], second: &[u8], target: &mut [u8])
    requires { (length second.now ≡ length first.now) × (2 * length first.now ≤ length target.old) }
    ensures { Interleaved (first.now ∷ second.now ∷ []) target.new (length first.now) }
{
    for i in 0..first.len() {
        target[2 * i] = first[i];
        target[2 * i + 1] = second[i];
    }
}

// Writes four lists by turns to the front of the target, in two stages: first and third, second and fourth; then these two.
// The compiler makes vector instructions of a loop that writes two lists, and none of one that writes four.
pub fn interleave_four(first: &[u8], second: &[u8], third: &[u8], fourth: &[u8], target: &mut [u8])
    requires { (length first.now ≤ 128) × (length second.now ≡ length first.now) × (length third.now ≡ length first.now)
        × (length fourth.now ≡ length first.now) × (4 * length first.now ≤ length target.old) }
    ensures { Interleaved (first.now ∷ second.now ∷ third.now ∷ fourth.now ∷ [])
        target.new (length first.now) }
{
    let mut even = [0u8; 256];
    let mut odd = [0u8; 256];
    interleave_two(first, third, &mut even);
    interleave_two(second, fourth, &mut odd);
    let n = 2 * first.len();
    interleave_two(&even[..n], &odd[..n], target);
}
