// A lent list of records: gathered by value, and one record kept.
#![tactic(auto)]

ghost use Rattle.std.specs.Prelude.{◌≡◌, ◌≤◌, length, set};
ghost use Rattle.row_list.specs.List.{at_most, gathered};

use row_signs::sign::{Sign, no_sign};

// How many records are gathered.
pub fn few(n: usize) -> usize
    ensures { (result ≡ at_most n) × (result ≤ n) × (result ≤ 32) }
{
    n.min(32)
}

// Up to 32 records of a lent list, by value. No call of the row: its caller shows that the list has them.
pub fn gather(signs: &[Sign], n: usize) -> [Sign; 32]
    requires { (n ≤ length signs.now) × (n ≤ 32) }
    ensures { result ≡ (gathered signs.now n).signs }
{
    let mut row = [no_sign(); 32];
    row[..n].copy_from_slice(&signs[..n]);
    row
}

// Another record in its place, and nothing where there is no such place.
pub fn keep_sign(signs: &mut [Sign], i: usize, s: Sign)
    ensures { signs.new ≡ set signs.old i s }
{
    if i < signs.len() {
        signs[i] = s;
    }
}
