// Decline 19: whether a row, its queue and its store can be served.
// What takes a Layout or asks for room here is no call of the row: row_decline judges these first.
#![tactic(auto)]

ghost use Rattle.std.specs.Prelude.{◌≡◌, IfOk, ◌≤◌, ◌<◌, eqb, length, get_or};
ghost use Rattle.words.specs.Decline.{verdict_from};
ghost use Rattle.std.specs.List.{list_all};
ghost use Rattle.words.specs.Word.{any_below};
ghost use Rattle.row_judge.specs.Judge.{in_row_of, entry_stands_of, queue_stands_of, StartsOf, apart_of, bank_stands_of, banks_stand_of, row_stands_of, row_decline_of};

use geometry::banks::Geometry;
use geometry::layout::Layout;
use geometry::lent::{Lent, lent_decline};
use row_signs::queue::Queue;
use row_signs::row::Row;
use words::decline::Decline;

// The most signs of a row, and the most operations that a supply bears together.
const MOST: usize = 32;

// Whether a number is 1 to 32.
fn in_row(n: usize) -> bool
    ensures { result ≡ in_row_of n }
{
    0 < n && n <= MOST
}

// Whether one of the first p entries of a queue is this record.
pub fn is_listed(queue: &Queue, p: usize, record: u32) -> bool
    requires { p ≤ 32 }
    ensures { result ≡ any_below (λ e. eqb (get_or queue.now.numbers e 0) «record») p }
{
    queue.numbers[..p].contains(&record)
}

// Whether an entry of a queue is a record of the list, and stands there once.
#[tactic(auto, unfolding(crate::specs::Judge::entry_stands_of))]
fn entry_stands(queue: &Queue, n: usize, p: usize) -> bool
    requires { p < 32 }
    ensures { result ≡ entry_stands_of queue.now n p }
{
    let number = queue.numbers[p];
    (number as usize) < n && !is_listed(queue, p, number)
}

// Whether a queue has room for its count, repeats no record and does not overstep the list.
#[tactic(auto, unfolding(crate::specs::Judge::queue_stands_of))]
fn queue_stands(queue: &Queue, n: usize) -> bool
    ensures { result ≡ queue_stands_of queue.now n }
{
    let count = queue.count as usize;
    if MOST < count {
        return false;
    }
    for p in 0..count {
        if !entry_stands(queue, n, p) {
            return false;
        }
    }
    true
}

// Where the banks of a row's records start, bank 1 and bank 2 of each record by turns.
fn starts_of(row: &Row) -> [u32; 64]
    requires { row.now.count ≤ 32 }
    ensures { StartsOf row.now.signs row.now.count result }
{
    let mut starts = [0; 64];
    for (i, own) in row.signs[..row.count].iter().enumerate() {
        starts[2 * i] = own.one;
        starts[2 * i + 1] = own.two;
    }
    starts
}

// Whether two banks of so many words do not overlap; starts are numbers of 32 bits.
#[tactic(auto, unfolding(crate::specs::Judge::apart_of))]
fn apart(words: usize, a: usize, b: usize) -> bool
    requires { (words ≤ 4294967296) × ((a ≤ 4294967296) × (b ≤ 4294967296)) }
    ensures { result ≡ apart_of words a b }
{
    a + words <= b || b + words <= a
}

// Whether a bank overlaps none of those that start there.
fn apart_from_all(starts: &[u32], words: usize, at: usize) -> bool
    requires { (words ≤ 4294967296) × (at ≤ 4294967296) }
    ensures { result ≡ list_all (λ start. apart_of words start at) starts.now }
{
    starts.iter().all(|start| apart(words, *start as usize, at))
}

// Whether a bank lies in a store of so many words, apart from the banks before it.
#[tactic(auto, unfolding(crate::specs::Judge::bank_stands_of))]
fn bank_stands(starts: &[u32], words: usize, store: usize, b: usize) -> bool
    requires b_in_bounds { b < length starts.now }
    requires words_bound { words ≤ 4294967296 }
    ensures { result ≡ bank_stands_of (λ e. get_or starts.now e 0) words store b }
{
    let at = starts[b] as usize;
    at + words <= store && apart_from_all(&starts[..b], words, at)
}

// Whether no bank of a row's records overlaps another or overhangs the store.
fn banks_stand(row: &Row, words: usize, store: usize) -> bool
    requires count_bound { row.now.count ≤ 32 }
    requires words_bound { words ≤ 4294967296 }
    ensures { result ≡ banks_stand_of row.now.signs row.now.count words store }
{
    let starts = starts_of(row);
    for b in 0..2 * row.count {
        if !bank_stands(&starts, words, store, b) {
            return false;
        }
    }
    true
}

// Whether none of the conditions of 19 applies.
#[tactic(auto, unfolding(crate::specs::Judge::row_stands_of))]
fn row_stands(layout: Layout, k: u32, row: &Row, store: usize) -> bool
    ensures { result ≡ row_stands_of layout.geometry k row.now.signs row.now.count row.now.queue row.now.last store }
{
    in_row(row.count)
        && in_row(k as usize)
        && (row.last as usize) < row.count
        && queue_stands(&row.queue, row.count)
        && banks_stand(row, layout.bank_words() as usize, store)
}

// Which of declines 1, 2 and 19 applies.
#[tactic(auto, unfolding(crate::specs::Judge::row_decline_of))]
pub fn row_decline(
    g: Geometry,
    k: u32,
    row: &Row,
    store: usize,
    image: usize,
    sram: usize,
) -> Result<Layout, Decline>
    ensures verdict { verdict_from result ≡ row_decline_of g k row.now.signs row.now.count row.now.queue row.now.last store image sram }
    ensures layout { IfOk result (λ layout. layout.geometry ≡ g) }
{
    let layout = lent_decline(g, Lent::Bank(image), sram)?;
    if !row_stands(layout, k, row, store) {
        return Err(Decline::Row);
    }
    Ok(layout)
}
