// Runs whole updates with a cut at every place, then lists with a flash read, and prints what each cut leaves.
//
// For each of four signs there is a line with Q, B and P, the bank that runs, the start's answer and the total, and then
// a line for each place from 0 to the total:
//
//     place, 18 cuts, 6 sums, the turn's answer, done, event
//
// A cut is a reset from the state that the update has at the place, and a start-up: for each kind from 0 to 2 there are
// six masks. A cut's three numbers are the bank that runs then, the answer of a second start of the same update, and the
// bank that runs after that update, a power-on and a start-up. A bank is 1 or 2, and 0 where BFSWAP and PFSWAP differ, a
// reset or start-up is declined or the update is not done. Where the new bank runs, there is no second start, and two
// zeros stand for it.
//
// The sums are of the device and both banks at the place; of the devices after each cut and each second update, and of
// its last place and its events; of bank 1 and of bank 2 after each cut; and of bank 1 and of bank 2 after each second
// update. The turn of a place is done last, and leaves the state of the next place.
//
// After these there are, again for each place from 0 to the total, the lists that go by turns to the place and then read
// a word of the new bank (W-207): word place % 32 of the upper program region. The first line has the whole read:
//
//     place, 0, the read's answer, word, event, 18 cuts, 6 sums, the turn's answer, done, event
//
// Cuts and sums are of the state after the read; the turn is that of the place, after the read, and is declined where
// the read waited. Where it waits for more than one step, there is a line for each list that ends inside it, after each
// number of its steps but all:
//
//     place, steps, the last step's answer, its event, 18 cuts, 6 sums
//
// A failed write is ignored.
#![tactic(auto)]

mod cuts;
mod lists;
mod signs;
mod state;
mod sums;

use cuts::CutsAndTurn;
use lists::print_lists;
use signs::{Sign, signs};
use state::number_of;

// The line of a sign, and those of its places and of their lists.
fn print_sign(rt: &impl Print, sign: Sign) {
    let words = sign.image();
    let image = &words[..sign.words];
    let mut state = sign.state();
    let running = number_of(state.power_on());
    let (declined, total) = match state.start(image) {
        Ok(started) => (0, started.total),
        Err(decline) => (decline.number(), 0),
    };
    let g = sign.geometry;
    let _ = println!(rt; "{} {} {} {running} {declined} {total}", g.q, g.b, g.p);
    for place in 0..=total {
        let rest = CutsAndTurn::of(&mut state, image, sign.old, place);
        let _ = println!(rt; "{place}{rest}");
    }
    print_lists(rt, &sign, image, total);
}

fn main(rt: HostRuntime) {
    for sign in signs() {
        print_sign(&rt, sign);
    }
}
