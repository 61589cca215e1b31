// Lists with a flash read: turns up to a place, then a read of the bank that is worked on, which carries out what remains.
use crate::cuts::{Cuts, CutsAndTurn};
use crate::signs::Sign;
use crate::state::State;
use device::registers::Nvmcon;
use geometry::banks::Geometry;
use geometry::layout::Layout;
use map::window_start;
use words::word::has;

// The fewest program words of a sign.
const FEWEST_WORDS: u32 = 32;

// No operation has more steps than the longest bank has words.
const MOST_STEPS: u32 = 192;

// The address of a place's read: a word of the upper program region, where the new bank stands.
fn address_of(g: Geometry, place: u32) -> u32 {
    match Layout::of(g) {
        Some(layout) => window_start(layout, true, true) + 4 * (place % FEWEST_WORDS),
        None => 0,
    }
}

// Runs the update from power-on to a place.
fn run_to(sign: &Sign, image: &[u32], place: u32) -> State {
    let mut state = sign.state();
    state.power_on();
    state.run_turns(image, u64::from(place));
    state
}

// The line of a place's list with the whole read, and the turn of its place after it.
fn print_read(rt: &impl Print, sign: &Sign, image: &[u32], place: u32) {
    let mut state = run_to(sign, image, place);
    let (declined, word, event) = match state.read(address_of(sign.geometry, place)) {
        Ok(read) => (0, read.word, read.event),
        Err(decline) => (decline.number(), 0, false),
    };
    let event = u8::from(event);
    let rest = CutsAndTurn::of(&mut state, image, sign.old, place);
    let _ = println!(rt; "{place} 0 {declined} {word} {event}{rest}");
}

// Single steps, each but the last with the line of the list that ends after it.
fn print_steps(rt: &impl Print, sign: &Sign, image: &[u32], place: u32) {
    let mut state = run_to(sign, image, place);
    for count in 1..MOST_STEPS {
        let (declined, event) = match state.step() {
            Ok(outcome) => (0, outcome.event),
            Err(decline) => (decline.number(), false),
        };
        if !has(state.device.nvmcon.0, Nvmcon::WR) {
            break;
        }
        let event = u8::from(event);
        let cuts = Cuts::of(&state, image, sign.old);
        let _ = println!(rt; "{place} {count} {declined} {event}{cuts}");
    }
}

/// The lines of all places.
pub fn print_lists(rt: &impl Print, sign: &Sign, image: &[u32], total: u32) {
    for place in 0..=total {
        print_read(rt, sign, image, place);
        print_steps(rt, sign, image, place);
    }
}
