// The cuts of a state.
use crate::state::{Bank, State, Turned, number_of};
use crate::sums::Sums;
use std::fmt;
use words::decline::Decline;

// The cuts of a place: for each of three kinds of reset, each mask.
const CUTS: usize = 18;

const MASKS: [[u32; 4]; 6] = [
    [0; 4],
    [0xFFFF_FFFF; 4],
    [0x5555_5555; 4],
    [0xAAAA_AAAA; 4],
    [0x1234_5678, 0x9ABC_DEF0, 0x0F1E_2D3C, 0x4B5A_6978],
    [0xFFFF_FFFF, 0, 0, 0],
];

// What a cut leaves: the bank that runs then and, where it is the old one, how a second start of the same update is
// answered and which bank runs after that update, a power-on and a start-up.
#[derive(Clone, Copy, Default)]
struct Cut {
    running: Option<Bank>,
    again: Option<Result<Option<Bank>, Decline>>,
}

impl fmt::Display for Cut {
    fn fmt<W: fmt::Write>(&self, f: &mut fmt::Formatter<W>) -> fmt::Result {
        let (declined, after) = match self.again {
            None => (0, None),
            Some(Ok(bank)) => (0, bank),
            Some(Err(decline)) => (decline.number(), None),
        };
        write!(
            f,
            " {} {declined} {}",
            number_of(self.running),
            number_of(after)
        )
    }
}

// Starts the same update again, and runs it to its total.
fn update_again(
    state: &mut State,
    image: &[u32],
    sums: &mut Sums,
) -> Result<Option<Bank>, Decline> {
    let started = state.start(image)?;
    let progress = state.run_turns(image, u64::from(started.total) + 1);
    sums.add_again(state, progress);
    if !progress.is_done {
        return Ok(None);
    }
    Ok(state.power_on())
}

impl Cut {
    // The cut of a number, of a copy of the state.
    fn of(state: &State, image: &[u32], old: Bank, number: u32, sums: &mut Sums) -> Cut {
        let mut copy = *state;
        let running = copy.restart(number / 6, MASKS[number as usize % 6]);
        sums.add_cut(&copy);
        let again = if running == Some(old) {
            Some(update_again(&mut copy, image, sums))
        } else {
            None
        };
        Cut { running, again }
    }
}

/// Every cut of a state, and the sums; each number prints after a blank.
#[derive(Clone, Copy)]
pub struct Cuts {
    cuts: [Cut; CUTS],
    sums: Sums,
}

impl Cuts {
    pub fn of(state: &State, image: &[u32], old: Bank) -> Cuts {
        let mut cuts = [Cut::default(); CUTS];
        let mut sums = Sums::of(state);
        for (number, cut) in (0..).zip(cuts.iter_mut()) {
            *cut = Cut::of(state, image, old, number, &mut sums);
        }
        Cuts { cuts, sums }
    }
}

impl fmt::Display for Cuts {
    fn fmt<W: fmt::Write>(&self, f: &mut fmt::Formatter<W>) -> fmt::Result {
        for cut in &self.cuts {
            write!(f, "{cut}")?;
        }
        write!(f, "{}", self.sums)
    }
}

/// The rest of a line: the cuts of a state, and the turn of a place from it.
#[derive(Clone, Copy)]
pub struct CutsAndTurn {
    cuts: Cuts,
    turned: Result<Turned, Decline>,
}

impl CutsAndTurn {
    pub fn of(state: &mut State, image: &[u32], old: Bank, place: u32) -> CutsAndTurn {
        CutsAndTurn {
            cuts: Cuts::of(state, image, old),
            turned: state.turn(image, place),
        }
    }
}

impl fmt::Display for CutsAndTurn {
    fn fmt<W: fmt::Write>(&self, f: &mut fmt::Formatter<W>) -> fmt::Result {
        let (declined, done, event) = match self.turned {
            Ok(turned) => (0, turned.done, turned.event),
            Err(decline) => (decline.number(), false, false),
        };
        let (done, event) = (u8::from(done), u8::from(event));
        write!(f, "{} {declined} {done} {event}", self.cuts)
    }
}
