// Sums of words in their order, modulo a prime above every word: another word at one index is another sum.
use crate::state::{Progress, State};
use conformance_io::records::DeviceNumbers;
use device::record::Device;
use std::fmt;

const PRIME: u64 = 4294967311;

const FACTOR: u64 = 1000003;

#[derive(Clone, Copy, Default)]
struct Sum(u64);

impl Sum {
    fn add(&mut self, word: u32) {
        self.0 = ((self.0 % PRIME) * FACTOR + u64::from(word)) % PRIME;
    }

    fn add_all(&mut self, words: &[u32]) {
        for word in words {
            self.add(*word);
        }
    }

    fn add_device(&mut self, d: Device) {
        self.add_all(&DeviceNumbers::from(d).0);
    }
}

/// The sums of a place, which print each after a blank.
#[derive(Clone, Copy, Default)]
pub struct Sums {
    state: Sum,
    devices: Sum,
    cut_one: Sum,
    cut_two: Sum,
    again_one: Sum,
    again_two: Sum,
}

impl Sums {
    /// The sums of a place before its first cut.
    pub fn of(state: &State) -> Sums {
        let (one, two) = state.banks();
        let mut sum = Sum::default();
        sum.add_device(state.device);
        sum.add_all(one);
        sum.add_all(two);
        Sums {
            state: sum,
            ..Sums::default()
        }
    }

    pub fn add_cut(&mut self, state: &State) {
        let (one, two) = state.banks();
        self.devices.add_device(state.device);
        self.cut_one.add_all(one);
        self.cut_two.add_all(two);
    }

    pub fn add_again(&mut self, state: &State, progress: Progress) {
        let (one, two) = state.banks();
        self.devices.add_device(state.device);
        self.devices.add(progress.place);
        self.devices.add(progress.events);
        self.again_one.add_all(one);
        self.again_two.add_all(two);
    }
}

impl fmt::Display for Sums {
    fn fmt<W: fmt::Write>(&self, f: &mut fmt::Formatter<W>) -> fmt::Result {
        write!(f, " {} {}", self.state.0, self.devices.0)?;
        write!(f, " {} {}", self.cut_one.0, self.cut_two.0)?;
        write!(f, " {} {}", self.again_one.0, self.again_two.0)
    }
}
