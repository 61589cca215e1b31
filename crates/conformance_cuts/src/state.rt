// A sign's device with both banks: resets with a start-up, flash steps and reads, turns and whole updates, all with no SRAM.
ghost use Rattle.std.specs.Prelude.{◌≤◌};

use crate::signs::{MOST_WORDS, Sign};
use device::outcome::Outcome;
use device::record::Device;
use device::registers::Nvmcon;
use flash::step::step;
use reads::{FlashWord, flash_read};
use resets::reset;
use start_up::start_up;
use update::start::UpdateStart;
use update_start::start;
use update_turn::turn;
use words::decline::Decline;
use words::word::has;

#[derive(Clone, Copy, Debug, PartialEq, Eq)]
pub enum Bank {
    One = 1,
    Two = 2,
}

/// The number of a bank, and 0 where there is none.
pub fn number_of(bank: Option<Bank>) -> u32 {
    bank.map_or(0, |bank| bank as u32)
}

/// How far an update came.
#[derive(Clone, Copy, Debug, Default, PartialEq, Eq)]
pub struct Progress {
    pub place: u32,
    pub events: u32,
    pub is_done: bool,
}

/// What a turn tells beside the device.
#[derive(Clone, Copy, Debug, PartialEq, Eq)]
pub struct Turned {
    pub place: u32,
    pub done: bool,
    pub event: bool,
}

/// The first words of each array, as many as the sign has, are a bank.
#[derive(Clone, Copy)]
pub struct State {
    pub sign: Sign,
    pub device: Device,
    pub one: [u32; MOST_WORDS],
    pub two: [u32; MOST_WORDS],
}

// A bank in its array.
fn lent(array: &mut [u32; MOST_WORDS], words: usize) -> &mut [u32]
    requires { words ≤ 192 }
{
    &mut array[..words]
}

impl State {
    /// Bank 1 and bank 2.
    pub fn banks(&self) -> (&[u32], &[u32]) {
        let words = self.sign.words;
        (&self.one[..words], &self.two[..words])
    }

    fn reset_and_start_up(&mut self, kind: u32, mask: [u32; 4]) -> Result<(), Decline> {
        let (g, words) = (self.sign.geometry, self.sign.words);
        let after = reset(
            g,
            self.device,
            lent(&mut self.one, words),
            lent(&mut self.two, words),
            &[],
            kind,
            mask,
        )?;
        self.device = after.device;
        self.device = start_up(g, self.device)?;
        Ok(())
    }

    // The bank that BFSWAP and PFSWAP both put lower.
    fn running(&self) -> Option<Bank> {
        let con = self.device.nvmcon.0;
        match (has(con, Nvmcon::BFSWAP), has(con, Nvmcon::PFSWAP)) {
            (false, false) => Some(Bank::One),
            (true, true) => Some(Bank::Two),
            _ => None,
        }
    }

    /// A reset and a start-up; gives the bank that runs then, or none where one of the two is declined.
    pub fn restart(&mut self, kind: u32, mask: [u32; 4]) -> Option<Bank> {
        self.reset_and_start_up(kind, mask).ok()?;
        self.running()
    }

    /// A power-on and a start-up.
    pub fn power_on(&mut self) -> Option<Bank> {
        self.restart(0, [0; 4])
    }

    pub fn step(&mut self) -> Result<Outcome, Decline> {
        let (g, words) = (self.sign.geometry, self.sign.words);
        let outcome = step(
            g,
            self.device,
            lent(&mut self.one, words),
            lent(&mut self.two, words),
            &[],
        )?;
        self.device = outcome.device;
        Ok(outcome)
    }

    pub fn read(&mut self, address: u32) -> Result<FlashWord, Decline> {
        let (g, words) = (self.sign.geometry, self.sign.words);
        let read = flash_read(
            g,
            self.device,
            lent(&mut self.one, words),
            lent(&mut self.two, words),
            &[],
            address,
        )?;
        self.device = read.device;
        Ok(read)
    }

    pub fn start(&self, image: &[u32]) -> Result<UpdateStart, Decline> {
        let (one, two) = self.banks();
        start(self.sign.geometry, self.device, one, two, image)
    }

    // One function for every turn, without `?`: this runs millions of times, and each move of an outcome counts.
    pub fn turn(&mut self, image: &[u32], place: u32) -> Result<Turned, Decline> {
        let (g, words) = (self.sign.geometry, self.sign.words);
        match turn(
            g,
            self.device,
            lent(&mut self.one, words),
            lent(&mut self.two, words),
            image,
            &[],
            place,
        ) {
            Ok(outcome) => {
                self.device = outcome.device;
                Ok(Turned {
                    place: outcome.place,
                    done: outcome.done,
                    event: outcome.event,
                })
            }
            Err(decline) => Err(decline),
        }
    }

    // The turn of the place that an update has reached; one that is declined leaves it.
    fn advance(&mut self, image: &[u32], progress: Progress) -> Progress {
        match self.turn(image, progress.place) {
            Ok(turned) => Progress {
                place: turned.place,
                events: progress.events.wrapping_add(u32::from(turned.event)),
                is_done: turned.done,
            },
            Err(_) => progress,
        }
    }

    /// So many turns from place 0.
    pub fn run_turns(&mut self, image: &[u32], count: u64) -> Progress {
        let mut progress = Progress::default();
        for _ in 0..count {
            progress = self.advance(image, progress);
        }
        progress
    }
}
