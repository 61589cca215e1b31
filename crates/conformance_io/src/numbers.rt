// The numbers that a call gives, and a device's as text.
// What asks for room for a number is no call of the device: its callers show it.
ghost use Rattle.std.specs.Prelude.{◌≡◌, ◌+◌, ◌<◌, ◌≤◌, ◌++◌, [], ◌∷◌, Some};

use crate::records::DeviceNumbers;
use std::fmt;

/// At most 26 numbers.
#[derive(Clone, Copy)]
pub struct Numbers {
    count: usize,
    words: [u32; 26],
    ghost few: { count ≤ 26 },
}

impl Numbers {
    ghost use Rattle.conformance_io.specs.Numbers.{listed};

    fn none() -> Numbers
        ensures { result.count ≡ 0 }
    {
        Numbers {
            count: 0,
            words: [0; 26],
        }
    }

    pub fn one(number: u32) -> Numbers
        ensures count { result.count ≡ 1 }
        ensures list { listed result ≡ number ∷ [] }
    {
        let mut words = [0; 26];
        words[0] = number;
        Numbers { count: 1, words }
    }

    /// These and one more.
    pub fn and(mut self, number: u32) -> Numbers
        requires { self.count < 26 }
        ensures count { result.count ≡ self.count + 1 }
        ensures list { listed result ≡ listed self ++ (number ∷ []) }
    {
        self.words[self.count] = number;
        self.count += 1;
        self
    }

    /// These and a device's.
    pub fn and_device(self, device: DeviceNumbers) -> Numbers
        requires { self.count ≤ 7 }
        ensures count { result.count ≡ self.count + 19 }
        ensures list { listed result ≡ listed self ++ device.0 }
    {
        let mut numbers = self;
        for number in &device.0 {
            numbers = numbers.and(*number);
        }
        numbers
    }

    pub fn as_slice(&self) -> &[u32]
        ensures { result.now ≡ listed self.now }
    {
        &self.words[..self.count]
    }
}

// Prints them with one blank between two.
impl fmt::Display for Numbers {
    ghost use Rattle.conformance_io.specs.Numbers.{listed};
    ghost use Rattle.conformance_io.specs.Text.{numbers_text};

    ghost output = { λ numbers. Some (numbers_text (listed numbers)) };

    fn fmt<W: fmt::Write>(&self, f: &mut fmt::Formatter<W>) -> fmt::Result {
        let Some((first, others)) = self.as_slice().split_first() else {
            return Ok(());
        };
        write!(f, "{first}")?;
        for number in others {
            write!(f, " {number}")?;
        }
        Ok(())
    }
}

// Prints its numbers with one blank between two.
impl fmt::Display for DeviceNumbers {
    ghost use Rattle.conformance_io.specs.Text.{numbers_text};

    ghost output = { λ device. Some (numbers_text device.0) };

    fn fmt<W: fmt::Write>(&self, f: &mut fmt::Formatter<W>) -> fmt::Result {
        Numbers::none().and_device(*self).fmt(f)
    }
}
