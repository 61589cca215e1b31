// What a call gives.
ghost use Rattle.std.specs.Prelude.{◌≡◌, None, Some};
ghost use Rattle.conformance_io.specs.Outcome.{IsOutcome};

use crate::numbers::Numbers;

/// The banks after a call that may have changed them.
#[derive(Clone, Copy)]
pub struct Changed<'a> {
    pub one: &'a [u32],
    pub two: &'a [u32],
    /// The words of the line from both banks on, which tell what they were before the call.
    pub before: &'a str,
}

/// What a call gives: its numbers, and of a call that changes lent banks these.
#[derive(Clone, Copy)]
pub struct Outcome<'a> {
    pub numbers: Numbers,
    pub changed: Option<Changed<'a>>,
}

impl<'a> Outcome<'a> {
    pub fn changing(numbers: Numbers, changed: Changed<'a>) -> Outcome<'a>
        ensures numbers { result.numbers ≡ numbers }
        ensures changed { result.changed ≡ Some changed.entry }
        ensures outcome { IsOutcome result }
    {
        Outcome {
            numbers,
            changed: Some(changed),
        }
    }

    pub fn only(numbers: Numbers) -> Outcome<'a>
        ensures numbers { result.numbers ≡ numbers }
        ensures changed { result.changed ≡ None }
        ensures outcome { IsOutcome result }
    {
        Outcome {
            numbers,
            changed: None,
        }
    }
}
