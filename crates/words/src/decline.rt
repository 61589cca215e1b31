// Why a call is declined: one error for every layer.
ghost use Rattle.std.specs.Prelude.{◌≡◌};
ghost use Rattle.words.specs.Decline.{number_of};

use std::error::Error;
use std::fmt;

// 0 is the number of a call that is not declined.
#[derive(Clone, Copy, Debug, PartialEq, Eq)]
pub enum Decline {
    // 1: Q, B or P is outside its list or range.
    Geometry,
    // 2: a bank, an image or the SRAM has a wrong length.
    Length,
    // 3: the device record is impossible.
    Device,
    // 4: no such register or form.
    Register,
    // 5: WR = 1.
    Running,
    // 6: a step with WR = 0.
    Idle,
    // 7: no such reset kind.
    ResetKind,
    // 8: no such address or page.
    Address,
    // 9 is no longer given: a read of the bank that is worked on waits.
    // 10: the sequence words or the mapping do not allow an update.
    Sequence,
    // 11: the last sequence number is in use.
    LastSequence,
    // 12: the protection does not allow an update.
    Protection,
    // 13: a place past the total.
    Place,
    // 14: not a script.
    Script,
    // 15: a number of the plan is out of range.
    Hours,
    // 16: no wait fits.
    NoWait,
    // 17: the buffer is shorter than the script.
    ScriptBuffer,
    // 18: the buffer is shorter than the sheet.
    SheetBuffer,
    // 19: a row, its queue or its store cannot be served.
    Row,
    // 20: more than 64 records.
    Records,
    // 21: the play never gives the number.
    NotShown,
    // 22: the two lengths differ or are no multiple of 4.
    Lanes,
}

impl Decline {
    // The paper's number of a decline.
    pub fn number(self) -> u32
        ensures { result ≡ number_of (Err self) }
    {
        match self {
            Decline::Geometry => 1,
            Decline::Length => 2,
            Decline::Device => 3,
            Decline::Register => 4,
            Decline::Running => 5,
            Decline::Idle => 6,
            Decline::ResetKind => 7,
            Decline::Address => 8,
            Decline::Sequence => 10,
            Decline::LastSequence => 11,
            Decline::Protection => 12,
            Decline::Place => 13,
            Decline::Script => 14,
            Decline::Hours => 15,
            Decline::NoWait => 16,
            Decline::ScriptBuffer => 17,
            Decline::SheetBuffer => 18,
            Decline::Row => 19,
            Decline::Records => 20,
            Decline::NotShown => 21,
            Decline::Lanes => 22,
        }
    }
}

impl fmt::Display for Decline {
    fn fmt<W: fmt::Write>(&self, f: &mut fmt::Formatter<W>) -> fmt::Result {
        write!(f, "declined as {}", self.number())
    }
}

impl Error for Decline {}
