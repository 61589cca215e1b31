// Kinds of reset.
ghost use Rattle.resets.specs.Kind.{KindOf};

use words::decline::Decline;

#[derive(Clone, Copy, PartialEq, Eq, Debug)]
pub enum Kind {
    PowerOn,
    BrownOut,
    Other,
}

impl TryFrom<u32> for Kind {
    type Error = Decline;

    ghost try_from_gives = { KindOf };

    fn try_from(number: u32) -> Result<Self, Decline> {
        match number {
            0 => Ok(Kind::PowerOn),
            1 => Ok(Kind::BrownOut),
            2 => Ok(Kind::Other),
            _ => Err(Decline::ResetKind),
        }
    }
}
