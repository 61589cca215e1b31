// Why a call has no outcome for a line.
ghost use Rattle.conformance_lists.specs.declared.no_outcome.NoOutcome.TheVariants.{Declined};
ghost use Rattle.std.specs.Prelude.{◌≡◌};

use std::error::Error;
use std::fmt;
use words::decline::Decline;

#[derive(Clone, Copy, Debug, PartialEq, Eq)]
pub enum NoOutcome {
    /// The line is no case.
    NoCase,
    /// The call declines.
    Declined(Decline),
}

impl fmt::Display for NoOutcome {
    fn fmt<W: fmt::Write>(&self, f: &mut fmt::Formatter<W>) -> fmt::Result {
        match self {
            NoOutcome::NoCase => write!(f, "?"),
            NoOutcome::Declined(decline) => write!(f, "{}", decline.number()),
        }
    }
}

impl Error for NoOutcome {}

impl From<Decline> for NoOutcome {
    ghost from_gives = { λ decline why. why ≡ Declined decline };

    fn from(decline: Decline) -> NoOutcome {
        NoOutcome::Declined(decline)
    }
}
