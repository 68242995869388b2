// Why a list is refused.
ghost use Rattle.std.specs.Prelude.{◌≡◌, Some};
ghost use Rattle.table.specs.Refusals.{number_of};
ghost use Rattle.table.specs.Printed.{refusal_text};

use std::error::Error;
use std::fmt;

#[derive(Clone, Copy, PartialEq, Eq, Debug)]
pub enum Refusal {
    // The list has over 256 codes; its length.
    TooLong(usize),
    // The book does not know a code; the place of the first such code.
    Unknown(usize),
    // Two delivered facts clash, or one clashes with itself; the places i and j, i ≤ j, with the least j, then the least i.
    Clash((usize, usize)),
    // There would be more facts than cells in use; how many there would be.
    Full(usize),
}

impl Refusal {
    // The refusal's number.
    pub fn number(self) -> u8
        ensures { result ≡ number_of self }
    {
        match self {
            Refusal::TooLong(_) => 6,
            Refusal::Unknown(_) => 7,
            Refusal::Clash(_) => 8,
            Refusal::Full(_) => 9,
        }
    }
}

impl fmt::Display for Refusal {
    ghost output = { λ e. Some (refusal_text e) };

    fn fmt<W: fmt::Write>(&self, f: &mut fmt::Formatter<W>) -> fmt::Result {
        let number = self.number();
        match *self {
            Refusal::TooLong(n) | Refusal::Unknown(n) | Refusal::Full(n) => {
                write!(f, "refused {number} {n}")
            }
            Refusal::Clash((i, j)) => write!(f, "refused {number} {i} {j}"),
        }
    }
}

impl Error for Refusal {}
