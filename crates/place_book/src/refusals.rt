// Why a new place is refused.
ghost use Rattle.std.specs.Prelude.{◌≡◌, Some};
ghost use Rattle.place_book.specs.Refusals.{number_of, returned_by};
ghost use Rattle.place_book.specs.Printed.{refusal_text};

use std::error::Error;
use std::fmt;

#[derive(Clone, Copy, PartialEq, Eq, Debug)]
pub enum Refusal {
    // The parent does not stand.
    NoParent(usize),
    // 256 places stand.
    Full,
}

impl Refusal {
    // The refusal's number.
    pub fn number(self) -> u8
        ensures { result ≡ number_of self }
    {
        match self {
            Refusal::NoParent(_) => 4,
            Refusal::Full => 5,
        }
    }

    // What the refusal returns.
    pub fn returned(self) -> usize
        ensures { result ≡ returned_by self }
    {
        match self {
            Refusal::NoParent(parent) => parent,
            Refusal::Full => 256,
        }
    }
}

impl fmt::Display for Refusal {
    ghost output = { λ e. Some (refusal_text e) };

    fn fmt<W: fmt::Write>(&self, f: &mut fmt::Formatter<W>) -> fmt::Result {
        let number = self.number();
        let returned = self.returned();
        write!(f, "refused {number} {returned}")
    }
}

impl Error for Refusal {}
