// Facts taken apart.
ghost use Rattle.std.specs.Prelude.{◌≡◌, ◌<◌, ◌^◌};
ghost use Rattle.place_book.specs.Facts.{code_of, thing_of, place_of};

// That a thing is in a place. The bounds are those of codes of 64 bits.
// `as` stands in the conversions, since `u64` and `usize` have no `From`.
#[derive(Clone, Copy)]
pub(crate) struct Fact {
    pub(crate) thing: u64,
    pub(crate) place: usize,
    ghost few_things: { thing < 2 ^ 56 },
    ghost few_places: { place < 256 },
}

impl From<u64> for Fact {
    ghost from_gives = { λ code fact. (fact.thing ≡ thing_of code) × (fact.place ≡ place_of code) };

    fn from(code: u64) -> Fact {
        Fact {
            thing: code / 256,
            place: (code % 256) as usize,
        }
    }
}

impl From<Fact> for u64 {
    ghost from_gives = { λ fact code. code ≡ code_of fact.thing fact.place };

    fn from(fact: Fact) -> u64 {
        fact.thing * 256 + fact.place as u64
    }
}
