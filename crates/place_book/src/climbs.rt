// Climbs: a place, and each place above it up to the plant.
ghost use Rattle.std.specs.Prelude.{◌≡◌, ◌<◌, ◌≤◌, [], length, reverse};
ghost use Rattle.std.specs.Iterator.{YieldsFirst, item_count};
ghost use Rattle.place_book.specs.View.{parents_of};
ghost use Rattle.place_book.specs.Meaning.{places_around};

use crate::PlaceBook;
use std::marker::Model;

// What is still to come of a climb: the place reached, if any, and those above it. A clause sees it as that list.
#[derive(Drop)]
pub(crate) struct Climb<'a> {
    book: &'a PlaceBook,
    at: Option<usize>,
}

impl<'a> Model for Climb<'a> {
    ghost use Rattle.std.specs.Prelude.{ℕ, ◌<◌, List, length};
    ghost use Rattle.std.specs.Option.{ForSome};
    ghost use Rattle.place_book.specs.View.{parents_of};
    ghost use Rattle.place_book.specs.Climbs.{climb_from};

    ghost Value = { List ℕ };

    ghost view = { λ c. climb_from (parents_of c.book.now) c.at };

    ghost invariant = { λ c. ForSome c.at (λ p. p < length (parents_of c.book.now)) };
}

impl Iterator for Climb<'_> {
    type Item = usize;

    ghost next_gives = { YieldsFirst (λ c. c) };

    ghost remaining = { item_count (λ c. c) };

    fn next(&mut self) -> Option<usize> {
        let place = self.at?;
        self.at = if place > 0 {
            // the place stands, so no test of the index is needed
            Some(usize::from(self.book.parents.as_slice()[place]))
        } else {
            None
        };
        Some(place)
    }
}

impl PlaceBook {
    // The climb from a place: none from one that does not stand.
    pub(crate) fn climb(&self, place: usize) -> Climb<'_>
        ensures stands { place < length (parents_of self.now) → result ≡ reverse (places_around (parents_of self.now) place) }
        ensures missing { length (parents_of self.now) ≤ place → result ≡ [] }
        ensures few { length result ≤ 256 }
    {
        Climb {
            book: self,
            at: (place < self.place_count()).then_some(place),
        }
    }
}
