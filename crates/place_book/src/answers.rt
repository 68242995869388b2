// What a book of places answers.
ghost use Rattle.std.specs.Prelude.{◌≡◌, ℕ, ◌<◌, ◌↔◌, List, length, IsTrue};
ghost use Rattle.std.specs.List.{slice_get};
ghost use Rattle.book.specs.Meaning.{Follows, TellsFollows, TellsClash};
ghost use Rattle.place_book.specs.Places.{Within};
ghost use Rattle.place_book.specs.Meaning.{consequences, clash, place_meaning};
ghost use Rattle.place_book.specs.Facts.{CodeOf, PartsOf, FactFollows, ListsFollowing, FactsClash};
ghost use Rattle.place_book.specs.View.{parents_of};
ghost use Rattle.place_book.specs.Laws.{place_book_lawful};

use crate::PlaceBook;
use crate::facts::Fact;
use book::Book;

impl PlaceBook {
    // The code of the fact that the thing is in the place, if the book knows that fact.
    pub fn fact(&self, thing: u32, place: usize) -> Option<u64>
        ensures { CodeOf (parents_of self.now) thing place result }
    {
        if thing >= 65536 || place >= self.place_count() {
            return None;
        }
        let thing = u64::from(thing);
        Some(u64::from(Fact { thing, place }))
    }

    // The thing and the place of a fact that the book knows.
    pub fn parts(&self, fact: u64) -> Option<(u32, usize)>
        ensures { PartsOf (parents_of self.now) fact result }
    {
        let Fact { thing, place } = Fact::from(fact);
        // a known thing is below 65,536: `try_from` would add a branch that never runs
        self.knows(fact).then(|| (thing as u32, place))
    }

    // Whether the place stands and is `outer` or lies below it: a climb that stops there or at a smaller number.
    pub fn is_within(&self, place: usize, outer: usize) -> bool
        ensures { IsTrue result ↔ ((place < length (parents_of self.now)) × Within (parents_of self.now) place outer) }
    {
        if place >= self.place_count() {
            return false;
        }
        let mut at = place;
        // (a loop: `find` over `climb` takes up to twice the time where the climb is short)
        while at > outer {
            at = usize::from(self.parents.as_slice()[at]);
        }
        at == outer
    }
}

impl Book for PlaceBook {
    const MOST_CONSEQUENCES: usize = 256;

    ghost MOST_CONSEQUENCES = { 256 };

    ghost meaning = { λ b. place_meaning (parents_of b) };

    ghost lawful = { λ b. place_book_lawful (parents_of b) b.smaller b.few };

    fn knows(&self, code: u64) -> bool {
        let Fact { thing, place } = Fact::from(code);
        thing < 65536 && place < self.place_count()
    }

    // One thing, in a place and in one at or above it.
    fn follows(&self, cause: u64, fact: u64) -> bool
        ensures listed { IsTrue result ↔ Follows (place_meaning (parents_of self.now)) cause fact }
        ensures above { IsTrue result ↔ FactFollows (parents_of self.now) cause fact }
        ensures worlds { TellsFollows (place_meaning (parents_of self.now)) cause fact result }
    {
        let (below, above) = (Fact::from(cause), Fact::from(fact));
        // most questions are of two things, so that is asked first
        if below.thing != above.thing {
            return false;
        }
        self.is_within(below.place, above.place) && self.knows(cause)
    }

    // One thing, in two places of which neither lies within the other.
    fn clash(&self, first: u64, second: u64) -> bool
        ensures tested { result ≡ clash (parents_of self.now) first second }
        ensures apart { IsTrue result ↔ FactsClash (parents_of self.now) first second }
        ensures worlds { TellsClash (place_meaning (parents_of self.now)) first second result }
    {
        let (one, other) = (Fact::from(first), Fact::from(second));
        // most questions are of two things, so that is asked first
        if one.thing != other.thing {
            return false;
        }
        !self.is_within(one.place, other.place)
            && !self.is_within(other.place, one.place)
            && self.knows(first)
            && self.knows(second)
    }

    fn count_following(&self, fact: u64) -> usize
        ensures listed { result ≡ length (consequences (parents_of self.now) fact) }
        ensures above { (l : List ℕ) × ListsFollowing (parents_of self.now) fact l × (result ≡ length l) }
    {
        match self.parts(fact) {
            Some((_, place)) => self.climb(place).count(),
            None => 0,
        }
    }

    // The climb gives the places from below, and what follows begins at the plant.
    fn nth_following(&self, fact: u64, k: usize) -> Option<u64>
        ensures listed { result ≡ slice_get (consequences (parents_of self.now) fact) k }
        ensures above { (l : List ℕ) × ListsFollowing (parents_of self.now) fact l × (result ≡ slice_get l k) }
    {
        let (thing, place) = self.parts(fact)?;
        let up = self.count_following(fact).checked_sub(k)?.checked_sub(1)?;
        self.climb(place)
            .nth(up)
            .and_then(|above| self.fact(thing, above))
    }
}
