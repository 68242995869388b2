// Drafts of places: new, one place more, sealed.
ghost use Rattle.std.specs.Prelude.{◌≡◌, [], ◌∷◌, ◌++◌, MatchResult};
ghost use Rattle.place_book.specs.Refusals.{Accepted, Refused};
ghost use Rattle.place_book.specs.View.{parents_of};

use crate::{Open, PlaceBook, Places, Refusal};
use arrayvec::ArrayVec;
use std::marker::PhantomData;
use std::mem;

impl Places<Open> {
    // The plant alone, place 0.
    pub fn new() -> Self
        ensures { parents_of result ≡ 0 ∷ [] }
    {
        let mut parents = ArrayVec::new();
        parents.push(0);
        Places {
            parents,
            state: PhantomData,
        }
    }

    // A new place under `parent`: its number, the next free one, or a refusal, which leaves the draft as it was.
    pub fn add(&mut self, parent: usize) -> Result<usize, Refusal>
        ensures number { MatchResult result (Accepted (parents_of self.old) parent) (Refused (parents_of self.old) parent) }
        ensures places { MatchResult result (λ _. parents_of self.new ≡ parents_of self.old ++ (parent ∷ [])) (λ _. self.new ≡ self.old) }
    {
        let place = self.place_count();
        if parent >= place {
            return Err(Refusal::NoParent(parent));
        }
        if self.parents.is_full() {
            return Err(Refusal::Full);
        }
        let Places { mut parents, .. } = mem::replace(self, Self::new());
        // it stands, so it is below 256: `try_from` would add a branch that never runs
        parents.push(parent as u8);
        *self = Places {
            parents,
            state: PhantomData,
        };
        Ok(place)
    }

    // The book of these places.
    pub fn seal(self) -> PlaceBook
        ensures { parents_of result ≡ parents_of self }
    {
        let Places { parents, .. } = self;
        Places {
            parents,
            state: PhantomData,
        }
    }
}
