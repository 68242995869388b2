// The places of a plant, open to more or sealed.
ghost use Rattle.std.specs.Prelude.{◌<◌, ◌≤◌, length};
ghost use Rattle.place_book.specs.Places.{ParentsAreSmaller};

use arrayvec::ArrayVec;
use std::marker::PhantomData;

// More places may be added.
pub enum Open {}

// The places stay as they are.
pub enum Sealed {}

// Places, each by its parent. Place 0, the plant, always stands, and its own entry is not read.
// A parent is a number, and all stand in the value itself: nothing is taken from the heap.
#[derive(Drop)]
pub struct Places<S> {
    pub(crate) parents: ArrayVec<u8, 256>,
    pub(crate) state: PhantomData<S>,
    ghost plant: { 0 < length parents.items },
    ghost few: { length parents.items ≤ 256 },
    ghost smaller: { ParentsAreSmaller parents.items },
}

// Places that are still being added.
pub type Draft = Places<Open>;

// The book of a sealed draft.
pub type PlaceBook = Places<Sealed>;

impl<S> Places<S> {
    ghost use Rattle.std.specs.Prelude.{◌≡◌, ◌<◌, ◌≤◌, length};
    ghost use Rattle.place_book.specs.Places.{ParentOf};
    ghost use Rattle.place_book.specs.View.{parents_of};

    // How many places stand.
    pub fn place_count(&self) -> usize
        ensures number { result ≡ length (parents_of self.now) }
        ensures bounds { (0 < result) × (result ≤ 256) }
    {
        self.parents.len()
    }

    // The parent of a place: none for place 0, and for one that does not stand.
    pub fn parent(&self, place: usize) -> Option<usize>
        ensures { ParentOf (parents_of self.now) place result }
    {
        if place == 0 {
            return None;
        }
        self.parents.get(place).copied().map(usize::from)
    }
}
