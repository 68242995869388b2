// A book of rules: what it answers of facts, what its answers mean, and the laws that every book keeps.
#![tactic(auto)]

ghost use Rattle.std.specs.Prelude.{◌≡◌, ℕ, ◌↔◌, length, IsTrue};
ghost use Rattle.std.specs.List.{slice_get};
ghost use Rattle.book.specs.Meaning.{Meaning, Lawful, Follows};

mod following;
mod lists;

pub use following::Consequences;
pub use lists::{first_against, first_clash, first_unknown};

// A book of rules. A fact is a code, a whole number of 64 bits, and a book knows some codes.
// Its meaning is a collection of worlds; a world says of each known fact whether it holds.
// Of a code that the book does not know the five answers are no, no, no, 0 and none.
pub trait Book {
    // The kind's own number: no more facts than this follow from one fact. At most 65,536.
    const MOST_CONSEQUENCES: usize;

    // The same number, for clauses and laws: each impl gives both, and the check proves them equal.
    ghost MOST_CONSEQUENCES: { ℕ };

    ghost meaning: { Self → Meaning };

    // Whether the book knows the code.
    fn knows(&self, code: u64) -> bool
        ensures { result ≡ (meaning self.now).known code };

    // Whether `fact` follows from `cause`.
    fn follows(&self, cause: u64, fact: u64) -> bool
        ensures { IsTrue result ↔ Follows (meaning self.now) cause fact };

    // Whether two facts, or one taken twice, clash.
    fn clash(&self, first: u64, second: u64) -> bool
        ensures { result ≡ (meaning self.now).clash first second };

    // How many facts follow from the fact.
    fn count_following(&self, fact: u64) -> usize
        ensures { result ≡ length ((meaning self.now).consequences fact) };

    // Number `k`, from 0, of what follows from the fact, in ascending order of codes.
    fn nth_following(&self, fact: u64, k: usize) -> Option<u64>
        ensures { result ≡ slice_get ((meaning self.now).consequences fact) k };

    ghost lawful: { (b : Self) → Lawful (meaning b) MOST_CONSEQUENCES };
}
