// What follows from a fact, one after another.
ghost use Rattle.std.specs.Prelude.{◌≡◌};
ghost use Rattle.std.specs.Iterator.{YieldsFirst, item_count};

use crate::Book;
use std::marker::Model;

// What is still to come of what follows from a fact, in ascending order of codes. A clause sees it as that list.
#[derive(Drop)]
pub struct Consequences<'a, B: Book> {
    book: &'a B,
    fact: u64,
    // how many have come
    come: usize,
}

impl<'a, B: Book> Model for Consequences<'a, B> {
    ghost use Rattle.std.specs.Prelude.{ℕ, List, drop};

    ghost Value = { List ℕ };

    ghost view = { λ s. drop s.come ((B.meaning s.book.now).consequences s.fact) };
}

impl<'a, B: Book> Iterator for Consequences<'a, B> {
    type Item = u64;

    ghost next_gives = { YieldsFirst (λ s. s) };

    ghost remaining = { item_count (λ s. s) };

    fn next(&mut self) -> Option<u64> {
        let code = self.book.nth_following(self.fact, self.come)?;
        self.come += 1;
        Some(code)
    }
}

impl<'a, B: Book> Consequences<'a, B> {
    // What follows from the fact, in ascending order of codes.
    pub fn of(book: &'a B, fact: u64) -> Self
        ensures { result ≡ (B.meaning book.now).consequences fact }
    {
        Consequences {
            book,
            fact,
            come: 0,
        }
    }
}
