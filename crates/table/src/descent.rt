// What follows from one of a list of facts, from the largest code down.
ghost use Rattle.std.specs.Prelude.{◌≡◌, ℕ, ◌-◌, ◌<◌, ◌≤◌, length, reverse};
ghost use Rattle.std.specs.List.{Contains, All};
ghost use Rattle.std.specs.Iterator.{YieldsFirst, item_count};
ghost use Rattle.rows.specs.Rows.{RowOf};
ghost use Rattle.book.specs.Meaning.{FollowsFromOne};
ghost use Rattle.table.specs.Descent.{row_left, to_come, codes_left, lows, IsInPlace, Largest};

use crate::LIST_LIMIT;
use crate::lists::KnownList;
use arrayvec::ArrayVec;
use book::Book;

// How many consequences of a fact are still to come, and the largest of them.
#[derive(Default, Drop)]
struct Cursor {
    fact: u64,
    left: usize,
    head: Option<u64>,
}

impl Cursor {
    // The first `left` consequences of the fact are still to come.
    fn before<B: Book>(book: &B, fact: u64, left: usize) -> Self
        requires { left ≤ length ((B.meaning book.now).consequences fact) }
        ensures place { IsInPlace (B.meaning book.now) result }
        ensures fact { result.fact ≡ fact }
        ensures left { result.left ≡ left }
    {
        let head = left
            .checked_sub(1)
            .and_then(|k| book.nth_following(fact, k));
        Cursor { fact, left, head }
    }

    // Leaves `code` behind, where nothing that is still to come is above it.
    fn pass<B: Book>(&mut self, book: &B, code: u64)
        requires place { IsInPlace (B.meaning book.now) self.old }
        requires largest { (c : ℕ) → Contains (row_left (B.meaning book.now) self.old) c → c ≤ code }
        ensures place { IsInPlace (B.meaning book.now) self.new }
        ensures row { row_left (B.meaning book.now) self.new
            ≡ lows code (row_left (B.meaning book.now) self.old) }
    {
        if self.head == Some(code) {
            *self = Cursor::before(book, self.fact, self.left - 1);
        }
    }
}

// A cursor for each fact of a list. It yields each code that follows from one of them once, from the largest down.
#[derive(Drop)]
pub(crate) struct Descent<'a, B: Book> {
    book: &'a B,
    cursors: ArrayVec<Cursor, LIST_LIMIT>,
    ghost in_place: { All (IsInPlace (B.meaning book.now)) cursors.items },
}

impl<'a, B: Book> Descent<'a, B> {
    // All consequences are still to come.
    pub(crate) fn over(list: &KnownList<'a, '_, B>) -> Self
        ensures { RowOf (FollowsFromOne (B.meaning list.now.book.now) list.now.facts.now)
            (reverse (codes_left (B.meaning result.book.now) result.cursors.items)) }
    {
        let book = list.book;
        let mut cursors = ArrayVec::new();
        for fact in list.facts {
            cursors.push(Cursor::before(book, *fact, book.count_following(*fact)));
        }
        Descent { book, cursors }
    }

    // The largest code that is still to come.
    fn largest(&self) -> Option<u64>
        ensures { Largest (to_come (B.meaning self.now.book.now) self.now.cursors.items) result }
    {
        self.cursors.iter().filter_map(|cursor| cursor.head).max()
    }
}

impl<B: Book> Iterator for Descent<'_, B> {
    type Item = u64;

    ghost next_gives = { YieldsFirst (λ d. codes_left (B.meaning d.book.now) d.cursors.items) };

    ghost remaining = { item_count (λ d. codes_left (B.meaning d.book.now) d.cursors.items) };

    fn next(&mut self) -> Option<u64> {
        let code = self.largest()?;
        for cursor in self.cursors.iter_mut() {
            cursor.pass(self.book, code);
        }
        Some(code)
    }
}
