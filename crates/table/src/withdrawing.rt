// Withdrawals.
ghost use Rattle.std.specs.Prelude.{◌≡◌, OnErr};
ghost use Rattle.table.specs.Cells.{laid};
ghost use Rattle.table.specs.Facts.{UnknownStay};
ghost use Rattle.table.specs.Calls.{Withdraws};
ghost use Rattle.table.specs.Worlds.{WithdrawalByWorlds, SomeWorldHoldsExactly};
ghost use Rattle.table.specs.View.{cells_of, facts_of, KeepsCells};

use crate::lists::KnownList;
use crate::{Refusal, Table};
use book::Book;

impl<'a> Table<'a> {
    // Withdraws the facts of the list: the earlier facts stay from which none of them follows.
    // Answers how many facts are gone, and 0.
    pub fn withdraw<B: Book>(&mut self, book: &B, list: &[u64]) -> Result<(usize, usize), Refusal>
        ensures facts { Withdraws (B.meaning book.now) list.now (facts_of self.old) (facts_of self.new) result }
        ensures cells { cells_of self.new ≡ laid (facts_of self.new) (cells_of self.old) }
        ensures refusal { OnErr result (self.new ≡ self.old) }
        ensures unknown_stay { UnknownStay (B.meaning book.now) (facts_of self.old) (facts_of self.new) }
        ensures by_worlds { WithdrawalByWorlds (B.meaning book.now) list.now (facts_of self.old) (facts_of self.new) result }
        ensures some_world { SomeWorldHoldsExactly (B.meaning book.now) (facts_of self.old) → SomeWorldHoldsExactly (B.meaning book.now) (facts_of self.new) }
        ensures named { self.new.cells.ghost_name ≡ self.old.cells.ghost_name }
    {
        self.take_out(book, list)
    }

    // A withdrawal, without what the laws and the worlds say of it.
    fn take_out<B: Book>(&mut self, book: &B, list: &[u64]) -> Result<(usize, usize), Refusal>
        ensures facts { Withdraws (B.meaning book.now) list.now (facts_of self.old) (facts_of self.new) result }
        ensures cells { KeepsCells self.old self.new }
        ensures refusal { OnErr result (self.new ≡ self.old) }
    {
        let named = KnownList::of(book, list)?;
        let gone = self.retain(|fact| named.spares(fact));
        Ok((gone, 0))
    }
}
