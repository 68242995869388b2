// Deliveries.
ghost use Rattle.std.specs.Prelude.{◌≡◌, ◌+◌, ◌*◌, ◌≤◌, ◌⊎◌, length, count_by, IfOk, OnErr, MatchResult};
ghost use Rattle.std.specs.List.{Contains};
ghost use Rattle.rows.specs.Rows.{RowOf, Count};
ghost use Rattle.book.specs.Meaning.{FollowsFromOne};
ghost use Rattle.table.specs.Cells.{used, laid};
ghost use Rattle.table.specs.Facts.{UnknownStay};
ghost use Rattle.table.specs.Descent.{Comes};
ghost use Rattle.table.specs.Checks.{stays, TooMany};
ghost use Rattle.table.specs.Calls.{Delivers};
ghost use Rattle.table.specs.Worlds.{DeliveryByWorlds, SomeWorldHoldsExactly};
ghost use Rattle.table.specs.View.{cells_of, facts_of, KeepsCells};

use crate::lists::Delivery;
use crate::making::size_of;
use crate::{Refusal, Table};
use book::Book;

impl<'a> Table<'a> {
    // Delivers the facts of the list: everything that follows from one of them is held then, and each earlier fact
    // that clashes with none of them stays. Answers how many facts are gone and how many have come.
    pub fn deliver<B: Book>(&mut self, book: &B, list: &[u64]) -> Result<(usize, usize), Refusal>
        ensures facts { Delivers (B.meaning book.now) (used (cells_of self.old)) list.now (facts_of self.old) (facts_of self.new) result }
        ensures cells { cells_of self.new ≡ laid (facts_of self.new) (cells_of self.old) }
        ensures refusal { OnErr result (self.new ≡ self.old) }
        ensures few { IfOk result (λ counts. counts.1 ≤ length list.now * B.MOST_CONSEQUENCES) }
        ensures unknown_stay { UnknownStay (B.meaning book.now) (facts_of self.old) (facts_of self.new) }
        ensures by_worlds { DeliveryByWorlds (B.meaning book.now) list.now (facts_of self.old) (facts_of self.new) result }
        ensures some_world { SomeWorldHoldsExactly (B.meaning book.now) (facts_of self.old) → SomeWorldHoldsExactly (B.meaning book.now) (facts_of self.new) }
        ensures named { self.new.cells.ghost_name ≡ self.old.cells.ghost_name }
    {
        self.take_in(book, list)
    }

    // A delivery, without what the laws and the worlds say of it.
    fn take_in<B: Book>(&mut self, book: &B, list: &[u64]) -> Result<(usize, usize), Refusal>
        ensures facts { Delivers (B.meaning book.now) (used (cells_of self.old)) list.now (facts_of self.old) (facts_of self.new) result }
        ensures cells { KeepsCells self.old self.new }
        ensures refusal { OnErr result (self.new ≡ self.old) }
    {
        let delivery = Delivery::of(book, list)?;
        let come = delivery.coming(self.facts());
        self.check_room(&delivery, come)?;
        let gone = self.retain(|fact| delivery.spares(fact));
        self.enter(&delivery, come);
        Ok((gone, come))
    }

    // The facts that stay, with `come` more, are no more than the cells in use. Where they would be so even if all
    // stayed, the book is not asked which go.
    fn check_room<B: Book>(
        &self,
        delivery: &Delivery<'_, '_, B>,
        come: usize,
    ) -> Result<(), Refusal>
        requires { come ≤ 256 * 65536 }
        ensures { let facts = count_by (stays (B.meaning delivery.now.list.book.now) delivery.now.list.facts.now) (facts_of self.now) + come in
            MatchResult result (λ _. facts ≤ used (cells_of self.now)) (TooMany facts (used (cells_of self.now))) }
    {
        let size = size_of(self.cells);
        if self.held + come <= size {
            return Ok(());
        }
        let staying = self
            .facts()
            .iter()
            .filter(|fact| delivery.spares(**fact))
            .count();
        let facts = staying + come;
        if facts > size {
            return Err(Refusal::Full(facts));
        }
        Ok(())
    }

    // Enters what follows from the delivered facts, of which `come` are new.
    fn enter<B: Book>(&mut self, delivery: &Delivery<'_, '_, B>, come: usize)
        requires come { Count (Comes (B.meaning delivery.now.list.book.now) delivery.now.list.facts.now (facts_of self.old)) come }
        requires room { length (facts_of self.old) + come ≤ used (cells_of self.old) }
        ensures facts { RowOf (λ c. FollowsFromOne (B.meaning delivery.now.list.book.now) delivery.now.list.facts.now c ⊎ Contains (facts_of self.old) c) (facts_of self.new) }
        ensures number { length (facts_of self.new) ≡ length (facts_of self.old) + come }
        ensures cells { KeepsCells self.old self.new }
    {
        let held = self.held + come;
        delivery.enter(&mut self.cells[..held], self.held);
        self.held = held;
    }
}
