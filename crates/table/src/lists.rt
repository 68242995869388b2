// Lists that can be carried out, and which of the facts held they spare.
ghost use Rattle.std.specs.Prelude.{◌≡◌, ◌-◌, ◌*◌, ◌≤◌, ◌⊎◌, length, take, IfOk, IfErr};
ghost use Rattle.std.specs.List.{Contains};
ghost use Rattle.rows.specs.Rows.{Ascending, RowOf, Count};
ghost use Rattle.book.specs.Meaning.{AllKnown, NothingClashes, FollowsFromOne};
ghost use Rattle.table.specs.Refusals.{ListRefused, ClashRefused};
ghost use Rattle.table.specs.Descent.{Comes};
ghost use Rattle.table.specs.Checks.{stays, untouched};

use crate::{LIST_LIMIT, Refusal};
use book::{Book, first_against, first_clash, first_unknown};

// A list of at most 256 codes, all of which the book knows.
#[derive(Drop)]
pub(crate) struct KnownList<'a, 'b, B: Book> {
    pub(crate) book: &'a B,
    pub(crate) facts: &'b [u64],
    ghost short: { length facts.now ≤ 256 },
    ghost known: { AllKnown (B.meaning book.now) facts.now },
}

impl<'a, 'b, B: Book> KnownList<'a, 'b, B> {
    // The list, unless it is refused.
    pub(crate) fn of(book: &'a B, facts: &'b [u64]) -> Result<Self, Refusal>
        ensures same { IfOk result (λ list. (list.book.now ≡ book.now) × (list.facts.now ≡ facts.now)) }
        ensures refused { IfErr result (ListRefused (B.meaning book.now) facts.now) }
    {
        if facts.len() > LIST_LIMIT {
            return Err(Refusal::TooLong(facts.len()));
        }
        match first_unknown(book, facts) {
            Some(place) => Err(Refusal::Unknown(place)),
            None => Ok(KnownList { book, facts }),
        }
    }

    // Whether none of the list follows from the fact.
    pub(crate) fn spares(&self, fact: u64) -> bool
        ensures { result ≡ untouched (B.meaning self.now.book.now) self.now.facts.now fact }
    {
        !self
            .facts
            .iter()
            .any(|named| self.book.follows(fact, *named))
    }
}

// A list in which nothing clashes.
#[derive(Drop)]
pub(crate) struct Delivery<'a, 'b, B: Book> {
    pub(crate) list: KnownList<'a, 'b, B>,
    ghost peace: { NothingClashes (B.meaning list.book.now) list.facts.now },
}

impl<'a, 'b, B: Book> Delivery<'a, 'b, B> {
    // The delivery of the list, unless it is refused.
    pub(crate) fn of(book: &'a B, facts: &'b [u64]) -> Result<Self, Refusal>
        ensures same { IfOk result (λ delivery. (delivery.list.book.now ≡ book.now) × (delivery.list.facts.now ≡ facts.now)) }
        ensures refused { IfErr result (λ e. ListRefused (B.meaning book.now) facts.now e ⊎ ClashRefused (B.meaning book.now) facts.now e) }
    {
        let list = KnownList::of(book, facts)?;
        match first_clash(book, facts) {
            Some(places) => Err(Refusal::Clash(places)),
            None => Ok(Delivery { list }),
        }
    }

    // Whether the fact clashes with none of the list.
    pub(crate) fn spares(&self, fact: u64) -> bool
        ensures { result ≡ stays (B.meaning self.now.list.book.now) self.now.list.facts.now fact }
    {
        first_against(self.list.book, self.list.facts, fact).is_none()
    }
}
