// What a book says of a list of facts, and what the laws give of it, for every book.
ghost use Rattle.std.specs.Prelude.{◌≡◌, ◌≤◌, length, None};
ghost use Rattle.book.specs.Lists.{FirstUnknown, FirstAgainst, FirstClash, ClashIsSymmetric, CausesClash, ConsequencesDoNotClashWith, ConsequencesDoNotClash, ContradictionIsClash, TellsContradiction};

use crate::Book;

// The place of the first code that the book does not know, or none where it knows them all.
pub fn first_unknown<B: Book>(book: &B, facts: &[u64]) -> Option<usize>
    ensures { FirstUnknown (B.meaning book.now) facts.now result }
{
    facts.iter().position(|fact| !book.knows(*fact))
}

// The place of the first of the facts that clashes with `fact`, or none where none does.
// The contract says too, of every book, that a clash is symmetric, that what clashes with a consequence clashes
// with its cause, and that where none is found nothing that follows from the facts clashes with `fact`.
pub fn first_against<B: Book>(book: &B, facts: &[u64], fact: u64) -> Option<usize>
    ensures first { FirstAgainst (B.meaning book.now) facts.now (length facts.now) fact result }
    ensures symmetric { ClashIsSymmetric (B.meaning book.now) }
    ensures causes_clash { CausesClash (B.meaning book.now) }
    ensures consequences { result ≡ None → ConsequencesDoNotClashWith (B.meaning book.now) facts.now fact }
{
    facts.iter().position(|other| book.clash(*other, fact))
}

// The places i ≤ j of the first two facts that clash, or none: the least j, and for it the least i.
// The contract says too, of every book, that known facts contradict each other, so that no world holds them all,
// exactly where two are found, and that where none are found their consequences do not clash among themselves.
pub fn first_clash<B: Book>(book: &B, facts: &[u64]) -> Option<(usize, usize)>
    ensures first { FirstClash (B.meaning book.now) facts.now result }
    ensures no_world { TellsContradiction (B.meaning book.now) facts.now result }
    ensures some_clash { ContradictionIsClash (B.meaning book.now) facts.now }
    ensures consequences { result ≡ None → ConsequencesDoNotClash (B.meaning book.now) facts.now }
{
    clash_among(book, facts)
}

// The places of the first two facts that clash.
fn clash_among<B: Book>(book: &B, facts: &[u64]) -> Option<(usize, usize)>
    ensures { FirstClash (B.meaning book.now) facts.now result }
{
    for (j, fact) in facts.iter().enumerate() {
        if let Some(i) = first_against(book, &facts[..=j], *fact) {
            return Some((i, j));
        }
    }
    None
}
