// What the program prints, as values. A call answers an error where memory does not suffice.
#![tactic(auto)]

ghost use Rattle.std.specs.Prelude.{◌≡◌, ℕ, ◌^◌, List, Some, IfOk, string_bytes};
ghost use Rattle.std.specs.Iterator.{Drains, UpTo};
ghost use Rattle.table.specs.View.{facts_of};
ghost use Rattle.console.specs.Lines.{added_text, listing_text, clash_text};

use book::{Book, Consequences};
use place_book::Refusal;
use std::alloc::{AllocError, Global};
use std::fmt;
use table::Table;

// What a draft answered to a new place: its number, or the refusal.
#[derive(Drop)]
pub struct Added(pub Result<usize, Refusal>);

impl fmt::Display for Added {
    ghost output = { λ added. Some (added_text added.0) };

    fn fmt<W: fmt::Write>(&self, f: &mut fmt::Formatter<W>) -> fmt::Result {
        match &self.0 {
            Ok(place) => write!(f, "place {place}"),
            Err(refusal) => write!(f, "{refusal}"),
        }
    }
}

// Whether the two facts clash.
pub fn clash_line<B: Book>(
    heap: Global,
    book: &B,
    first: u64,
    second: u64,
) -> Result<String, AllocError>
    ensures { IfOk result (λ s. string_bytes s ≡ clash_text first second ((B.meaning book.now).clash first second)) }
{
    if book.clash(first, second) {
        format!(in heap; "{first} and {second} clash")
    } else {
        format!(in heap; "{first} and {second} do not clash")
    }
}

// What follows from the fact, each on a line in ascending order of codes, and how many follow.
pub fn following_lines<B: Book>(heap: Global, book: &B, fact: u64) -> Result<String, fmt::Error>
    ensures { IfOk result (λ s. string_bytes s ≡ listing_text ((B.meaning book.now).consequences fact)) }
{
    listing(heap, Consequences::of(book, fact))
}

// The facts held, each on a line in ascending order of codes, and how many are held.
pub fn held_lines(heap: Global, table: &Table<'_>) -> Result<String, fmt::Error>
    ensures { IfOk result (λ s. string_bytes s ≡ listing_text (facts_of table.now)) }
{
    listing(heap, table.facts().iter().copied())
}

// The facts, each on a line, and how many they are.
fn listing<I: Iterator<Item = u64> + Drop>(heap: Global, facts: I) -> Result<String, fmt::Error>
    requires can { I.can_next facts }
    requires few { UpTo (I.remaining facts) (2 ^ 63) }
    ensures { IfOk result (λ s. (codes : List ℕ) × Drains I.next_gives facts codes × (string_bytes s ≡ listing_text codes)) }
{
    let mut out = String::new(heap);
    // printed at the end; an iterator is not asked how long it is
    let mut count = 0usize;
    for fact in facts {
        writeln!(out, "{fact}")?;
        count += 1;
    }
    write!(out, "end {count}")?;
    Ok(out)
}
