// One task on a plant, from its draft to a table of where things are.
#![tactic(auto)]

use anyhow::Context;
use console::{Added, clash_line, following_lines, held_lines};
use place_book::{Draft, PlaceBook};
use std::slice;
use table::{Answer, Call, replay};

// Places 1 under 0, 2 and 3 under 1, and 4 under 0.
fn draft_plant(rt: &HostRuntime) -> anyhow::Result<PlaceBook> {
    let mut draft = Draft::new();
    for parent in [0, 1, 1, 0, 9] {
        rt.println(Added(draft.add(parent)))?;
    }
    Ok(draft.seal())
}

// The fact that thing 9 is in the place.
fn nine_in(book: &PlaceBook, place: usize) -> anyhow::Result<u64> {
    book.fact(9, place)
        .context(format_args!("no place {place}"))
}

// What the book says of thing 9 in places 2, 4 and 1.
fn ask_book(rt: &HostRuntime, book: &PlaceBook) -> anyhow::Result<()> {
    let heap = rt.alloc();
    let nine_in_2 = nine_in(book, 2)?;
    rt.println(following_lines(heap, book, nine_in_2)?)?;
    rt.println(clash_line(heap, book, nine_in_2, nine_in(book, 4)?)?)?;
    rt.println(clash_line(heap, book, nine_in_2, nine_in(book, 1)?)?)?;
    Ok(())
}

// A journal with a delivery for each of the facts.
fn deliveries(facts: &[u64; 3]) -> [Call<'_>; 3] {
    facts
        .each_ref()
        .map(|fact| Call::Deliver(slice::from_ref(fact)))
}

// Thing 9 is moved from place 2 to 3 and to 4. Then it is said to be in two places, and leaves place 4.
fn keep_table(rt: &HostRuntime, book: &PlaceBook) -> anyhow::Result<()> {
    let heap = rt.alloc();
    let moves = [nine_in(book, 2)?, nine_in(book, 3)?, nine_in(book, 4)?];
    let [nine_in_2, _, nine_in_4] = moves;
    let mut cells = [0; 16];
    let mut answers = [None; 3];
    let mut table = replay(book, &mut cells, &deliveries(&moves), &mut answers);
    for answer in answers {
        rt.println(answer.context("a call without an answer")?)?;
    }
    rt.println(held_lines(heap, &table)?)?;
    rt.println(Answer::Changed(table.deliver(book, &[nine_in_2, nine_in_4])))?;
    rt.println(Answer::Changed(table.deliver(book, &[])))?;
    rt.println(Answer::Changed(table.withdraw(book, &[nine_in_4])))?;
    rt.println(held_lines(heap, &table)?)?;
    Ok(())
}

fn main(rt: HostRuntime) -> anyhow::Result<()> {
    let book = draft_plant(&rt)?;
    ask_book(&rt, &book)?;
    keep_table(&rt, &book)
}
