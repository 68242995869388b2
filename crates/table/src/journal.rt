// A journal of calls, carried out on a new table.
ghost use Rattle.std.specs.Prelude.{◌≡◌, Some};
ghost use Rattle.table.specs.Cells.{used};
ghost use Rattle.table.specs.Printed.{answer_text};
ghost use Rattle.table.specs.View.{cells_of, facts_of, KeepsCells};
ghost use Rattle.table.specs.Runs.{CarriedOut, Replayed};

use crate::{Refusal, Table};
use book::Book;
use std::fmt;

// A call of a table.
#[derive(Clone, Copy)]
pub enum Call<'a> {
    Deliver(&'a [u64]),
    Withdraw(&'a [u64]),
    // How many facts are held.
    CountHeld,
    // Whether the code is held.
    IsHeld(u64),
    // Number k, from 0, of the facts held in ascending order, or none.
    NthHeld(usize),
}

// What a call answers.
#[derive(Clone, Copy, PartialEq, Eq, Debug)]
pub enum Answer {
    // To a delivery or a withdrawal: the numbers of facts gone and come, or why the list is refused.
    Changed(Result<(usize, usize), Refusal>),
    // To `CountHeld`.
    Number(usize),
    // To `IsHeld`.
    Held(bool),
    // To `NthHeld`.
    Fact(Option<u64>),
}

// As `ok 1 2` with the facts gone and come, the refusal, a number, `yes` or `no`, a code or `none`.
impl fmt::Display for Answer {
    ghost output = { λ a. Some (answer_text a) };

    fn fmt<W: fmt::Write>(&self, f: &mut fmt::Formatter<W>) -> fmt::Result {
        match *self {
            Answer::Changed(Ok((gone, come))) => write!(f, "ok {gone} {come}"),
            Answer::Changed(Err(refusal)) => write!(f, "{refusal}"),
            Answer::Number(number) => write!(f, "{number}"),
            Answer::Held(true) => write!(f, "yes"),
            Answer::Held(false) => write!(f, "no"),
            Answer::Fact(Some(code)) => write!(f, "{code}"),
            Answer::Fact(None) => write!(f, "none"),
        }
    }
}

impl<'a> Table<'a> {
    // Carries out one call.
    fn carry_out<B: Book>(&mut self, book: &B, call: Call<'_>) -> Answer
        ensures facts { CarriedOut (B.meaning book.now) (used (cells_of self.old)) (facts_of self.old) call.entry (facts_of self.new) result }
        ensures cells { KeepsCells self.old self.new }
    {
        match call {
            Call::Deliver(list) => Answer::Changed(self.deliver(book, list)),
            Call::Withdraw(list) => Answer::Changed(self.withdraw(book, list)),
            Call::CountHeld => Answer::Number(self.count_held()),
            Call::IsHeld(code) => Answer::Held(self.is_held(code)),
            Call::NthHeld(k) => Answer::Fact(self.nth_held(k)),
        }
    }
}

// Makes a table over the cells, carries the calls out on it and gives it back. The answers are written in order into
// `answers`, as far as it has places. The contract states the law of runs: see `Replayed`.
pub fn replay<'a, B: Book>(
    book: &B,
    cells: &'a mut [u64],
    calls: &[Call<'_>],
    answers: &mut [Option<Answer>],
) -> Table<'a>
    ensures replayed { Replayed (B.meaning book.now) cells.old (cells_of result) (facts_of result) calls.now answers.old answers.new }
    ensures named { result.cells.ghost_name ≡ cells.entry.ghost_name }
{
    replay_all(book, cells, calls, answers)
}

// The making, and then call after call.
fn replay_all<'a, B: Book>(
    book: &B,
    cells: &'a mut [u64],
    calls: &[Call<'_>],
    answers: &mut [Option<Answer>],
) -> Table<'a>
    ensures replayed { Replayed (B.meaning book.now) cells.old (cells_of result) (facts_of result) calls.now answers.old answers.new }
    ensures named { result.cells.ghost_name ≡ cells.entry.ghost_name }
{
    let mut table = Table::over(cells);
    for (i, call) in calls.iter().enumerate() {
        let answer = table.carry_out(book, *call);
        // (the contract of `get_mut` does not say what the slice is after a write)
        if i < answers.len() {
            answers[i] = Some(answer);
        }
    }
    table
}
