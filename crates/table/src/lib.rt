// A table of facts under any book of rules: it takes deliveries and withdrawals, and is asked what it holds.
#![tactic(auto)]

ghost use Rattle.std.specs.Prelude.{◌≡◌, ◌≤◌, take};
ghost use Rattle.rows.specs.Rows.{Ascending};
ghost use Rattle.table.specs.Cells.{used, laid};

mod delivering;
mod descent;
mod entering;
mod journal;
mod lists;
mod making;
mod questions;
mod refusals;
mod retaining;
mod withdrawing;

pub use journal::{Answer, Call, replay};
pub use refusals::Refusal;

// A list with more codes is refused.
const LIST_LIMIT: usize = 256;

// No table uses more cells.
const CELL_LIMIT: usize = 65536;

// A table over cells that its maker lends. It uses all of them up to the first 65,536. Its facts stand in the
// first cells in ascending order, the other cells in use hold 0, and the rest is never written.
// The cells are the maker's slice, so how many hold facts stands beside it.
#[derive(Drop)]
pub struct Table<'a> {
    cells: &'a mut [u64],
    held: usize,
    ghost fits: { held ≤ used cells.now },
    ghost ascends: { Ascending (take held cells.now) },
    ghost layout: { cells.now ≡ laid (take held cells.now) cells.now },
}
