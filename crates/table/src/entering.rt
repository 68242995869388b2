// What a delivery brings: how many facts come, and their entry among those that stay.
ghost use Rattle.std.specs.Prelude.{◌-◌, ◌*◌, ◌<◌, ◌≤◌, ◌⊎◌, length, take};
ghost use Rattle.std.specs.List.{Contains};
ghost use Rattle.rows.specs.Rows.{Ascending, RowOf, Count};
ghost use Rattle.book.specs.Meaning.{FollowsFromOne};
ghost use Rattle.table.specs.Descent.{Comes};
ghost use Rattle.table.specs.Checks.{Around, Placing};

use crate::descent::Descent;
use crate::lists::Delivery;
use book::Book;
use rows::find;

impl<B: Book> Delivery<'_, '_, B> {
    // How many codes follow from one of the list and do not stand in the row.
    pub(crate) fn coming(&self, row: &[u64]) -> usize
        requires { Ascending row.now }
        ensures number { Count (Comes (B.meaning self.now.list.book.now) self.now.list.facts.now row.now) result }
        ensures small { result ≤ 256 * 65536 }
    {
        Descent::over(&self.list)
            .filter(|code| find(row, *code).is_err())
            .count()
    }

    // Enters what follows from one of the list among the first `kept` cells. Behind them is one cell for each code
    // that comes. One pass from the back: each cell moves at most once.
    pub(crate) fn enter(&self, cells: &mut [u64], kept: usize)
        requires within { kept ≤ length cells.old }
        requires ascends { Ascending (take kept cells.old) }
        requires room { Count (Comes (B.meaning self.now.list.book.now) self.now.list.facts.now (take kept cells.old)) (length cells.old - kept) }
        ensures { RowOf (λ c. FollowsFromOne (B.meaning self.now.list.book.now) self.now.list.facts.now c ⊎ Contains (take kept cells.old) c) cells.new }
    {
        let mut below = kept;
        let mut top = cells.len();
        for code in Descent::over(&self.list) {
            (below, top) = place(cells, below, top, code);
        }
    }
}

// Enters the code: of the first `below` cells, those above it move up to end at `top`, and it is written before them.
// Answers how many are below the code, and where it stands now.
fn place(cells: &mut [u64], below: usize, top: usize, code: u64) -> (usize, usize)
    requires within { top ≤ length cells.old }
    requires behind { below ≤ top }
    requires ascends { Ascending (take below cells.old) }
    requires room { (Contains (take below cells.old) code → ⊥) → below < top }
    ensures { Placing cells.old cells.new below top code result.0 result.1 }
{
    let (stay, above) = around(&cells[..below], code);
    let free = top - (below - above);
    cells.copy_within(above..below, free);
    cells[free - 1] = code;
    (stay, free - 1)
}

// How many of the row are below the code, and how many are not above it.
fn around(row: &[u64], code: u64) -> (usize, usize)
    requires { Ascending row.now }
    ensures { Around row.now code result.0 result.1 }
{
    match find(row, code) {
        Ok(at) => (at, at + 1),
        Err(at) => (at, at),
    }
}
