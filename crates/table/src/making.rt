// The making of a table.
ghost use Rattle.std.specs.Prelude.{◌≡◌, []};
ghost use Rattle.table.specs.Cells.{used, laid};
ghost use Rattle.table.specs.View.{cells_of, facts_of};

use crate::{CELL_LIMIT, Table};

// How many of the cells a table uses.
pub(crate) fn size_of(cells: &[u64]) -> usize
    ensures { result ≡ used cells.now }
{
    cells.len().min(CELL_LIMIT)
}

impl<'a> Table<'a> {
    // A table that holds nothing, over these cells: those that it uses become 0.
    pub fn over(cells: &'a mut [u64]) -> Table<'a>
        ensures facts { facts_of result ≡ [] }
        ensures cells { cells_of result ≡ laid [] cells.old }
        ensures named { result.cells.ghost_name ≡ cells.entry.ghost_name }
    {
        let size = size_of(cells);
        cells[..size].fill(0);
        Table { cells, held: 0 }
    }
}
