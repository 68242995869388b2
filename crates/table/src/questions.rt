// What a table is asked.
ghost use Rattle.std.specs.Prelude.{◌≡◌, ◌↔◌, length, IsTrue};
ghost use Rattle.std.specs.List.{Contains, slice_get};
ghost use Rattle.rows.specs.Rows.{Ascending};
ghost use Rattle.table.specs.View.{facts_of};

use crate::Table;
use rows::find;

impl<'a> Table<'a> {
    // How many facts are held.
    pub fn count_held(&self) -> usize
        ensures { result ≡ length (facts_of self.now) }
    {
        self.held
    }

    // Whether the code is held.
    pub fn is_held(&self, code: u64) -> bool
        ensures { IsTrue result ↔ Contains (facts_of self.now) code }
    {
        find(self.facts(), code).is_ok()
    }

    // Number `k`, from 0, of the facts held in ascending order, or none.
    pub fn nth_held(&self, k: usize) -> Option<u64>
        ensures number { result ≡ slice_get (facts_of self.now) k }
        ensures ascending { Ascending (facts_of self.now) }
    {
        self.facts().get(k).copied()
    }

    // The facts held, in ascending order.
    pub fn facts(&self) -> &[u64]
        ensures held { result.now ≡ facts_of self.now }
        ensures ascending { Ascending result.now }
    {
        &self.cells[..self.held]
    }
}
