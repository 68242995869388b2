// Facts leave a table.
ghost use Rattle.std.specs.Prelude.{◌≡◌, ◌+◌, length};
ghost use Rattle.std.specs.List.Retain.{IsFiltered};
ghost use Rattle.table.specs.View.{facts_of, KeepsCells};

use crate::Table;
use rows::keep;

impl<'a> Table<'a> {
    // Of the facts held, those stay that pass the test. Answers how many are gone.
    pub(crate) fn retain<F: FnMut(u64) -> bool>(&mut self, test: F) -> usize
        requires { F.IsAlwaysCallable test }
        ensures stay { IsFiltered (λ f c b g. F.step f c b g) test (facts_of self.old) (facts_of self.new) }
        ensures gone { result + length (facts_of self.new) ≡ length (facts_of self.old) }
        ensures cells { KeepsCells self.old self.new }
    {
        let kept = keep(&mut self.cells[..self.held], test);
        let gone = self.held - kept;
        self.held = kept;
        gone
    }
}
