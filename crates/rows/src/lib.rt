// Ascending rows of numbers in a slice: finding one, and keeping those that pass a test.
#![tactic(auto)]

ghost use Rattle.std.specs.Prelude.{◌≡◌, ℕ, ◌-◌, ◌<◌, ◌≤◌, Bool, length, take, drop, replicate, MatchResult, slice_index};
ghost use Rattle.std.specs.List.Retain.{IsFiltered};
ghost use Rattle.rows.specs.Rows.{Ascending, Placed};

// The place of `c` in a row that ascends, or the place where it belongs. In a list that does not ascend `c` may be
// missed; where `Ok` is answered, `c` stands there.
pub fn find(row: &[u64], c: u64) -> Result<usize, usize>
    ensures placed { Ascending row.now → Placed row.now c result }
    ensures within { MatchResult result (λ i. (i < length row.now) × (slice_index row.now i ≡ c)) (λ i. i ≤ length row.now) }
{
    row.binary_search(&c)
}

// Moves the numbers at which `test` answers true to the front, in their order, clears the places behind them,
// and answers how many they are.
pub fn keep<F: FnMut(u64) -> bool>(row: &mut [u64], test: F) -> usize
    requires { F.IsAlwaysCallable test }
    ensures within { result ≤ length row.old }
    ensures kept { IsFiltered (λ f c b g. F.step f c b g) test row.old (take result row.new) }
    ensures cleared { drop result row.new ≡ replicate (length row.old - result) 0 }
{
    let kept = gather(row, test);
    row[kept..].fill(0);
    kept
}

// Moves the numbers at which `test` answers true to the front, in their order, and answers how many they are.
// It reads and writes one slice, so it goes by index: no iterator lends both.
fn gather<F: FnMut(u64) -> bool>(row: &mut [u64], mut test: F) -> usize
    requires { F.IsAlwaysCallable test }
    ensures within { result ≤ length row.old }
    ensures kept { IsFiltered (λ f c b g. F.step f c b g) test row.old (take result row.new) }
{
    let mut kept = 0;
    for i in 0..row.len() {
        let c = row[i];
        if test(c) {
            row[kept] = c;
            kept += 1;
        }
    }
    kept
}
