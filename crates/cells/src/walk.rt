// The walk through every cell of a list whose rows have n, n − 1, … cells.
ghost use Rattle.std.specs.Prelude.{◌≡◌, Bool, ℕ, ◌≤◌};
ghost use Rattle.method.specs.Limits.{most_accident_years};
ghost use Rattle.method.specs.Verdicts.{each_cell};
ghost use Rattle.verdicts.specs.Verdicts.{number_of, verdict_of};
ghost use Rattle.cells.specs.Cells.{AtEachCell, Answers};

use verdicts::lengths::cells_before;
use verdicts::verdict::{Question, Verdict, asked_at};

// The question's refusal of the first cell that does not pass, if there is one: `passes(at, i, k)` is asked of cell (i, k), which stands at `at` in the list.
pub fn first_refusal<F: Fn(usize, usize, usize) -> bool>(
    question: Question,
    n: usize,
    passes: F,
) -> Verdict
    requires most { n ≤ most_accident_years }
    requires askable { AtEachCell n (F.pre passes) }
    ensures { (test : ℕ → ℕ → Bool) → Answers n (F.post passes) test → verdict_of result ≡ each_cell n (number_of question) test }
{
    for r in 0..n {
        let start = cells_before(n, r);
        for j in 0..n - r {
            asked_at(passes(start + j, r + 1, j + 1), question, r + 1, j + 1)?;
        }
    }
    Ok(())
}
