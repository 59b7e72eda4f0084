// Weights where a text gives none: 1, and 0 where missing.
ghost use Rattle.std.specs.Prelude.{◌≡◌, ◌≤◌, length, take};
ghost use Rattle.method.specs.Limits.{most_accident_years};
ghost use Rattle.method.specs.Triangle.{amounts_length};
ghost use Rattle.blocks.specs.Blocks as meaning;
ghost use Rattle.blocks.specs.Blocks.{default_row};

use verdicts::lengths::{amounts_length, cells_before};

// Fills a list from its left with the rows of n, n − 1, … weights, and answers how many they are.
// n and the list's room are asked of both by themselves: a type that knew them would be made for this call.
pub fn default_weights(n: usize, cut: usize, list: &mut [i64]) -> usize
    requires { (n ≤ most_accident_years) × (amounts_length n ≤ length list.old) }
    ensures { (result ≡ length (meaning.default_weights n cut)) × (take result list.new ≡ meaning.default_weights n cut) }
{
    for rows in 0..n {
        let start = cells_before(n, rows);
        let row = &mut list[start..start + (n - rows)];
        fill_row(cut.saturating_sub(rows + 1), row);
    }
    amounts_length(n)
}

#[tactic(auto, using(crate::proofs::WeightsFilled::row_by_parts))]
fn fill_row(missing: usize, row: &mut [i64])
    ensures { row.new ≡ default_row missing (length row.old) }
{
    let (blank, known) = row.split_at_mut(missing.min(row.len()));
    blank.fill(0);
    known.fill(1);
}
