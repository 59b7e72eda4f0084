// A cell of a completed triangle.
ghost use Rattle.std.specs.Prelude.{◌≡◌, ◌≤◌, MatchOption};
ghost use Rattle.method.specs.Limits.{most_accident_years};
ghost use Rattle.completed.specs.Square.{CellOfSquare};

// A cell of the square of n accident years and n development years.
#[derive(Clone, Copy)]
pub struct Cell {
    pub n: usize,
    pub accident_year: usize,
    pub development_year: usize,
    ghost inside: { CellOfSquare n accident_year development_year },
}

// The cell of two years, where the square has one.
pub fn cell_of_square(n: usize, accident_year: usize, development_year: usize) -> Option<Cell>
    requires { n ≤ most_accident_years }
    ensures { MatchOption result
        (¬ CellOfSquare n accident_year development_year)
        (λ c. (c.n ≡ n) × (c.accident_year ≡ accident_year) × (c.development_year ≡ development_year)) }
{
    let inside = (1 <= accident_year)
        & (accident_year <= n)
        & (1 <= development_year)
        & (development_year <= n);
    if inside {
        Some(Cell {
            n,
            accident_year,
            development_year,
        })
    } else {
        None
    }
}
