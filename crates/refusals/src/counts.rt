// Years as counts.
ghost use Rattle.std.specs.Prelude.{◌≡◌, ◌≤◌};
ghost use Rattle.method.specs.Limits.{most_accident_years};
ghost use Rattle.refusals.specs.Counts.{count_of, count_or_0};

use verdicts::limits::ACCIDENT_YEARS;

// A number of years, or 0 where no triangle has as many. This and the next are each a chain of the library, under a contract in the words of the definitions.
#[tactic(auto, unfolding(crate::specs::Counts::count_of))]
pub fn count_of(years: i64) -> usize
    ensures { (result ≡ count_of years) × (result ≤ most_accident_years) }
{
    usize::try_from(years)
        .ok()
        .filter(|count| *count <= ACCIDENT_YEARS)
        .unwrap_or(0)
}

// A number as a count, or 0 where it is below 0.
pub(crate) fn count_or_0(number: i64) -> usize
    ensures { result ≡ count_or_0 number }
{
    usize::try_from(number).unwrap_or(0)
}
