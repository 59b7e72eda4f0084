// The development years of a triangle, prepared one after another.
ghost use Rattle.std.specs.Prelude.{◌≡◌, length};
ghost use Rattle.method.specs.Limits.{most_ratios};
ghost use Rattle.prepared_years.specs.Prepared.{RatiosInRange, YearsPrepared};

use crate::year::PreparedYear;
use ratios::Sums;
use verdicts::limits::DEVELOPMENT_YEARS;

// Prepares the ratios of every development year of a triangle, those of year k at k − 1, in the array that is lent.
// The places beyond its years are left as they are. That the array has its length is asked, since a lent array does not say it of itself.
// By places: no plainer by zip, whose loop knows nothing of the list that it writes.
pub fn prepare_years(
    n: usize,
    ratios: &[Sums; DEVELOPMENT_YEARS],
    years: &mut [PreparedYear; DEVELOPMENT_YEARS],
)
    requires { RatiosInRange n ratios.now × (length years.old ≡ most_ratios) }
    ensures { YearsPrepared n ratios.now years.old years.new }
{
    for k in 1..n {
        years[k - 1] = PreparedYear::of(ratios[k - 1]);
    }
}
