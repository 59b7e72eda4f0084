// A triangle that questions 1 to 8 have accepted, prepared to be projected.
ghost use Rattle.std.specs.Prelude.{◌≡◌, ℕ, ◌+◌, ◌≤◌, ◌<◌, pos, ◌≤ℤ◌, ◌<ℤ◌, length, get_or};
ghost use Rattle.method.specs.Limits.{most_accident_years, most_ratios, greatest_outstanding};
ghost use Rattle.method.specs.Triangle.{entry};
ghost use Rattle.ratios.specs.Ratios.{no_sums};
ghost use Rattle.prepared_years.specs.Prepared.{ratios_of};

use crate::year::PreparedYear;
use crate::years::prepare_years;
use ratios::Development;
use verdicts::limits::{ACCIDENT_YEARS, DEVELOPMENT_YEARS};

// The prepared year k stands at k − 1, and the last observed outstanding of accident year i, in whole units, at i − 1.
// Arrays of the largest size with n beside them, since the library uses no heap.
#[derive(Clone, Copy)]
pub struct PreparedTriangle {
    pub n: usize,
    pub years: [PreparedYear; DEVELOPMENT_YEARS],
    pub outstandings: [i64; ACCIDENT_YEARS],
    pub ghost years_long: { length years ≡ most_ratios },
    pub ghost most: { n ≤ most_accident_years },
    pub ghost exposed: { (j : ℕ) → j + 1 < n → pos 0 <ℤ (get_or (ratios_of years) j no_sums).exposure },
    pub ghost outstandings_in_range: { (i : ℕ) → 1 ≤ i → i ≤ n → (pos 0 ≤ℤ entry outstandings i) × (entry outstandings i ≤ℤ greatest_outstanding) },
}

impl PreparedTriangle {
    ghost use Rattle.prepared_years.specs.Prepared.{Preparable, YearsKept};
    ghost use Rattle.prepared_years.specs.PreparedTriangles.{Prepared};

    // Before any triangle is prepared in it.
    pub const EMPTY: PreparedTriangle = PreparedTriangle {
        n: 0,
        years: [PreparedYear::NONE; DEVELOPMENT_YEARS],
        outstandings: [0; ACCIDENT_YEARS],
    };

    // Prepares a triangle of n years, which the arrays of a development do not tell, in the place of the one before. It fills a value that is lent, since one that is returned is copied whole.
    // Inlined, so that the outstandings are copied to where no call could have lent them too, by memcpy.
    #[inline(always)]
    pub fn prepare(&mut self, n: usize, development: &Development)
        requires { Preparable n development.now.ratios development.now.outstandings }
        ensures prepared { Prepared n development.now.ratios development.now.outstandings self.new }
        ensures others { YearsKept n self.old.years self.new.years }
    {
        // It has no year while it is filled, so that what is known of its years holds at every step.
        self.n = 0;
        self.outstandings = development.outstandings;
        prepare_years(n, &development.ratios, &mut self.years);
        self.n = n;
    }
}
