// A development year prepared for shares.
ghost use Rattle.std.specs.Prelude.{◌≡◌, ◌<◌};
ghost use Rattle.method.specs.SumLimits.{SumsInRange};
ghost use Rattle.prepared_years.specs.Sums.{YearReady};

use prepared_ratios::{Divisor, Ratio};
use ratios::Sums;

// The ratios P / D and Q / D of a development year, and D; 0 where no year is prepared.
#[derive(Clone, Copy)]
pub struct PreparedYear {
    pub payments: Ratio,
    pub adjustments: Ratio,
    pub exposure: u64,
    pub ghost ready: { 0 < exposure → YearReady payments adjustments exposure },
}

impl PreparedYear {
    ghost use Rattle.ratios.specs.Ratios.{sums_of};
    ghost use Rattle.prepared_years.specs.Prepared.{year_sums};

    // For a place where no year is prepared. All of it is 0, so that an array of it is cleared at once.
    // No plainer as an Option: each row would match the year of each of its places, which the triangle knows to be one.
    pub const NONE: PreparedYear = PreparedYear {
        payments: NOTHING,
        adjustments: NOTHING,
        exposure: 0,
    };

    // One divisor serves both ratios.
    pub fn of(sums: Sums) -> PreparedYear
        requires { SumsInRange (sums_of sums) }
        ensures { year_sums result ≡ sums }
    {
        let exposure = sums.exposure as u64;
        let divisor = Divisor::of(exposure);
        PreparedYear {
            payments: divisor.ratio_of(sums.payments),
            adjustments: divisor.ratio_of(sums.adjustments),
            exposure,
        }
    }
}

const NOTHING: Ratio = Ratio {
    quotient: 0,
    remainder: 0,
    fraction: 0,
    reach: 0,
};
