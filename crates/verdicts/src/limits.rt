// The limits of document 01, each named once, and the test of a range.
ghost use Rattle.std.specs.Prelude.{◌≡◌};
ghost use Rattle.method.specs.Tests.{from_to};

pub const FEWEST_YEARS: i64 = 2;

pub const MOST_YEARS: i64 = 32;

pub const GREATEST_WEIGHT: i64 = 100;

// Of a payment or an adjustment, in whole units, of either sign.
pub const GREATEST_AMOUNT: i64 = 1_000_000_000;

// Of an opening or observed outstanding, in whole units.
pub const GREATEST_OUTSTANDING: i64 = 1_000_000_000;

// Of a projected figure, in millionths of a unit, of either sign.
pub const GREATEST_FIGURE: i64 = 10_000_000_000_000_000;

// Room for the last observed outstanding of every accident year, and for the sums of every development year but the last.
pub const ACCIDENT_YEARS: usize = MOST_YEARS as usize;

pub const DEVELOPMENT_YEARS: usize = ACCIDENT_YEARS - 1;

// Of a sum over the accident years, which document 01 does not print: a weight times an amount or an outstanding for each of them but the youngest.
pub const GREATEST_SUM: i64 = (MOST_YEARS - 1) * GREATEST_WEIGHT * GREATEST_AMOUNT;

// Whether low ≤ x ≤ high. No plainer as `(low..=high).contains(&x)`, whose contract speaks of a partial order.
pub fn from_to(low: i64, high: i64, x: i64) -> bool
    ensures { result ≡ from_to low high x }
{
    (low <= x) & (x <= high)
}
