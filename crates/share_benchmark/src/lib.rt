// The share and the halves of products, as a benchmark links them.
#![tactic(auto)]

ghost use Rattle.std.specs.Prelude.{◌≡◌, map, ◌*◌, ◌/◌, ◌%◌, ◌^◌, pos};
ghost use Rattle.method.specs.ProjectedYear.{share};
ghost use Rattle.prepared_ratios.specs.Ratio.{Ready, part_of};
ghost use Rattle.share.specs.Share.{ShareInput, share_or_too_large};
ghost use Rattle.share_benchmark.specs.Shares.{ratio_by_numbers, as_number, share_number, shares_answer, shares_of};

use prepared_ratios::{Divisor, Ratio};
use products::{high_product, low_product};
use share::millionths::Millionths;
use share::rounded_share;
use verdicts::limits::{GREATEST_FIGURE, GREATEST_SUM, from_to};

// u × v / 2^64, cut.
#[unsafe(no_mangle)]
pub extern "C" fn juniperprow_high_product(u: u64, v: u64) -> u64
    ensures { result ≡ u * v / 2 ^ 64 }
{
    high_product(u, v)
}

// u × v % 2^64.
#[unsafe(no_mangle)]
pub extern "C" fn juniperprow_low_product(u: u64, v: u64) -> u64
    ensures { result ≡ u * v % 2 ^ 64 }
{
    low_product(u, v)
}

// One share by a prepared ratio: its value, or TOO_LARGE. It asks that its numbers are such a ratio and an outstanding; no host links it, and nothing is said of other numbers.
#[unsafe(no_mangle)]
pub extern "C" fn juniperprow_share(
    outstanding: i64,
    quotient: i64,
    remainder: u64,
    fraction: u64,
    reach: u64,
    exposure: u64,
) -> i64
    requires { ShareInput outstanding (ratio_by_numbers quotient remainder fraction reach) exposure }
    ensures { result ≡ as_number (share_or_too_large (share outstanding (part_of (ratio_by_numbers quotient remainder fraction reach) exposure) (pos exposure))) }
{
    let ratio = Ratio {
        quotient,
        remainder,
        fraction,
        reach,
    };
    number_of(rounded_share(Millionths(outstanding), ratio, exposure))
}

// Every outstanding of the list becomes its share, outstanding × part / exposure rounded half up, by a ratio that is prepared once.
// TOO_LARGE stands for a share whose size passes the limit of question 9, and OUTSIDE for that of a number that is no outstanding.
// Answers 1; where the part or the exposure is outside its limits, 0, and the list stays as it was. Numbers stand for them since C calls it.
#[unsafe(no_mangle)]
pub extern "C" fn juniperprow_shares(part: i64, exposure: i64, figures: &mut [i64]) -> i64
    ensures value { result ≡ shares_answer part exposure }
    ensures figures_after { figures.new ≡ shares_of part exposure figures.old }
{
    if from_to(-GREATEST_SUM, GREATEST_SUM, part) & from_to(1, GREATEST_SUM, exposure) {
        let divisor = Divisor::of(exposure as u64);
        take_shares(divisor.ratio_of(part), divisor.exposure, figures);
        return 1;
    }
    0
}

fn take_shares(ratio: Ratio, exposure: u64, figures: &mut [i64])
    requires { Ready ratio exposure }
    ensures { figures.new ≡ map (share_number (part_of ratio exposure) (pos exposure)) figures.old }
{
    // By places: over the list's own iterator, that a part of the list is left out could only be refused for its form.
    for j in 0..figures.len() {
        figures[j] = share_of(figures[j], ratio, exposure);
    }
}

fn share_of(outstanding: i64, ratio: Ratio, exposure: u64) -> i64
    requires { Ready ratio exposure }
    ensures { result ≡ share_number (part_of ratio exposure) (pos exposure) outstanding }
{
    if from_to(0, GREATEST_FIGURE, outstanding) {
        return number_of(rounded_share(Millionths(outstanding), ratio, exposure));
    }
    OUTSIDE
}

// The number that stands for a share.
fn number_of(share: Option<Millionths>) -> i64
    ensures { result ≡ as_number share }
{
    share.map_or(TOO_LARGE, |value| value.0)
}

const TOO_LARGE: i64 = i64::MAX;

const OUTSIDE: i64 = i64::MIN;
