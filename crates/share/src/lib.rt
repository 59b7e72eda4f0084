// The share of an outstanding that a development year pays or adjusts, in millionths of a unit, by a prepared ratio: multiplications and one correction, no division.
#![tactic(auto)]

ghost use Rattle.std.specs.Prelude.{◌≡◌, ◌*◌, ◌<◌, ◌≤◌, pos};
ghost use Rattle.method.specs.SumLimits.{greatest_sum};
ghost use Rattle.method.specs.ProjectedYear.{share};
ghost use Rattle.prepared_ratios.specs.Ratio.{part_of};
ghost use Rattle.share.specs.Share.{ShareInput, share_or_too_large};
ghost use Rattle.share.specs.NearestQuotient.{NearestInput, NearestQuotient, RoundedUp};

pub mod millionths;

use millionths::Millionths;
use prepared_ratios::{Divided, Ratio};
use products::{high_product, low_product};
use verdicts::limits::{GREATEST_FIGURE, from_to};

// outstanding × part / exposure, rounded half up, by the ratio that was prepared from the part; `None` where its size passes the limit of question 9.
// As part = quotient × exposure + remainder, it is outstanding × quotient and the share of the remainder, which has no sign: a negative part needs no case.
pub fn rounded_share(outstanding: Millionths, ratio: Ratio, exposure: u64) -> Option<Millionths>
    requires { ShareInput outstanding.0 ratio exposure }
    ensures { result ≡ share_or_too_large (share outstanding.0 (part_of ratio exposure) (pos exposure)) }
{
    let size = outstanding.0 as u64;
    // What it leaves is what the whole share leaves: outstanding × part = share × exposure + nearest.left.
    // No code reads it, and so the compiler leaves it out: the leftover of a share is to be at hand, and the laws of the share are told by it.
    let nearest = nearest_quotient(size, ratio.remainder, ratio.fraction, exposure);
    if size > ratio.reach {
        return None;
    }
    limited(outstanding.0 * ratio.quotient + (nearest.quotient as i64))
}

// A share of this value, where its size is within the limit of question 9.
#[tactic(auto, using(crate::proofs::Answers::tested_is))]
fn limited(value: i64) -> Option<Millionths>
    ensures { result ≡ share_or_too_large value }
{
    from_to(-GREATEST_FIGURE, GREATEST_FIGURE, value).then_some(Millionths(value))
}

// outstanding × remainder / exposure, rounded half up: what that leaves is from −exposure / 2 to below exposure / 2.
// Multiplication by the fraction gives an estimate that is less than 1 + 1/2 too little, so that one correction rounds it half up.
// What it leaves of the product is below two exposures, and so the lower halves of both products tell it exactly.
fn nearest_quotient(
    outstanding: u64,
    remainder: u64,
    fraction: u64,
    exposure: u64,
) -> Divided<u64, i64>
    requires { NearestInput outstanding remainder fraction exposure }
    ensures { NearestQuotient outstanding remainder exposure result }
{
    let estimate = high_product(outstanding, fraction);
    let left = low_product(outstanding, remainder).wrapping_sub(low_product(estimate, exposure));
    let up = rounded_up(left, exposure);
    Divided {
        quotient: estimate + up,
        left: (left as i64) - (up * exposure) as i64,
    }
}

// left / exposure, rounded half up: 0 or 1.
fn rounded_up(left: u64, exposure: u64) -> u64
    requires { (2 * left < 3 * exposure) × (exposure ≤ greatest_sum) }
    ensures { RoundedUp left exposure result }
{
    u64::from(exposure <= 2 * left)
}
