// The ratio of a part, P or Q, to its exposure D, prepared once so that a share by it takes no division.
#![tactic(auto)]

ghost use Rattle.std.specs.Prelude.{◌≡◌, ◌*◌, ◌≤◌, ◌<◌, ◌/◌, ◌^◌, nat_abs};
ghost use Rattle.method.specs.SumLimits.{greatest_sum};
ghost use Rattle.prepared_ratios.specs.Ratio.{Exposure, FloorOf, Division, FractionOf, NextDigit, Reach, Ready, part_of};

use products::high_product;
use verdicts::limits::GREATEST_FIGURE;

// part = quotient × exposure + remainder, where the remainder is from 0 to below the exposure; the quotient is negative exactly where the part is.
// Kept without its exposure, and no plainer with it: both ratios of a development year have the same one, which would then be kept in each.
#[derive(Clone, Copy)]
pub struct Ratio {
    pub quotient: i64,
    pub remainder: u64,
    // remainder / exposure in units of 2^-64, less than 64 of them too little
    pub fraction: u64,
    // Up to this outstanding, outstanding × quotient is within 64 bits; above it, up to the limit of question 9, the share passes that limit.
    pub reach: u64,
}

// An exposure with its reciprocal, 2^62 / exposure cut: the one division of a development year, shared by its two parts. Only a reach below the limit takes another.
#[derive(Clone, Copy)]
pub struct Divisor {
    pub exposure: u64,
    pub reciprocal: u64,
    pub ghost exposed: { Exposure exposure },
    pub ghost reciprocal_is: { reciprocal ≡ 2 ^ 62 / exposure },
}

// A quotient, and what it leaves of its dividend.
#[derive(Clone, Copy)]
pub struct Divided<Q, L> {
    pub quotient: Q,
    pub left: L,
}

// 2^20: digits of 20 bits.
const BASE: u64 = 1_048_576;

impl Divisor {
    pub fn of(exposure: u64) -> Divisor
        requires { Exposure exposure }
        ensures { result.exposure ≡ exposure }
    {
        Divisor {
            exposure,
            reciprocal: 4_611_686_018_427_387_904 / exposure,
        }
    }

    // The ratio of a part to the exposure.
    pub fn ratio_of(self, part: i64) -> Ratio
        requires { nat_abs part ≤ greatest_sum }
        ensures { Ready result self.exposure × (part_of result self.exposure ≡ part) }
    {
        let floor = self.floor_of(part);
        Ratio {
            quotient: floor.quotient,
            remainder: floor.left,
            fraction: self.fraction_of(floor.left),
            reach: reach_of(floor.quotient),
        }
    }

    // ---- Quotient and remainder

    // part / exposure rounded down, and what is left of the part.
    // A negative part is counted from −1 downward, where quotient and remainder run the other way.
    fn floor_of(self, part: i64) -> Divided<i64, u64>
        requires { nat_abs part ≤ greatest_sum }
        ensures { FloorOf part self.exposure result }
    {
        if part < 0 {
            let downward = self.divide((-1 - part) as u64);
            return Divided {
                quotient: -1 - (downward.quotient as i64),
                left: self.exposure - 1 - downward.left,
            };
        }
        let upward = self.divide(part as u64);
        Divided {
            quotient: upward.quotient as i64,
            left: upward.left,
        }
    }

    // The cut quotient.
    // Multiplication by the reciprocal gives the quotient or one less, and the remainder tells which: one correction.
    fn divide(self, dividend: u64) -> Divided<u64, u64>
        requires { dividend ≤ greatest_sum }
        ensures { Division dividend self.exposure result }
    {
        // dividend × reciprocal / 2^62
        let estimate = high_product(4 * dividend, self.reciprocal);
        let left = dividend - estimate * self.exposure;
        if self.exposure <= left {
            return Divided {
                quotient: estimate + 1,
                left: left - self.exposure,
            };
        }
        Divided {
            quotient: estimate,
            left,
        }
    }

    // ---- Fraction

    // remainder / exposure in units of 2^-64, by three digits of 20 bits.
    // None is corrected: what is left is below 2, 3 and then 4 exposures, so that less than 4 units of 2^-60 are missing.
    fn fraction_of(self, remainder: u64) -> u64
        requires { remainder < self.exposure }
        ensures { FractionOf remainder self.exposure result }
    {
        let first = self.next_digit(remainder);
        let second = self.next_digit(first.left);
        let third = self.next_digit(second.left);
        ((first.quotient * BASE + second.quotient) * BASE + third.quotient) * 16
    }

    // As in long division: the digit of left × BASE / exposure, by the reciprocal, and what it leaves.
    fn next_digit(self, left: u64) -> Divided<u64, u64>
        requires { left < 3 * self.exposure }
        ensures { NextDigit left self.exposure result }
    {
        // left × BASE × reciprocal / 2^62
        let digit = left * self.reciprocal / 4_398_046_511_104;
        Divided {
            quotient: digit,
            left: left * BASE - digit * self.exposure,
        }
    }
}

// ---- Reach

// How far an outstanding may go before its product with the quotient could pass 64 bits; a product that far is beyond every limit.
// A quotient up to 920 reaches every outstanding.
fn reach_of(quotient: i64) -> u64
    ensures { Reach quotient result }
{
    let size = quotient.unsigned_abs();
    if size <= 920 {
        GREATEST_FIGURE as u64
    } else {
        9_200_000_000_000_000_000 / size
    }
}
