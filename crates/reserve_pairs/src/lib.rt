// Amounts in millionths as pairs of floats: whole units and remaining millionths, each exactly a whole number.
#![tactic(auto)]

ghost use Rattle.std.specs.Prelude.{◌≡◌, ◌*◌, length};
ghost use Rattle.workbook.specs.Pairs.{pairs};
ghost use Rattle.reserve_pairs.specs.ReservePairs.{pair_of};

use share::millionths::Millionths;

// In this order in a list of pairs.
#[derive(Clone, Copy)]
pub struct Pair {
    pub units: f64,
    pub millionths: f64,
}

// The pairs of a list of amounts, in its order.
pub fn write_pairs(amounts: &[i64], list: &mut [f64])
    requires { length list.old ≡ 2 * length amounts.now }
    ensures { list.new ≡ pairs amounts.now }
{
    // By places: a zip of the amounts with the list's chunks was tried, and its proof did not close, since nothing is known of what the list holds after it.
    for (j, amount) in amounts.iter().enumerate() {
        let Pair { units, millionths } = Pair::from(Millionths(*amount));
        list[2 * j] = units;
        list[2 * j + 1] = millionths;
    }
}

impl From<Millionths> for Pair {
    ghost from_gives = { λ amount pair. pair ≡ pair_of amount.0 };

    // Units count downward for a negative amount, so that its millionths are from 0 to 999,999.
    // No i64 has more than 2^53 units (law `amount_of_64_bits` of the crate `workbook`), so both casts are exact for every amount.
    fn from(amount: Millionths) -> Pair {
        Pair {
            units: amount.0.div_euclid(Millionths::ONE_UNIT.0) as f64,
            millionths: amount.0.rem_euclid(Millionths::ONE_UNIT.0) as f64,
        }
    }
}
