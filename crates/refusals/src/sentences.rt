// The sentences of refusals whose numbers follow from others, or whose words do.
ghost use Rattle.printed.specs.Line.{LineIs};
ghost use Rattle.refusals.specs.Sentences as meaning;

use crate::counts::count_of;
use crate::found::Lent;
use exact_sums::exact::{difference, sum};
use printed::counts::signed;
use printed::filling::filled;
use printed::line::Line;
use verdicts::lengths::{amounts_length, weights_length};
use verdicts::limits::{GREATEST_AMOUNT, from_to};
use verdicts::verdict::Place;

// Of a cut that is not one of this number of years.
pub(crate) fn cut_sentence(cut: i64, years: i64) -> Line
    ensures { LineIs (meaning.cut_sentence cut years) result }
{
    // 0 stands for a number below 64 bits, which no text leads to
    let most = difference(years, 1).unwrap_or(0);
    filled(
        b"The cut is @ and not from 1 to @, which is one less than the number of accident years.",
        &[cut, most],
    )
}

// Each list with its length, and the length that it should have.
pub(crate) fn lengths_sentence(lent: Lent) -> Line
    ensures { LineIs (meaning.lengths_sentence lent) result }
{
    let n = count_of(lent.years);
    let amounts = signed(amounts_length(n));
    let numbers = [
        signed(lent.payments),
        amounts,
        signed(lent.adjustments),
        amounts,
        signed(lent.weights),
        signed(weights_length(n)),
        signed(lent.openings),
        signed(count_of(lent.cut).saturating_sub(1)),
    ];
    filled(
        b"A block does not have its number of figures: payments @ of @, adjustments @ of @, weights @ of @, openings @ of @.",
        &numbers,
    )
}

// An amount within the limit is wrong only where its cell is missing: the first sentence says that, and the second that it is beyond the limit.
#[tactic(auto, using(integers::proofs::MachineArithmetic::held), unfolding(crate::specs::Sentences::amount_sentence))]
pub(crate) fn amount_sentence(i: i64, k: i64, x: i64, missing: &[u8], beyond: &[u8]) -> Line
    ensures { LineIs (meaning.amount_sentence i k x missing.now beyond.now) result }
{
    if from_to(-GREATEST_AMOUNT, GREATEST_AMOUNT, x) {
        return filled(missing, &[i, k, x]);
    }
    filled(beyond, &[i, k, x])
}

// Of an observed outstanding x, below 0 or beyond the limit.
pub(crate) fn outstanding_sentence(i: i64, k: i64, x: i64) -> Line
    ensures { LineIs (meaning.outstanding_sentence i k x) result }
{
    if x < 0 {
        let size = difference(0, x).unwrap_or(0);
        return filled(
            b"The outstanding of accident year @ at the end of development year @ is @: paid exceeds reported by @ there.",
            &[i, k, x, size],
        );
    }
    filled(
        b"The outstanding of accident year @ at the end of development year @ is @ and not from 0 to 1,000,000,000.",
        &[i, k, x],
    )
}

// Of the year that no ratio projects from.
pub(crate) fn exposure_sentence(k: i64) -> Line
    ensures { LineIs (meaning.exposure_sentence k) result }
{
    let next = sum(k, 1).unwrap_or(0);
    filled(
        b"The exposure of development year @ is not above 0: its weighted outstandings give nothing to project from year @ to year @.",
        &[k, k, next],
    )
}

// The cell of which question 10 is asked.
pub(crate) fn seen_cell_sentence(asked: Option<Place>) -> Line
    ensures { LineIs (meaning.asked_sentence asked) result }
{
    let place = asked.unwrap_or(Place {
        accident_year: 0,
        development_year: 0,
    });
    filled(
        b"Accident year @ in development year @ is not an unseen cell of this triangle.",
        &[place.accident_year, place.development_year],
    )
}
