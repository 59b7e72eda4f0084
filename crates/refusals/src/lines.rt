// What is printed of a refusal by a question: its number and its place, what is wrong there, and where the text has it.
ghost use Rattle.std.specs.Prelude.{◌≡◌, ◌≢◌, MatchOption};
ghost use Rattle.verdicts.specs.Verdicts.{number_of};
ghost use Rattle.verdicts.specs.declared.verdict.Question.{Question};
ghost use Rattle.printed.specs.Line.{LineIs};
ghost use Rattle.refusals.specs.Sentences as meaning;

use crate::found::{Found, Lent};
use crate::sentences::{
    amount_sentence, cut_sentence, exposure_sentence, lengths_sentence, outstanding_sentence,
    seen_cell_sentence,
};
use printed::counts::signed;
use printed::filling::filled;
use printed::line::Line;
use verdicts::verdict::{Place, Question};

// The first line: the question and its place.
#[tactic(auto, using(integers::proofs::MachineArithmetic::held), unfolding(crate::specs::Sentences::refused_line))]
pub fn refused_line(question: u8, place: Place) -> Line
    ensures { LineIs (meaning.refused_line question place.accident_year place.development_year) result }
{
    filled(
        b"refused by question @ at (@, @)",
        &[
            i64::from(question),
            place.accident_year,
            place.development_year,
        ],
    )
}

// The second line: what is wrong. A number that no question has is told as question 10's.
pub fn sentence(question: u8, place: Place, lent: Lent, found: Found) -> Line
    ensures { LineIs (meaning.sentence question place.accident_year place.development_year lent found) result }
{
    match question_of(question) {
        Some(question) => sentence_of(question, place, lent, found),
        None => seen_cell_sentence(lent.asked),
    }
}

// The question that has this number.
fn question_of(number: u8) -> Option<Question>
    ensures { MatchOption result
        ((question : Question) → number_of question ≢ number)
        (λ question. number_of question ≡ number) }
{
    match number {
        1 => Some(Question::Years),
        2 => Some(Question::Cut),
        3 => Some(Question::Lengths),
        4 => Some(Question::WeightInRange),
        5 => Some(Question::AmountRight),
        6 => Some(Question::OutstandingInRange),
        7 => Some(Question::WeightAllowed),
        8 => Some(Question::Exposure),
        9 => Some(Question::ProjectedFigure),
        10 => Some(Question::YearsAsked),
        11 => Some(Question::KindKnown),
        12 => Some(Question::NumberWhole),
        13 => Some(Question::BlankWhereMissing),
        _ => None,
    }
}

// The cell that is asked for is one that question 10 refuses.
#[tactic(auto, using(integers::proofs::MachineArithmetic::held), unfolding(crate::specs::Sentences::sentence))]
fn sentence_of(question: Question, place: Place, lent: Lent, found: Found) -> Line
    ensures { LineIs (meaning.sentence (number_of question) place.accident_year place.development_year lent found) result }
{
    let i = place.accident_year;
    let k = place.development_year;
    let weight = [i, k, found.weight];
    match question {
        Question::Years => filled(
            b"The number of accident years is @ and not from 2 to 32: it is the number of rows of payments.",
            &[lent.years],
        ),
        Question::Cut => cut_sentence(lent.cut, lent.years),
        Question::Lengths => lengths_sentence(lent),
        Question::WeightInRange => filled(
            b"The weight of accident year @ in development year @ is @ and not from 0 to 100.",
            &weight,
        ),
        Question::AmountRight => amounts_sentence(i, k, found),
        Question::OutstandingInRange => observed_sentence(i, k, found),
        Question::WeightAllowed => filled(
            b"The weight of accident year @ in development year @ is @ and not 0, though its years add up to no more than the cut.",
            &weight,
        ),
        Question::Exposure => exposure_sentence(k),
        Question::ProjectedFigure => filled(
            b"The payment, adjustment or outstanding projected for accident year @ in development year @ is above 10,000,000,000 units in size.",
            &[i, k],
        ),
        // Questions 11 to 13 are asked of a workbook only.
        Question::YearsAsked
        | Question::KindKnown
        | Question::NumberWhole
        | Question::BlankWhereMissing => seen_cell_sentence(lent.asked),
    }
}

// Question 5 asks every payment first, so that an adjustment is wrong only where its cell's payment is right.
fn amounts_sentence(i: i64, k: i64, found: Found) -> Line
    ensures { LineIs (meaning.amounts_sentence i k found) result }
{
    if found.payment_right {
        return amount_sentence(
            i,
            k,
            found.adjustment,
            b"The adjustment of accident year @ in development year @ is @ and not 0, though the cell is missing: its years add up to no more than the cut.",
            b"The adjustment of accident year @ in development year @ is @ and not from -1,000,000,000 to 1,000,000,000.",
        );
    }
    amount_sentence(
        i,
        k,
        found.payment,
        b"The payment of accident year @ in development year @ is @ and not 0, though the cell is missing: its years add up to no more than the cut.",
        b"The payment of accident year @ in development year @ is @ and not from -1,000,000,000 to 1,000,000,000.",
    )
}

#[tactic(auto, using(integers::proofs::MachineArithmetic::held), unfolding(crate::specs::Sentences::observed_sentence, crate::specs::Sentences::opening_sentence))]
fn observed_sentence(i: i64, k: i64, found: Found) -> Line
    ensures { LineIs (meaning.observed_sentence i k found) result }
{
    if found.opening {
        return filled(
            b"The opening outstanding of accident year @, at the end of development year @, is @ and not from 0 to 1,000,000,000.",
            &[i, k, found.outstanding],
        );
    }
    outstanding_sentence(i, k, found.outstanding)
}

// Where the text has what is wrong. An Option of the other five would be matched in two steps, and say no more.
#[derive(Clone, Copy)]
pub enum InText {
    Nowhere,
    PaymentsRow,
    AdjustmentsRow,
    BothRows,
    WeightsRow,
    OpeningsHeading,
}

// The rows or the heading that hold what is wrong.
pub fn in_text(question: u8, found: Found) -> InText
    ensures { result ≡ meaning.in_text question found }
{
    match question_of(question) {
        Some(question) => in_text_of(question, found),
        None => InText::Nowhere,
    }
}

#[tactic(auto, unfolding(crate::specs::Sentences::in_text))]
fn in_text_of(question: Question, found: Found) -> InText
    ensures { result ≡ meaning.in_text (number_of question) found }
{
    match question {
        Question::WeightInRange | Question::WeightAllowed => InText::WeightsRow,
        Question::AmountRight if found.payment_right => InText::AdjustmentsRow,
        Question::AmountRight => InText::PaymentsRow,
        Question::OutstandingInRange if found.opening => InText::OpeningsHeading,
        Question::OutstandingInRange => InText::BothRows,
        Question::Years
        | Question::Cut
        | Question::Lengths
        | Question::Exposure
        | Question::ProjectedFigure
        | Question::YearsAsked
        | Question::KindKnown
        | Question::NumberWhole
        | Question::BlankWhereMissing => InText::Nowhere,
    }
}

// The third line, where the text has it in one line.
#[tactic(auto, using(integers::proofs::MachineArithmetic::held), unfolding(crate::specs::Sentences::see_line))]
pub fn see_line(line: usize) -> Line
    ensures { LineIs (meaning.see_line line) result }
{
    filled(b"See line @.", &[signed(line)])
}

// The third line, where the text has it in two lines: that of the payment and that of the adjustment.
#[tactic(auto, using(integers::proofs::MachineArithmetic::held), unfolding(crate::specs::Sentences::see_lines))]
pub fn see_lines(first: usize, second: usize) -> Line
    ensures { LineIs (meaning.see_lines first second) result }
{
    filled(b"See lines @ and @.", &[signed(first), signed(second)])
}
