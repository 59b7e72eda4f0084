// The verdict on a triangle.
ghost use Rattle.std.specs.Prelude.{◌≡◌, ◌≤◌};
ghost use Rattle.method.specs.Limits.{most_accident_years};
ghost use Rattle.method.specs.Verdicts.{at, nowhere};
ghost use Rattle.method.specs.Verdicts as meaning;
ghost use Rattle.verdicts.specs.Verdicts.{number_of, refused_by, verdict_of};

// An accident year and a development year; 0 where there is none, and no Option, since document 01's places and a host's answer have a 0 there.
#[derive(Clone, Copy, PartialEq, Eq)]
pub struct Place {
    pub accident_year: i64,
    pub development_year: i64,
}

// The questions of document 01, and from 11 on of document 02, by their numbers.
#[derive(Clone, Copy, PartialEq, Eq)]
pub enum Question {
    Years = 1,
    Cut = 2,
    Lengths = 3,
    WeightInRange = 4,
    AmountRight = 5,
    OutstandingInRange = 6,
    WeightAllowed = 7,
    Exposure = 8,
    ProjectedFigure = 9,
    YearsAsked = 10,
    KindKnown = 11,
    NumberWhole = 12,
    BlankWhereMissing = 13,
}

impl Question {
    // The number that a host is told.
    pub fn number(self) -> u8
        ensures { result ≡ number_of self }
    {
        self as u8
    }
}

// The question that refuses what a call lends, and the place of its first no.
#[derive(Clone, Copy, PartialEq, Eq)]
pub struct Refusal {
    pub question: Question,
    pub place: Place,
}

// Accepted, or refused by the first question whose answer is no.
pub type Verdict = Result<(), Refusal>;

// A question's refusal at a cell. Here and wherever a cell is asked, i and k stand by themselves with their bounds:
// a struct of them would be made and proved anew at every turn of a walk.
pub fn refusal_at(question: Question, i: usize, k: usize) -> Refusal
    requires { (i ≤ most_accident_years) × (k ≤ most_accident_years) }
    ensures { refused_by result ≡ meaning.refused (number_of question) (at i k) }
{
    Refusal {
        question,
        place: Place {
            accident_year: i as i64,
            development_year: k as i64,
        },
    }
}

// The verdict of a question that is asked of cell (i, k).
#[tactic(auto, unfolding(method::specs::Verdicts::ask))]
pub fn asked_at(answer: bool, question: Question, i: usize, k: usize) -> Verdict
    requires { (i ≤ most_accident_years) × (k ≤ most_accident_years) }
    ensures { verdict_of result ≡ meaning.ask answer (number_of question) (at i k) }
{
    if answer {
        Ok(())
    } else {
        Err(refusal_at(question, i, k))
    }
}

// The verdict of a question that is put to the input as a whole: a refusal has no place.
pub fn asked(answer: bool, question: Question) -> Verdict
    ensures { verdict_of result ≡ meaning.ask answer (number_of question) nowhere }
{
    asked_at(answer, question, 0, 0)
}
