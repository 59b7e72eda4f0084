// Reading a triangle: questions 1 to 8, and the ratios of a triangle that they accept.
ghost use Rattle.std.specs.Prelude.{◌≡◌, ◌≤◌};
ghost use Rattle.method.specs.Limits.{most_accident_years};
ghost use Rattle.lent.specs.Triangles.{triangle_of};
ghost use Rattle.verdicts.specs.Verdicts.{verdict_of};
ghost use Rattle.triangle.specs.Reading.{exposures, ReadingOf, ReadInto};

use lent::{AnswerLengths, Triangle};
use questions::inputs::input_questions;
use ratios::{Development, NO_SUMS, Sums, development_of};
use verdicts::limits::{ACCIDENT_YEARS, DEVELOPMENT_YEARS};
use verdicts::verdict::{Question, Refusal, Verdict, asked_at};

// What a call begins with, before it has read a triangle.
pub const NOTHING_READ: Development = Development {
    ratios: [NO_SUMS; DEVELOPMENT_YEARS],
    outstandings: [0; ACCIDENT_YEARS],
};

// What a triangle shows of its development, document 01's ratios and last observed outstandings; or the first refusal of questions 1 to 8.
// What is lent may be anything: n, the cut and every number any i64, and the lists of any length.
pub fn read(triangle: Triangle<'_>, answers: Option<AnswerLengths>) -> Result<Development, Refusal>
    ensures { ReadingOf (triangle_of triangle.entry) answers result }
{
    input_questions(triangle, answers)?;
    let development = development_of(triangle);
    question_8(triangle.years as usize, &development.ratios)?;
    Ok(development)
}

// The verdict of questions 1 to 8. Where they accept, what the triangle shows is written in the development; else that stays as it is.
// It stays a call of its own, and its answer no Result of a development: what `read` takes of the stack, of which the header of the C interface says how much a call uses,
// is free again when the triangle is projected.
#[inline(never)]
pub fn read_into(
    triangle: Triangle<'_>,
    answers: Option<AnswerLengths>,
    development: &mut Development,
) -> Verdict
    ensures { ReadInto (triangle_of triangle.entry) answers development.old result development.new }
{
    *development = read(triangle, answers)?;
    Ok(())
}

// The first development year whose exposure is not above 0, if there is one. By k and no iterator over sums: it is the place of the refusal too.
// n stands beside the ratios, whose array is of the largest size.
fn question_8(n: usize, ratios: &[Sums; DEVELOPMENT_YEARS]) -> Verdict
    requires { n ≤ most_accident_years }
    ensures { verdict_of result ≡ exposures n ratios.now }
{
    for k in 1..n {
        asked_at(0 < ratios[k - 1].exposure, Question::Exposure, 0, k)?;
    }
    Ok(())
}
