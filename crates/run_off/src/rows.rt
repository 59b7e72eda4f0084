// An accident year's row, into a list or without one, and question 9 of all rows.
// What the loops keep is said in proofs: `RowSoFar` in ProjectedYears.antt, `WrittenSoFar` in RowAnswers.antt, and of rows
// `PassedSoFar` in FirstRefusal.antt of the crate `method`.
ghost use Rattle.std.specs.Prelude.{◌≡◌, ℕ, Option, Some, None, [], ◌∷◌, ◌+◌, ◌*◌, ◌-◌};
ghost use Rattle.method.specs.AnswerPlaces.{AccidentYear};
ghost use Rattle.method.specs.Questions.{question_9};
ghost use Rattle.verdicts.specs.Verdicts.{verdict_of};
ghost use Rattle.run_off.specs.MethodRead.{method_read};
ghost use Rattle.run_off.specs.Rows.{RoomFrom, written_from, RowWritten};

use lists::write_three;
use prepared_years::triangle::PreparedTriangle;
use projection::Movement;
use row_states::RowState;
use share::millionths::Millionths;
use verdicts::verdict::{Question, Refusal, Verdict, refusal_at};

// The reserves of an accident year, and the payment of its first projected year: 0 for accident year 1, which has none,
// and no Option, since it is the first number of the year's row as document 01 reads an entry beyond a list's end. The calls of a host do not read it.
#[derive(Clone, Copy)]
pub struct ProjectedRow {
    pub paid: Millionths,
    pub incurred: Millionths,
    pub closing: Millionths,
    pub first_payment: Millionths,
}

// Where the figures of the projected years of an accident year go.
pub trait Destination: Copy {
    // the place of a list that they begin at, if they are written
    ghost start: { Self → Option ℕ };

    // Stores the figures of the year after these projected ones.
    fn write(self, list: &mut [i64], projected: usize, movement: Movement)
        requires { RoomFrom (start self) (3 * projected + 3) list.old }
        ensures { list.new ≡ written_from (start self) (3 * projected) (movement.payment.0 ∷ movement.adjustment.0 ∷ movement.outstanding.0 ∷ []) list.old };
}

// They are not written.
#[derive(Clone, Copy)]
pub struct Nowhere;

impl Destination for Nowhere {
    ghost start = { λ _. None };

    fn write(self, _list: &mut [i64], _projected: usize, _movement: Movement) {}
}

// Into the list, from this place on.
#[derive(Clone, Copy)]
pub struct IntoList(pub usize);

impl Destination for IntoList {
    ghost start = { λ it. Some it.0 };

    fn write(self, list: &mut [i64], projected: usize, movement: Movement) {
        write_three(
            list,
            self.0 + 3 * projected,
            movement.payment.0,
            movement.adjustment.0,
            movement.outstanding.0,
        );
    }
}

// Projects accident year i from its last observed outstanding, up to the first refusal of question 9.
// Where the figures of its projected years are written, those before a refusal stay. No other place of the list is touched.
pub fn project_row<D: Destination>(
    triangle: &PreparedTriangle,
    i: usize,
    list: &mut [i64],
    destination: D,
) -> Result<ProjectedRow, Refusal>
    requires i_in_triangle { AccidentYear triangle.now.n i }
    requires i_in_bounds { RoomFrom (D.start destination) (3 * (i - 1)) list.old }
    ensures { RowWritten (method_read triangle.now) i (D.start destination) list.old result list.new }
{
    let mut state = RowState::first(triangle.outstandings[i - 1]);
    // The loop's count says where the figures of a year go, the state's which year follows: the same number, of a destination and of a year.
    for projected in 0..i - 1 {
        // The year from k to k + 1 stands at k − 1, and a refusal is told at k + 1.
        let place = state.place_of_next_year(triangle.n, i);
        let Some(movement) = state.next_year(triangle.years[place]) else {
            return Err(refusal_at(Question::ProjectedFigure, i, place + 2));
        };
        destination.write(list, projected, movement);
        state = state.with_year(movement);
    }
    Ok(ProjectedRow {
        paid: state.paid,
        incurred: state.incurred,
        closing: state.outstanding,
        first_payment: state.first_payment,
    })
}

// The first refusal of question 9 in any accident year, if there is one, for calls that write no figure.
// The call that fills both lists asks it as it writes, in `project`. It is no method, since the struct of a prepared triangle lies in a crate below.
#[tactic(auto, using(method::proofs::FirstRefusal::next_accepted, method::proofs::FirstRefusal::next_refused, method::proofs::FirstRefusal::all_accepted, verdicts::proofs::Refusals::handed_on), unfolding(method::specs::Questions::question_9))]
pub fn question_9(triangle: &PreparedTriangle) -> Verdict
    ensures { verdict_of result ≡ question_9 (method_read triangle.now) }
{
    for r in 0..triangle.n {
        project_row(triangle, r + 1, &mut [], Nowhere)?;
    }
    Ok(())
}
