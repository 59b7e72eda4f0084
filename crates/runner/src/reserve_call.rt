// The call that fills both answer lists, on lists that held other numbers.
ghost use Rattle.std.specs.Prelude.{◌≤◌};

use crate::printing::{print_amount, print_verdict, print_whether};
use calls::reserve::reserve;
use juniperprow::VerdictAnswer;
use lent::Triangle;
use lists::number_at;

// Prints the verdict, and the reserves at a place of the reserve list or whether both lists hold zeros throughout.
pub(crate) fn try_reserve(rt: &impl Print, triangle: Triangle<'_>, call_numbers: [i64; 3]) {
    let [future_length, reserves_length, place] = call_numbers;
    // Every number of both lists is 7 before the call. There is room for the lists of 33 accident years, and a case lends a part of it.
    let mut future_room = [7; 1584];
    let mut reserves_room = [7; 99];
    let future = &mut future_room[..within(future_length, 1584)];
    let reserves = &mut reserves_room[..within(reserves_length, 99)];
    let verdict = reserve(triangle, future, reserves);
    print_verdict(rt, VerdictAnswer::from(verdict));
    match verdict {
        Ok(()) => print_reserves(rt, reserves, place),
        Err(_) => print_whether(rt, all_zeros(future) & all_zeros(reserves), b"all zeros"),
    }
}

// A count, cut to the most that there is room for; 0 where it is negative. One chain of the library, whose contract says that bound.
fn within(count: i64, most: usize) -> usize
    ensures { result ≤ most }
{
    usize::try_from(count).unwrap_or(0).min(most)
}

// Three reserves, from a place of the list on.
fn print_reserves(rt: &impl Print, reserves: &[i64], place: i64) {
    let at = within(place, 96);
    print_amount(rt, b", paid ", number_at(reserves, at));
    print_amount(rt, b", incurred ", number_at(reserves, at + 1));
    print_amount(rt, b", closing ", number_at(reserves, at + 2));
}

fn all_zeros(list: &[i64]) -> bool {
    list.iter().all(|number| *number == 0)
}
