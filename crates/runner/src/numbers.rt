// Numbers in a text.
ghost use Rattle.std.specs.Prelude.{◌≤◌, length};

use crate::printing::print;
use figures::reading::figure_of;

// Reads the numbers of a field, which a space parts, into room that is lent, and hands out the part of it that they take.
// Those that the room does not hold are left out, and the case is printed as malformed.
pub(crate) fn read_numbers<'a>(rt: &impl Print, field: &[u8], room: &'a mut [i64]) -> &'a [i64]
    ensures { length result.now ≤ length room.old }
{
    let mut words = field.split_inclusive(|byte| *byte == b' ');
    for place in 0..room.len() {
        let Some(word) = words.next() else {
            return &room[..place];
        };
        room[place] = number_of(rt, word.strip_suffix(b" ").unwrap_or(word));
    }
    if words.next().is_some() {
        print(rt, b"malformed, numbers are left out: ");
    }
    room
}

// The number that a word is. Where it is none of 64 bits, the case is printed as malformed, and 0 stands for it.
fn number_of(rt: &impl Print, word: &[u8]) -> i64 {
    let Ok(number) = figure_of(word) else {
        print(rt, b"malformed, a number is read as 0: ");
        return 0;
    };
    number
}
