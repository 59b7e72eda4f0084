// A template with numbers in its places.
ghost use Rattle.printed.specs.Line.{LineIs};
ghost use Rattle.printed.specs.Filling as meaning;

use crate::line::Line;

// A template with the numbers, in their order, in the places that '@' holds. A place without a number holds 0.
pub fn filled(template: &[u8], numbers: &[i64]) -> Line
    ensures { LineIs (meaning.filled template.now numbers.now) result }
{
    let mut line = Line::empty();
    let mut left = numbers.iter();
    for byte in template {
        line = if *byte == b'@' {
            line.with_number(left.next().copied().unwrap_or(0))
        } else {
            line.with_byte(*byte)
        };
    }
    line
}
