// One case: a line of fields, parted by '|'.
//   reserve|what is tried|accident years and cut|payments|adjustments|weights|openings|lengths of both answer lists, and the place of the reserves to print
//   cell|what is tried|accident years and cut|payments|adjustments|weights|openings|accident year and development year
//   payments|what is tried|accident years|payments|adjustments|||accident year       (and adjustments in the same way)
use crate::cell_call::try_cell;
use crate::numbers::read_numbers;
use crate::printing::print;
use crate::reserve_call::try_reserve;
use crate::row_call::try_row;
use lent::Triangle;
use line_parts::cells::Text;
use rows::AmountList;

// Prints what is tried, and what its call answers.
pub(crate) fn work(rt: &impl Print, line: &[u8]) {
    let fields = Text {
        bytes: line,
        separator: b'|',
    };
    print(rt, fields.field(1));
    print(rt, b": ");
    try_case(rt, fields);
    print(rt, b"\n");
}

// Reads what is lent, and the numbers of the last field, which mean what the call takes them for; 0 where a field has fewer.
// There is room for the lists of 33 accident years, one more than a triangle may have. A case with more is printed as malformed.
// The room is fixed: reading into a list that grows could fail where memory runs out, which no line says.
fn try_case(rt: &impl Print, fields: Text<'_>) {
    let mut payments = [0; 561];
    let mut adjustments = [0; 561];
    let mut weights = [0; 528];
    let mut openings = [0; 32];
    let mut size = [0; 2];
    let mut call_numbers = [0; 3];
    let payments = read_numbers(rt, fields.field(3), &mut payments);
    let adjustments = read_numbers(rt, fields.field(4), &mut adjustments);
    let weights = read_numbers(rt, fields.field(5), &mut weights);
    let openings = read_numbers(rt, fields.field(6), &mut openings);
    read_numbers(rt, fields.field(2), &mut size);
    read_numbers(rt, fields.field(7), &mut call_numbers);
    let triangle = Triangle {
        years: size[0],
        cut: size[1],
        payments,
        adjustments,
        weights,
        openings,
    };
    call(rt, fields.bytes, triangle, call_numbers);
}

// The first letter of a line tells the call.
fn call(rt: &impl Print, line: &[u8], triangle: Triangle<'_>, call_numbers: [i64; 3]) {
    match line.first() {
        Some(b'r') => try_reserve(rt, triangle, call_numbers),
        Some(b'c') => try_cell(rt, triangle, call_numbers),
        Some(b'p') => try_row(rt, triangle, AmountList::Payments, call_numbers[0]),
        Some(b'a') => try_row(rt, triangle, AmountList::Adjustments, call_numbers[0]),
        _ => print(rt, b"no such call"),
    }
}
