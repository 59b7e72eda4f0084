// What is printed: texts, numbers, amounts and verdicts.
use juniperprow::VerdictAnswer;
use written_figures::writing::{amount, whole};

// A write that fails is passed over: whoever compares what was printed sees it.
pub(crate) fn print(rt: &impl Print, text: &[u8]) {
    let _ = rt.write_all(text);
}

// A text, and a number after it. Beside the next it stays: one function of both would take the writing as a parameter at each call.
pub(crate) fn print_number(rt: &impl Print, text: &[u8], number: i64) {
    print(rt, text);
    print(rt, whole(number).text());
}

// A text, and millionths in units with six decimals.
pub(crate) fn print_amount(rt: &impl Print, text: &[u8], millionths: i64) {
    print(rt, text);
    print(rt, amount(millionths).text());
}

// Accepted, or the number and the place of a refusal, as a host is told them.
pub(crate) fn print_verdict(rt: &impl Print, verdict: VerdictAnswer) {
    if verdict.number == 0 {
        print(rt, b"accepted");
    } else {
        print_number(rt, b"refused by ", verdict.number);
        print_number(rt, b" at (", verdict.accident_year);
        print_number(rt, b", ", verdict.development_year);
        print(rt, b")");
    }
}

// A text, or that it does not hold.
pub(crate) fn print_whether(rt: &impl Print, holds: bool, text: &[u8]) {
    print(rt, b", ");
    if !holds {
        print(rt, b"not ");
    }
    print(rt, text);
}
