// A cell of a table, read as a whole number.
ghost use Rattle.std.specs.Prelude.{◌≡◌, min};
ghost use Rattle.figures.specs.Reading.{figure_of, size_of, all_digits, value_of, greatest_size};

// Why a cell holds no whole number of 64 bits: nothing stands in it, its number has more bits, or it is something else.
#[derive(Clone, Copy, PartialEq, Eq)]
pub enum NoFigure {
    Blank,
    TooLarge,
    NotWhole,
}

// A whole number is one or more digits, with '-' before them where it is negative, and nothing else.
#[tactic(auto, using(crate::proofs::Digits::no_size, crate::proofs::Digits::from_zero, crate::proofs::Digits::below_zero), unfolding(crate::specs::Reading::figure_of))]
pub fn figure_of(cell: &[u8]) -> Result<i64, NoFigure>
    ensures { result ≡ figure_of cell.now }
{
    let Some((first, digits)) = cell.split_first() else {
        return Err(NoFigure::Blank);
    };
    if *first == b'-' {
        let size = size_of(digits)?;
        0i64.checked_sub_unsigned(size).ok_or(NoFigure::TooLarge)
    } else {
        let size = size_of(cell)?;
        0i64.checked_add_unsigned(size).ok_or(NoFigure::TooLarge)
    }
}

// The size of a number that is these digits.
#[tactic(auto, using(crate::proofs::Digits::no_digits, crate::proofs::Digits::other_bytes, crate::proofs::Digits::only_digits))]
fn size_of(digits: &[u8]) -> Result<u64, NoFigure>
    ensures { result ≡ size_of digits.now }
{
    if digits.is_empty() || !all_digits(digits) {
        return Err(NoFigure::NotWhole);
    }
    Ok(value_of(digits))
}

// One chain of the library, under a contract by the definition's name; no twin of a search of letters, whose subject is another.
fn all_digits(text: &[u8]) -> bool
    ensures { result ≡ all_digits text.now }
{
    text.iter().all(|byte| byte.is_ascii_digit())
}

// The value of the digits, or the greatest size of 64 bits where it is larger: no number of 64 bits with a sign has that size.
// One chain of the library, under a contract that says where it stops.
fn value_of(digits: &[u8]) -> u64
    ensures { result ≡ min (value_of digits.now) greatest_size }
{
    digits.iter().fold(0, |size, digit| {
        let next = u64::from(digit.saturating_sub(b'0'));
        size.saturating_mul(10).saturating_add(next)
    })
}
