// Counts of bytes and of lines.
ghost use Rattle.std.specs.Prelude.{◌≡◌};
ghost use Rattle.printed.specs.Counts.{as_number};

// A count as a number: one chain of the library, under a contract in the words of the definitions.
pub fn signed(count: usize) -> i64
    ensures { result ≡ as_number count }
{
    i64::try_from(count).unwrap_or(i64::MAX)
}
