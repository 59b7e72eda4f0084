// Sums and differences that are exact, or known to have more than 64 bits.
// Each is one call of the library, under a contract in the words of the definitions.
ghost use Rattle.std.specs.Prelude.{◌≡◌, ◌+ℤ◌, ◌-ℤ◌};
ghost use Rattle.exact_sums.specs.Exact.{exact_of};

// a + b, or nothing where it has more than 64 bits.
pub fn sum(a: i64, b: i64) -> Option<i64>
    ensures { result ≡ exact_of (a +ℤ b) }
{
    a.checked_add(b)
}

// a − b, in the same way.
pub fn difference(a: i64, b: i64) -> Option<i64>
    ensures { result ≡ exact_of (a -ℤ b) }
{
    a.checked_sub(b)
}
