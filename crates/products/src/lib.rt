// The product of two numbers of 64 bits, which has 128 bits: its upper and its lower half.
#![tactic(auto)]

ghost use Rattle.std.specs.Prelude.{◌≡◌, ◌*◌, ◌/◌, ◌%◌, ◌^◌};

// u × v / 2^64, cut: the upper half.
pub fn high_product(u: u64, v: u64) -> u64
    ensures { result ≡ u * v / 2 ^ 64 }
{
    u.carrying_mul(v, 0).1
}

// u × v % 2^64: the lower half.
pub fn low_product(u: u64, v: u64) -> u64
    ensures { result ≡ u * v % 2 ^ 64 }
{
    u.wrapping_mul(v)
}
