// 64-bit floats that are whole numbers, read without loss.
#![tactic(auto)]

ghost use Rattle.std.specs.Prelude.{◌≡◌, ◌&&◌, true};
ghost use Rattle.std.specs.Float.Ieee.{le, neg};
ghost use Rattle.floats.specs.WholeNumbers.{whole_number};
ghost use Rattle.floats.specs.Reading.{small, told};

// Why a float is no whole number of at most 2^53 in size: it is a larger one, or none.
#[derive(Clone, Copy)]
pub enum NotExact {
    Larger,
    NotWhole,
}

// The whole number that a float is.
// A small float is told by rounding it, which takes no branch on its sign.
pub fn whole_number(x: f64) -> Result<i64, NotExact>
    ensures { result ≡ told (whole_number x) }
{
    if is_within(x, TWO_TO_51) {
        return small_whole_number(x);
    }
    any_whole_number(x)
}

const TWO_TO_51: f64 = 2251799813685248.0;

const TWO_TO_53: f64 = 9007199254740992.0;

// Whether x is from -size to size.
// No plainer as `(-size..=size).contains(&x)`: that answers by `partial_cmp` at each end, where the definition has the comparison of floats itself.
fn is_within(x: f64, size: f64) -> bool
    ensures { result ≡ (le (neg size) x && le x size) }
{
    (-size <= x) & (x <= size)
}

// With 3 × 2^51 added the sum is at least 2^52, where floats have no fraction: it is rounded to a whole number.
// Taking 3 × 2^51 off again is exact, and never gives minus zero, which `as` does not take.
fn small_whole_number(x: f64) -> Result<i64, NotExact>
    requires { small x ≡ true }
    ensures { result ≡ told (whole_number x) }
{
    let added = 6755399441055744.0;
    let rounded = (x + added) - added;
    if !(rounded == x) {
        return Err(NotExact::NotWhole);
    }
    Ok(rounded as i64)
}

// Of any size: tested for finite, in range and equal to its cut to an integer.
fn any_whole_number(x: f64) -> Result<i64, NotExact>
    ensures { result ≡ told (whole_number x) }
{
    if !x.is_finite() {
        return Err(NotExact::NotWhole);
    }
    // Beyond 2^53 every finite float is whole.
    if !is_within(x, TWO_TO_53) {
        return Err(NotExact::Larger);
    }
    let cut = std::num::truncating_f64_to_i64(x);
    if !(cut as f64 == x) {
        return Err(NotExact::NotWhole);
    }
    Ok(cut)
}
