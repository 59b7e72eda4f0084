// Numbers and amounts as text, set to the right.
ghost use Rattle.std.specs.Prelude.{◌≡◌, [], ◌∷◌};
ghost use Rattle.written_figures.specs.Writing.{written, figure_text, Before, digit, three_digits, first_group, grouped, sign, whole_text, amount_text};

// Room for every number and amount of 64 bits.
pub const ROOM: usize = 32;

// A text: `width` bytes, set to the right in its room, with spaces before them.
// It is made from its last digit on, and is copied freely: a vector of the library grows at its end only, and is no Copy.
// No Display writes it: that has a Result, and a number is written without fail.
// No ghost field bounds the width: the definition `written` makes one of a text of any length, and room is asked where a text is set before it.
#[derive(Clone, Copy)]
pub struct Written {
    pub bytes: [u8; ROOM],
    pub width: usize,
}

// Units with six decimals, as -1,216,632.000000.
pub fn amount(millionths: i64) -> Written
    ensures is { result ≡ written (amount_text millionths) }
    ensures text { figure_text result ≡ amount_text millionths }
{
    let size = millionths.unsigned_abs();
    Written::nothing()
        .with_three_digits_before(size)
        .with_three_digits_before(size / 1000)
        .with_byte_before(b'.')
        .with_groups_before(size / 1_000_000)
        .with_sign_before(millionths)
}

// A whole number, as -1,216,632.
pub fn whole(number: i64) -> Written
    ensures is { result ≡ written (whole_text number) }
    ensures text { figure_text result ≡ whole_text number }
{
    Written::nothing()
        .with_groups_before(number.unsigned_abs())
        .with_sign_before(number)
}

impl Written {
    // The text without the spaces before it.
    pub fn text(&self) -> &[u8]
        ensures { result.now ≡ figure_text self.now }
    {
        let start = ROOM.saturating_sub(self.width);
        &self.bytes[start..]
    }

    // ---- From the right: each sets something before the text

    fn nothing() -> Written
        ensures { result ≡ written [] }
    {
        Written {
            bytes: [b' '; ROOM],
            width: 0,
        }
    }

    fn with_sign_before(self, number: i64) -> Written
        ensures { Before (sign number) self result }
    {
        if number < 0 {
            return self.with_byte_before(b'-');
        }
        self
    }

    // The digits of a number, with a comma before each further group of three. Each turn takes a group off the number, and counts nothing.
    fn with_groups_before(self, number: u64) -> Written
        ensures { Before (grouped number) self result }
    {
        let mut so_far = self;
        let mut left = number;
        while left >= 1000 {
            so_far = so_far.with_three_digits_before(left).with_byte_before(b',');
            left /= 1000;
        }
        so_far.with_first_group_before(left)
    }

    // The digits of a number below 1,000.
    #[tactic(auto, unfolding(crate::specs::Writing::first_group))]
    fn with_first_group_before(self, number: u64) -> Written
        ensures { Before (first_group number) self result }
    {
        if number < 10 {
            return self.with_digit_before(number);
        }
        if number < 100 {
            return self
                .with_digit_before(number)
                .with_digit_before(number / 10);
        }
        self.with_three_digits_before(number)
    }

    // The last three digits of a number.
    fn with_three_digits_before(self, number: u64) -> Written
        ensures { Before (three_digits number) self result }
    {
        self.with_digit_before(number)
            .with_digit_before(number / 10)
            .with_digit_before(number / 100)
    }

    // The last digit of a number.
    fn with_digit_before(self, number: u64) -> Written
        ensures { Before (digit number ∷ []) self result }
    {
        self.with_byte_before(b'0' + (number % 10) as u8)
    }

    // Where there is no room left, the text stays as it is.
    #[tactic(auto, using(crate::proofs::TextsBefore::byte_stored))]
    fn with_byte_before(mut self, byte: u8) -> Written
        ensures { Before (byte ∷ []) self result }
    {
        if self.width < ROOM {
            self.bytes[ROOM - 1 - self.width] = byte;
            self.width += 1;
        }
        self
    }
}
