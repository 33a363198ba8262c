// Fields as decimal numbers and as hexadecimal words.
ghost use Rattle.std.specs.Prelude.{◌≡◌, ℕ, ◌^◌, ◌<◌, ◌≤◌, List, Option, None, length, IfSome};
ghost use Rattle.lines.specs.Digits.{digit, digits_value};
ghost use Rattle.lines.specs.Decimal.{natural, number};
ghost use Rattle.lines.specs.Hex.{word};
ghost use Rattle.lines.specs.Lengths.{number_long, word_long};

// The most digits that a decimal number has.
const NUMBER_DIGITS: usize = 10;

// The digits that every word has.
const WORD_DIGITS: usize = 8;

// What a field can hold.
pub trait FromField: Copy + Default {
    // The value in a field, where it has one.
    ghost reading: { List ℕ → Option Self };

    // The most bytes of a field that has a value.
    ghost longest: { ℕ };

    fn from_field(field: &[u8]) -> Option<Self>
        ensures { result ≡ reading field.now };

    // So a longer field has none, and the front of a line decides what its fields hold.
    ghost refuses_longer: { (field : List ℕ) → longest < length field → reading field ≡ None };
}

// The number in a field: an optional minus, and one to ten digits.
impl FromField for i64 {
    ghost reading = { number };

    ghost longest = { 11 };

    ghost refuses_longer = { number_long };

    fn from_field(field: &[u8]) -> Option<i64> {
        match field {
            [b'-', digits @ ..] => natural_in(digits).map(|n| -(n as i64)),
            _ => natural_in(field).map(|n| n as i64),
        }
    }
}

// The word in a field: just eight hexadecimal digits, in either case.
impl FromField for u32 {
    ghost reading = { word };

    ghost longest = { 8 };

    ghost refuses_longer = { word_long };

    fn from_field(field: &[u8]) -> Option<u32> {
        if field.len() != WORD_DIGITS {
            return None;
        }
        digits_in(field, 16).map(|n| n as u32)
    }
}

// The value of a byte as a digit of the base.
fn digit_in(b: u8, base: u32) -> Option<u32>
    requires some { 2 ≤ base }
    requires small { base ≤ 16 }
    ensures value { result ≡ digit base b }
    ensures bound { IfSome result (λ d. d < base) }
{
    char::from(b).to_digit(base)
}

// The number that digits write in a base. With so few digits, in so small a base, it can't overflow.
fn digits_in(text: &[u8], base: u32) -> Option<u64>
    requires few { length text.now ≤ 10 }
    requires some { 2 ≤ base }
    requires small { base ≤ 16 }
    ensures value { result ≡ digits_value base text.now }
    ensures bound { IfSome result (λ n. n < base ^ length text.now) }
{
    // A `try_fold` would check each step for an overflow that the bounds rule out, and be no shorter.
    let mut n = 0;
    for b in text {
        let d = digit_in(*b, base)?;
        n = n * u64::from(base) + u64::from(d);
    }
    Some(n)
}

// The number of one to ten decimal digits.
fn natural_in(text: &[u8]) -> Option<u64>
    ensures value { result ≡ natural text.now }
    ensures bound { IfSome result (λ n. n < 10 ^ 10) }
{
    if !(1..=NUMBER_DIGITS).contains(&text.len()) {
        return None;
    }
    digits_in(text, 10)
}
