// What is printed of an answer. It is put into the output byte by byte, where it belongs: nothing is allocated, and nothing is written twice.
ghost use Rattle.std.specs.Prelude.{◌≡◌, ◌≤◌, ◌+◌, ◌<◌, ◌^◌, [], ◌∷◌, ◌++◌, Some, codes, decimal, length};
ghost use Rattle.std.specs.Fmt.{signed_decimal};
ghost use Rattle.faults.specs.Faults.{letter_of};
ghost use Rattle.scripts.specs.Puts.{Puts};
ghost use Rattle.scripts.specs.Room.{ShortPart, ShortTime};
ghost use Rattle.scripts.specs.Texts.{spaced, hundredths as hundredths_of, NearestHundredth, answer_text, line_text};

use crate::answer::Answer;
use faults::Fault;
use std::fmt;

// The most bytes of a line, where the parts of a time in it are short.
pub(crate) const LINE_BYTES: usize = 64;

// The least number that has more than three digits.
const FOUR_DIGITS: u64 = 1_000;

// Milliseconds in hundredths of a second, halves up. A tenth is taken first, so that no time is too great for a sum.
#[tactic(auto, using(crate::proofs::Hundredths::nearest))]
fn hundredths(t: i64) -> i64
    ensures tenth { result ≡ hundredths_of t }
    ensures nearest { NearestHundredth t result }
{
    let tenth = t.div_euclid(10);
    if t.rem_euclid(10) < 5 {
        tenth
    } else {
        tenth + 1
    }
}

// Each of these puts a text into the output at a place, and answers the place after it.
#[inline(always)]
fn put_byte(output: &mut [u8], at: usize, byte: u8) -> usize
    requires room { at < length output.old }
    ensures { Puts output.old at (byte ∷ []) output.new result }
{
    output[at] = byte;
    at + 1
}

// A digit.
#[inline(always)]
fn put_digit(output: &mut [u8], at: usize, n: u64) -> usize
    requires digit { n < 10 }
    requires room { at < length output.old }
    ensures { Puts output.old at ((48 + n) ∷ []) output.new result }
{
    put_byte(output, at, b'0' + n as u8)
}

// A number of up to two digits.
#[inline(always)]
fn put_two(output: &mut [u8], at: usize, n: u64) -> usize
    requires small { n < 100 }
    requires room { at + length (decimal n) ≤ length output.old }
    ensures { Puts output.old at (decimal n) output.new result }
{
    if n < 10 {
        return put_digit(output, at, n);
    }
    let at = put_digit(output, at, n / 10);
    put_digit(output, at, n % 10)
}

// A number of up to three digits.
#[inline(always)]
fn put_three(output: &mut [u8], at: usize, n: u64) -> usize
    requires small { n < 1000 }
    requires room { at + length (decimal n) ≤ length output.old }
    ensures { Puts output.old at (decimal n) output.new result }
{
    if n < 10 {
        return put_digit(output, at, n);
    }
    let at = put_two(output, at, n / 10);
    put_digit(output, at, n % 10)
}

// A number.
fn put_natural(output: &mut [u8], at: usize, n: u64) -> usize
    requires room { at + length (decimal n) ≤ length output.old }
    ensures { Puts output.old at (decimal n) output.new result }
{
    if n < FOUR_DIGITS {
        return put_three(output, at, n);
    }
    let at = put_natural(output, at, n / 10);
    put_digit(output, at, n % 10)
}

// A number after a space.
fn put_count(output: &mut [u8], at: usize, n: u64) -> usize
    requires room { at + 1 + length (decimal n) ≤ length output.old }
    ensures { Puts output.old at (codes " " ++ decimal n) output.new result }
{
    let at = put_byte(output, at, b' ');
    put_natural(output, at, n)
}

// A whole number, with its sign, after a space.
fn put_number(output: &mut [u8], at: usize, n: i64) -> usize
    requires room { at + 1 + length (signed_decimal n) ≤ length output.old }
    ensures { Puts output.old at (codes " " ++ signed_decimal n) output.new result }
{
    if 0 <= n {
        return put_count(output, at, n as u64);
    }
    let at = put_byte(output, at, b' ');
    let at = put_byte(output, at, b'-');
    put_natural(output, at, n.unsigned_abs())
}

// A letter and a count.
#[tactic(auto, using(crate::proofs::Widths::count_width, crate::proofs::Widths::part_width, crate::proofs::Widths::hundredths_width))]
fn put_counted(output: &mut [u8], at: usize, letter: u8, count: usize) -> usize
    requires room { at + 57 ≤ length output.old }
    ensures puts { Puts output.old at (spaced ((letter ∷ []) ∷ (decimal count ∷ []))) output.new result }
    ensures short { result ≤ at + 57 }
{
    let at = put_byte(output, at, letter);
    put_count(output, at, count as u64)
}

// The earliest time of a point.
#[tactic(auto, using(crate::proofs::Widths::count_width, crate::proofs::Widths::part_width, crate::proofs::Widths::hundredths_width))]
fn put_time(output: &mut [u8], at: usize, point: u16, t: i64, s: i64) -> usize
    requires t_short { ShortPart t }
    requires s_short { ShortPart s }
    requires room { at + 57 ≤ length output.old }
    ensures puts { Puts output.old at (spaced (codes "W" ∷ (decimal point ∷ (signed_decimal t ∷ (signed_decimal s
        ∷ (signed_decimal (hundredths_of t) ∷ [])))))) output.new result }
    ensures short { result ≤ at + 57 }
{
    let at = put_byte(output, at, b'W');
    let at = put_count(output, at, u64::from(point));
    let at = put_number(output, at, t);
    let at = put_number(output, at, s);
    put_number(output, at, hundredths(t))
}

// A fault.
#[tactic(auto, using(crate::proofs::Widths::count_width, crate::proofs::Widths::part_width, crate::proofs::Widths::hundredths_width))]
fn put_fault(output: &mut [u8], at: usize, fault: Fault) -> usize
    requires room { at + 57 ≤ length output.old }
    ensures puts { Puts output.old at (spaced (codes "E" ∷ (decimal fault.number ∷ ((letter_of fault.layer ∷ []) ∷ (decimal fault.place ∷ [])))))
        output.new result }
    ensures short { result ≤ at + 57 }
{
    let at = put_byte(output, at, b'E');
    let at = put_count(output, at, u64::from(fault.number));
    let at = put_byte(output, at, b' ');
    let at = put_byte(output, at, char::from(fault.layer) as u8);
    put_count(output, at, fault.place)
}

// The letter of the answer, and its numbers.
fn put_answer(output: &mut [u8], at: usize, answer: Answer) -> usize
    requires time { ShortTime answer }
    requires room { at + 57 ≤ length output.old }
    ensures puts { Puts output.old at (answer_text answer) output.new result }
    ensures short { result ≤ at + 57 }
{
    match answer {
        Answer::Settled { count } => put_counted(output, at, b'S', count),
        Answer::Moved { count } => put_counted(output, at, b'A', count),
        Answer::Covered => put_byte(output, at, b'C'),
        Answer::Conflict => put_byte(output, at, b'X'),
        Answer::Time { point, t, s } => put_time(output, at, point, t, s),
        Answer::Refused(fault) => put_fault(output, at, fault),
    }
}

// The line of a listing: the number of the script's line, and its answer.
#[tactic(auto, using(crate::proofs::Widths::number_width))]
pub(crate) fn put_line(output: &mut [u8], at: usize, number: usize, answer: Answer) -> usize
    requires number { number ≤ 32768 }
    requires time { ShortTime answer }
    requires room { at + 64 ≤ length output.old }
    ensures puts { Puts output.old at (line_text number answer) output.new result }
    ensures short { result ≤ at + 64 }
{
    let at = put_natural(output, at, number as u64);
    let at = put_byte(output, at, b' ');
    let at = put_answer(output, at, answer);
    put_byte(output, at, b'\n')
}

/// The text of the answer as in a listing, without the number of its line.
impl fmt::Display for Answer {
    ghost output = { λ a. Some (answer_text a) };

    fn fmt<W: fmt::Write>(&self, f: &mut fmt::Formatter<W>) -> fmt::Result {
        match *self {
            Answer::Settled { count } => write!(f, "S {count}"),
            Answer::Moved { count } => write!(f, "A {count}"),
            Answer::Covered => f.write_str("C"),
            Answer::Conflict => f.write_str("X"),
            Answer::Time { point, t, s } => write!(f, "W {point} {t} {s} {}", hundredths(t)),
            Answer::Refused(fault) => write!(
                f,
                "E {} {} {}",
                fault.number,
                char::from(fault.layer),
                fault.place
            ),
        }
    }
}
