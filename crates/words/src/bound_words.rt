// The three words of a bound, and the bound of three words.
ghost use Rattle.std.specs.Prelude.{◌≡◌, ◌+◌, ◌^◌, ◌<◌, Some};
ghost use Rattle.bounds.specs.Making.{row_of};
ghost use Rattle.words.specs.Law.{Law};
ghost use Rattle.words.specs.Reading.{RowRead, BoundRead};
ghost use Rattle.words.specs.Text.{words_text};
ghost use Rattle.words.specs.Words.{row_words};

use crate::fault::WordFault;
use crate::tag::{LEFT, TOP, Tag, points};
use bounds::{Bound, Row};
use std::fmt;

/// The three words of a bound: its head, its t and its s.
#[derive(Clone, Copy, PartialEq, Eq, Debug)]
pub struct BoundWords(pub [u32; 3]);

/// The three words of a bound. The law of house words stands in this contract: rows have one writing, words one reading, a buffer one answer.
impl From<Bound> for BoundWords {
    ghost from_gives = { λ b w. w.0 ≡ row_words (row_of b) };

    fn from(bound: Bound) -> BoundWords
        ensures value { result.0 ≡ row_words (row_of bound) }
        ensures law { Law }
    {
        let Row { left, right, t, s } = bound.row();
        BoundWords([
            Tag::Head as u32 * TOP + left as u32 * LEFT + right as u32,
            Tag::T as u32 * TOP + t.cast_unsigned() % TOP,
            Tag::S as u32 * TOP + s.cast_unsigned() % TOP,
        ])
    }
}

// The bound in the row whose head is at the place `first`, or the first word that breaks the row.
pub(crate) fn read_row(first: u64, words: BoundWords) -> Result<Bound, WordFault>
    requires { first + 2 < 2 ^ 64 }
    ensures { RowRead first words.0 result }
{
    let BoundWords([head, t, s]) = words;
    let (left, right) = points(head).ok_or(WordFault::Word { place: first })?;
    let t = Tag::T.part(t).ok_or(WordFault::Word { place: first + 1 })?;
    let s = Tag::S.part(s).ok_or(WordFault::Word { place: first + 2 })?;
    Ok(Bound {
        row: Row { left, right, t, s },
    })
}

/// The bound of three words; or the first of them that breaks the row, which is fault 13 at its place, from 0.
impl TryFrom<BoundWords> for Bound {
    type Error = WordFault;

    ghost try_from_gives = { λ w r. BoundRead w.0 r };

    fn try_from(words: BoundWords) -> Result<Bound, WordFault> {
        read_row(0, words)
    }
}

/// The words in hexadecimal: `40000001 BFFFFFEC C0000000`.
impl fmt::Display for BoundWords {
    ghost output = { λ w. Some (words_text w.0) };

    fn fmt<W: fmt::Write>(&self, f: &mut fmt::Formatter<W>) -> fmt::Result {
        let BoundWords([head, t, s]) = *self;
        write!(f, "{head:08X} {t:08X} {s:08X}")
    }
}
