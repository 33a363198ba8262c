// The rows of a whole buffer of words.
ghost use Rattle.std.specs.Prelude.{◌≡◌, ◌%◌, ◌≤◌, length, MatchResult};
ghost use Rattle.bounds.specs.Making.{row_of};
ghost use Rattle.words.specs.Reading.{RowsRead, Checked};

use crate::bound_words::{BoundWords, read_row};
use crate::fault::WordFault;
use bounds::Bound;

// 65,535 rows: words past them are neither read nor written.
const WORDS: usize = 196_605;

// How many rows the words hold before their end or a zero head, or the first word that breaks its row.
fn count_rows(words: &[u32]) -> Result<usize, WordFault>
    requires whole { length words.now % 3 ≡ 0 }
    requires few { length words.now ≤ 196605 }
    ensures { RowsRead words.now result }
{
    // The rows are counted here by hand, since the words are taken apart while they are checked, and no word is read twice.
    let mut unread = words;
    let mut rows = 0;
    while let [head, t, s, rest @ ..] = unread
        && *head != 0
    {
        read_row(3 * rows as u64, BoundWords([*head, *t, *s]))?;
        rows += 1;
        unread = rest;
    }
    Ok(rows)
}

// How many rows a buffer holds before a zero head or its end, or before its 65,536th row; or fault 13: at the length, where that
// is no multiple of three, and else at the first word that breaks its row.
pub fn check(words: &[u32]) -> Result<usize, WordFault>
    ensures { Checked words.now result }
{
    if !words.len().is_multiple_of(3) {
        return Err(WordFault::Length {
            words: words.len() as u64,
        });
    }
    count_rows(&words[..words.len().min(WORDS)])
}

// Writes a bound, checks its words as a buffer of one row, and reads them back: always the bound itself, by the law.
pub fn round_trip(bound: Bound) -> Result<Bound, WordFault>
    ensures { MatchResult result (λ back. row_of back ≡ row_of bound) (λ _. ⊥) }
{
    let words = BoundWords::from(bound);
    check(&words.0)?;
    Bound::try_from(words)
}
