// The two top bits of a bound's words, and the points and parts below them.
ghost use Rattle.std.specs.Prelude.{◌≡◌, ◌≤◌, MatchOption};
ghost use Rattle.bounds.specs.Range.{Part};
ghost use Rattle.words.specs.Reading.{IsHead, IsPart};
ghost use Rattle.words.specs.Tags.{bits_of};
ghost use Rattle.words.specs.Words.{head_word, part_word};

// The unit of the two top bits, which is also one past the greatest number below them.
pub(crate) const TOP: u32 = 0x4000_0000;
// The unit of the left point in a head, which is also one past the greatest point.
pub(crate) const LEFT: u32 = 0x1000;

const GREATEST_PART: i32 = 500_000_000;

// The words of a bound, each with its two top bits.
#[derive(Clone, Copy)]
pub(crate) enum Tag {
    Head = 1,
    T = 2,
    S = 3,
}

impl Tag {
    // The part in a word under this tag, or nothing where no bound has this word. The shift to the right carries the sign.
    pub(crate) fn part(self, word: u32) -> Option<i32>
        ensures { MatchOption result (¬ IsPart (bits_of self) word) (λ z. Part z × (word ≡ part_word (bits_of self) z)) }
    {
        let z = (word << 2).cast_signed() >> 2;
        (word / TOP == self as u32 && -GREATEST_PART <= z && z <= GREATEST_PART).then_some(z)
    }
}

// The left and the right point of a head, or nothing where no bound has this head.
pub(crate) fn points(head: u32) -> Option<(u16, u16)>
    ensures { MatchOption result (¬ IsHead head) (λ p. (p.0 ≤ 4095) × (p.1 ≤ 4095) × (head ≡ head_word p.0 p.1)) }
{
    let left = (head / LEFT % LEFT) as u16;
    let right = (head % LEFT) as u16;
    (head / TOP == Tag::Head as u32 && head % TOP < LEFT * LEFT).then_some((left, right))
}
