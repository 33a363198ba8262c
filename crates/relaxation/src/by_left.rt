// The index of bounds by their left points.
ghost use Rattle.std.specs.Prelude.{◌≡◌, ℕ, ◌<◌, ◌≤◌, ◌⊎◌, List, [], ◌∷◌, ◌++◌, length, slice_index, IfSome};
ghost use Rattle.relaxation.specs.ByLeft.{Lists, Newest, kept_of, unlisted};

/// Which bounds leave a point, newest first: the bounds of a book, by their numbers, one list of them for each left point below 128. It has
/// room for 65,535 bounds.
#[derive(Drop)]
pub struct ByLeft {
    newest: [u16; 128],
    older: [u16; 65_535],
}

// What stands in the index where no bound is left.
const NONE: u16 = 65_535;

// The number of a bound, as the index keeps it.
#[inline(always)]
fn number_of(kept: u16) -> Option<usize>
    ensures kept { kept_of result ≡ kept }
    ensures few { IfSome result (λ number. number < 65535) }
{
    if kept == NONE {
        None
    } else {
        Some(usize::from(kept))
    }
}

impl ByLeft {
    /// An index that lists no book yet: all zeros. A settle lists the bounds of its book in it.
    pub fn new() -> ByLeft
        ensures { result ≡ unlisted }
    {
        ByLeft {
            newest: [0; 128],
            older: [0; 65_535],
        }
    }

    // Forgets all bounds.
    #[inline(always)]
    pub(crate) fn clear(&mut self)
        ensures { Lists self.new [] }
    {
        self.newest = [NONE; 128];
    }

    /// Puts the next bound of the book, which has this number and leaves this point, before those that leave the same point. Where the
    /// number is not below 65,535 or the point not below 128, nothing changes.
    #[tactic(auto, using(crate::proofs::Listing::lists_push))]
    #[inline(always)]
    pub fn push(&mut self, number: usize, left: usize)
        ensures listed { (lefts : List ℕ) → Lists self.old lefts → length lefts ≡ number → number < 65535 → left < 128
            → Lists self.new (lefts ++ left ∷ []) }
        ensures outside { (65535 ≤ number) ⊎ (128 ≤ left) → self.new ≡ self.old }
    {
        if number < 65_535 && left < 128 {
            self.older[number] = self.newest[left];
            self.newest[left] = number as u16;
        }
    }

    /// Takes the last bound of the book off, which has this number and leaves this point. Where the number is not below 65,535 or the point
    /// not below 128, nothing changes.
    #[tactic(auto, using(crate::proofs::Listing::lists_pop))]
    #[inline(always)]
    pub fn pop(&mut self, number: usize, left: usize)
        ensures listed { (lefts : List ℕ) → Lists self.old (lefts ++ left ∷ []) → length lefts ≡ number → number < 65535 → left < 128
            → Lists self.new lefts }
        ensures outside { (65535 ≤ number) ⊎ (128 ≤ left) → self.new ≡ self.old }
    {
        if number < 65_535 && left < 128 {
            self.newest[left] = self.older[number];
        }
    }

    // The number of the newest bound that leaves the point.
    #[inline(always)]
    pub(crate) fn newest(&self, point: usize) -> Option<usize>
        requires { point < 128 }
        ensures listed { (lefts : List ℕ) → Lists self.now lefts → Newest lefts (length lefts) point (kept_of result) }
        ensures few { IfSome result (λ number. number < 65535) }
    {
        number_of(self.newest[point])
    }

    // The number of the newest bound before this one that leaves the same point.
    #[inline(always)]
    pub(crate) fn older(&self, number: usize) -> Option<usize>
        requires { number < 65535 }
        ensures listed { (lefts : List ℕ) → Lists self.now lefts → number < length lefts
            → Newest lefts number (slice_index lefts number) (kept_of result) }
        ensures few { IfSome result (λ number. number < 65535) }
    {
        number_of(self.older[number])
    }
}
