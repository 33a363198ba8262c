// The open marks of a plan.
ghost use Rattle.std.specs.Prelude.{◌≡◌, ℕ, ◌<◌, ◌≤◌, List, [], ◌∷◌, ◌++◌, length, slice_index_or};
ghost use Rattle.network.specs.Edges.{time_of_point};
ghost use Rattle.plans.specs.Marks.{Mark};

use delays::Delay;
use std::marker::Model;

// Up to eight open marks, the oldest first: what a back restores.
#[derive(Drop)]
pub(crate) struct Marks<D> {
    depth: usize,
    // how many added bounds the book had
    added: [usize; 8],
    // the earliest times of the points
    times: [[D; 128]; 8],
}

impl<D> Model for Marks<D> {
    ghost use Rattle.std.specs.Prelude.{List, ◌≤◌, ◌≡◌, length};
    ghost use Rattle.plans.specs.Marks.{Mark, marks_in};

    ghost Value = { List (Mark D) };

    ghost view = { λ m. marks_in m.depth m.added m.times };

    ghost invariant = { λ m. (m.depth ≤ 8) × (length m.times ≡ 8) };
}

impl<D: Delay> Marks<D> {
    // No open mark.
    pub(crate) fn new() -> Marks<D>
        ensures { result ≡ [] }
    {
        Marks {
            depth: 0,
            added: [0; 8],
            times: [[D::zero(); 128]; 8],
        }
    }

    // How many are open.
    #[inline(always)]
    pub(crate) fn depth(&self) -> usize
        ensures count { result ≡ length self.now }
        ensures few { result ≤ 8 }
    {
        self.depth
    }

    // Opens a mark, which notes the count, and the times of so many points.
    #[inline(always)]
    pub(crate) fn open(&mut self, added: usize, times: &[D; 128], points: usize)
        requires room { length self.old < 8 }
        requires points { points ≤ 128 }
        ensures { (noted : List D) × (self.new ≡ self.old ++ record { added = added; times = noted } ∷ [])
            × ((p : ℕ) → p < points → time_of_point D.kind D.means noted p ≡ time_of_point D.kind D.means times.now p) }
    {
        let depth = self.depth;
        self.added[depth] = added;
        let noted = &mut self.times[depth];
        noted[..points].copy_from_slice(&times[..points]);
        self.depth = depth + 1;
    }

    // The count that the youngest noted.
    #[inline(always)]
    pub(crate) fn added(&self) -> usize
        requires { 0 < length self.now }
        ensures { (before : List (Mark D)) (m : Mark D) → self.now ≡ before ++ m ∷ [] → result ≡ m.added }
    {
        self.added[self.depth - 1]
    }

    // The times that the youngest noted.
    #[inline(always)]
    pub(crate) fn times(&self) -> &[D; 128]
        requires { 0 < length self.now }
        ensures { (before : List (Mark D)) (m : Mark D) → self.now ≡ before ++ m ∷ [] → result.now ≡ m.times }
    {
        &self.times[self.depth - 1]
    }

    // Closes the youngest.
    #[inline(always)]
    pub(crate) fn close(&mut self)
        requires { 0 < length self.old }
        ensures { (m : Mark D) × (self.old ≡ self.new ++ m ∷ []) }
    {
        self.depth -= 1;
    }
}
