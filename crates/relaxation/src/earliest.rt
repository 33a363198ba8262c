// Earliest times: those of a book, and those with a bound more.
ghost use Rattle.std.specs.Prelude.{◌≡◌, ℕ, ◌+◌, ◌<◌, [], MatchResult, map};
ghost use Rattle.books.specs.Meaning.{bounds_of};
ghost use Rattle.network.specs.Edges.{time_of_point};
ghost use Rattle.relaxation.specs.ByLeft.{Lists};
ghost use Rattle.relaxation.specs.Rows.{Times};
ghost use Rattle.relaxation.specs.Stars.{below};
ghost use Rattle.relaxation.specs.Founds.{ChainFound, last_words};
ghost use Rattle.relaxation.specs.Outcomes.{OutcomeOf};

use crate::by_left::ByLeft;
use crate::indexed::{Fitting, Indexed};
use crate::line::Line;
use crate::outcome::Outcome;
use crate::question::Question;
use crate::spreading::Spreading;
use crate::star::Star;
use books::Book;
use delays::Delay;

impl<D: Delay> Spreading<D> {
    /// A place for spreadings to work on, with all points at zero.
    pub fn new() -> Spreading<D>
        ensures { (p : ℕ) → time_of_point D.kind D.means result.times p ≡ D.kind.zero }
    {
        Spreading {
            times: [D::zero(); 128],
            over: [0; 128],
            line: Line::new(),
            chain: [0; 128],
        }
    }

    /// The times that the last call left.
    #[inline(always)]
    pub fn times(&self) -> &[D; 128]
        ensures { result.now ≡ self.now.times }
    {
        &self.times
    }

    /// The last `length` of the places that words of chains are written into, at most 128.
    pub fn chain(&self, length: usize) -> &[u32]
        ensures { result.now ≡ last_words self.now.chain length }
    {
        &self.chain[128_usize.saturating_sub(length)..]
    }

    // Lists the bounds of the book.
    fn list<B: Book>(index: &mut ByLeft, bounds: &Fitting<'_, D, B>)
        ensures { Lists index.new (map (λ r. r.left) (bounds_of (B.meaning bounds.now.book.now))) }
    {
        index.clear();
        for number in 0..bounds.book.count() {
            index.push(number, usize::from(bounds.row(number).left));
        }
    }

    // Lets the bounds that leave the point raise times, where those that leave the points before it are met.
    fn settle_star<B: Book>(&mut self, net: &Indexed<'_, D, B>, root: usize) -> Result<(), usize>
        requires inside { root < net.now.bounds.points }
        requires times { Times D.kind net.now.bounds.points (below root (bounds_of (B.meaning net.now.bounds.book.now)))
            (time_of_point D.kind D.means self.old.times) }
        ensures { MatchResult result
            (λ _. Times D.kind net.now.bounds.points (below (root + 1) (bounds_of (B.meaning net.now.bounds.book.now)))
            (time_of_point D.kind D.means self.new.times))
            (ChainFound D.kind net.now.bounds.points (bounds_of (B.meaning net.now.bounds.book.now)) [] self.new.chain) }
    {
        let star = Star {
            root,
            limit: root + 1,
            posted: None,
        };
        self.line.clear();
        self.line.push(root);
        if self.spread(net, &star) {
            return Err(self.write_chain(net, &star));
        }
        Ok(())
    }

    /// Finds the earliest times of the book's bounds, and lists them in the index; or the bounds in force hold a chain: then its length is
    /// the error, and `chain` has the words of its bounds. The times are found point by point: those that meet the bounds of the points
    /// before it are spread from each point over the bounds that leave it (label correcting, after Ford 1956 and Bellman 1958).
    pub fn settle<B: Book>(
        &mut self,
        index: &mut ByLeft,
        bounds: Fitting<'_, D, B>,
    ) -> Result<(), usize>
        ensures { MatchResult result
            (λ _. Times D.kind bounds.entry.points (bounds_of (B.meaning bounds.entry.book.now)) (time_of_point D.kind D.means self.new.times)
            × Lists index.new (map (λ r. r.left) (bounds_of (B.meaning bounds.entry.book.now))))
            (ChainFound D.kind bounds.entry.points (bounds_of (B.meaning bounds.entry.book.now)) [] self.new.chain) }
    {
        Spreading::list(index, &bounds);
        let net = Indexed { bounds, index };
        for time in self.times.iter_mut() {
            *time = D::zero();
        }
        for root in 0..net.bounds.points {
            self.settle_star(&net, root)?;
        }
        Ok(())
    }

    /// What becomes of the earliest times when a bound is posted: they stay, or rise to the new ones, which are then here; or the bounds
    /// in force hold a chain with it: then `chain` has the words of its bounds, the posted one first. Times spread only from the posted
    /// bound, and there is a chain exactly where its left point would rise (incremental propagation, after Cesta and Oddi 1996).
    pub fn post<B: Book>(&mut self, question: &Question<'_, D, B>) -> Outcome
        ensures { OutcomeOf D.kind question.now.net.bounds.points (bounds_of (B.meaning question.now.net.bounds.book.now)) question.now.row
            (time_of_point D.kind D.means question.now.times.now) (time_of_point D.kind D.means self.new.times) self.new.chain result }
    {
        let left = usize::from(question.row.left);
        let right = usize::from(question.row.right);
        let times = question.times;
        let from = times[left];
        let change = question.delay.opposite();
        if !from.sum_exceeds(change, times[right]) {
            return Outcome::Met;
        }
        let points = question.net.bounds.points;
        self.times[..points].copy_from_slice(&times[..points]);
        let star = Star {
            root: left,
            limit: points,
            posted: Some(question.row),
        };
        self.line.clear();
        if self.relax(&star, right, from, change, 0) || self.spread(&question.net, &star) {
            return Outcome::Conflict {
                length: self.write_chain(&question.net, &star),
            };
        }
        Outcome::Raised
    }
}
