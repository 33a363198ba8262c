// The calls that look for earliest times: settle and post. What is refused is told with its number, and with its place where that is not 0.
ghost use Rattle.std.specs.Prelude.{◌≡◌, ◌++◌, ◌∷◌, [], MatchResult, length};
ghost use Rattle.bounds.specs.Making.{row_of};
ghost use Rattle.plans.specs.Answers.{settle, post};
ghost use Rattle.plans.specs.States.{rows};
ghost use Rattle.plans.specs.Steps.{Step};
ghost use Rattle.plans.specs.Runs.{Tries};

use crate::checks::{check_pair, first_misfit, moved, moved_from_zero};
use crate::fault::PlanFault;
use crate::listed::add;
use crate::plan::Plan;
use crate::posted::Posted;
use books::Book;
use bounds::{Bound, Row};
use delays::Delay;
use relaxation::{Fitting, Indexed, Outcome, Question};
use std::marker::PhantomData;

impl<D: Delay, B: Book> Plan<D, B> {
    ghost use Rattle.plans.specs.Plans.{state_of, settle_answer, post_answer, Refused, ChainOrSame, AddedOrSame};

    // The checks of settle before that for a conflict.
    fn check_settle(&self, length: usize) -> Result<(), PlanFault>
        ensures { MatchResult result
            (λ u. Tries D.kind (state_of self.now) (settle length) (rows (state_of self.now)))
            (Refused D.kind (state_of self.now) (settle length)) }
    {
        if self.settled {
            return Err(PlanFault::SettledAlready);
        }
        if self.points == 0 || self.points > 128 {
            return Err(PlanFault::Points);
        }
        if length < self.points {
            return Err(PlanFault::ListShort);
        }
        first_misfit::<D, B>(&self.book, self.points)
    }

    /// Settles the plan: finds the earliest times of its points, and answers how many of them are not zero. Refused where it is settled already
    /// (2); the number of points is not from 1 to 128 (3); the list is shorter than that (4); a point of a bound of the book is not below it (5),
    /// or the kind has no delay with the bound's parts (6), both with the bound's number as their place; or the bounds in force can't be met (8):
    /// then the list begins with the words of a chain, whose length is the place.
    pub fn settle(&mut self, list: &mut [u32]) -> Result<usize, PlanFault>
        ensures step { Step D.kind (state_of self.old) (settle (length list.old)) (settle_answer result) (state_of self.new) }
        ensures book { self.new.book ≡ self.old.book }
        ensures list { ChainOrSame D.kind self.old.points (rows (state_of self.old)) [] list.old list.new result }
    {
        self.check_settle(list.len())?;
        let points = self.points;
        let bounds = Fitting {
            book: &self.book,
            points,
            kind: PhantomData,
        };
        if let Err(length) = self.spreading.settle(&mut self.index, bounds) {
            list[..length].copy_from_slice(self.spreading.chain(length));
            return Err(PlanFault::Conflict { length });
        }
        let times = self.spreading.times();
        self.times[..points].copy_from_slice(&times[..points]);
        self.settled = true;
        Ok(moved_from_zero(&self.times, points))
    }

    // The checks of post before that for a cover, and the bound's delay.
    #[inline(always)]
    fn check_post(&self, row: Row, length: usize) -> Result<D, PlanFault>
        ensures { MatchResult result
            (λ d. Tries D.kind (state_of self.now) (post length row) (rows (state_of self.now) ++ row ∷ [])
            × (D.means d ≡ D.kind.value row.t row.s))
            (Refused D.kind (state_of self.now) (post length row)) }
    {
        self.check_settled()?;
        if usize::from(row.left) >= self.points {
            return Err(PlanFault::Point { place: 1 });
        }
        if usize::from(row.right) >= self.points {
            return Err(PlanFault::Point { place: 2 });
        }
        let delay = check_pair::<D>(row)?;
        if length < self.points {
            return Err(PlanFault::ListShort);
        }
        Ok(delay)
    }

    /// Posts a bound: it is covered, or added to the book, and then so many points have another earliest time than before. Refused where the plan
    /// is not settled (1); the left point is not below the number of points (5, place 1), or the right one (5, place 2); the kind has no delay
    /// with the parts (6); the list is shorter than the number of points (4); the bound can't be met with those in force (8): then the list begins
    /// with the words of a chain that begins with it, whose length is the place; or the book has no free place (9).
    pub fn post(&mut self, bound: Bound, list: &mut [u32]) -> Result<Posted, PlanFault>
        ensures step { Step D.kind (state_of self.old) (post (length list.old) (row_of bound)) (post_answer result) (state_of self.new) }
        ensures book { AddedOrSame B.meaning B.adds self.old.book (row_of bound) self.new.book result }
        ensures list { ChainOrSame D.kind self.old.points (rows (state_of self.old)) (row_of bound ∷ []) list.old list.new result }
    {
        let row = bound.row();
        let delay = self.check_post(row, list.len())?;
        let points = self.points;
        let bounds = Fitting {
            book: &self.book,
            points,
            kind: PhantomData,
        };
        let net = Indexed {
            bounds,
            index: &self.index,
        };
        let question = Question {
            net,
            times: &self.times,
            row,
            delay,
        };
        match self.spreading.post(&question) {
            Outcome::Met => {
                if question.is_covered() {
                    return Ok(Posted::Covered);
                }
                add(&mut self.book, &mut self.index, bound)?;
                Ok(Posted::Moved { count: 0 })
            }
            Outcome::Raised => {
                add(&mut self.book, &mut self.index, bound)?;
                let times = self.spreading.times();
                let count = moved(&self.times, times, points);
                self.times[..points].copy_from_slice(&times[..points]);
                Ok(Posted::Moved { count })
            }
            Outcome::Conflict { length } => {
                list[..length].copy_from_slice(self.spreading.chain(length));
                Err(PlanFault::Conflict { length })
            }
        }
    }
}
