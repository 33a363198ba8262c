// The calls on a plan. What is refused is told with its number, and with its place where that is not 0.
ghost use Rattle.std.specs.Prelude.{IfOk, ◌≡◌, true, false, MatchResult};
ghost use Rattle.plans.specs.Answers.{read, mark, keep, back};
ghost use Rattle.plans.specs.States.{opened, depth, noted};
ghost use Rattle.plans.specs.Steps.{Step, Present};
ghost use Rattle.plans.specs.Runs.{RunsStand};

use crate::fault::PlanFault;
use crate::listed::unlist;
use crate::mark::Marks;
use crate::plan::Plan;
use crate::slip::Slip;
use books::Book;
use delays::Delay;
use relaxation::{ByLeft, Spreading};

impl<D: Delay, B: Book> Plan<D, B> {
    ghost use Rattle.plans.specs.Plans.{state_of, read_answer, mark_answer, close_answer, CutOrSame};

    /// A new plan over a book: unsettled, with no mark open. It never refuses. Whatever calls it then goes through, the law of all runs holds of
    /// them.
    pub fn open(book: B, points: usize, number: u32) -> Plan<D, B>
        ensures book { result.book ≡ book }
        ensures opened { state_of result ≡ opened (B.meaning book) points number }
        ensures law { RunsStand D.kind (state_of result) }
    {
        Plan {
            book,
            points,
            number,
            settled: false,
            times: [D::zero(); 128],
            index: ByLeft::new(),
            marks: Marks::new(),
            spreading: Spreading::new(),
        }
    }

    /// The book, as the plan leaves it.
    pub fn close(self) -> B
        ensures { result ≡ self.book }
    {
        let Plan {
            book,
            points: _,
            number: _,
            settled: _,
            times: _,
            index: _,
            marks: _,
            spreading: _,
        } = self;
        book
    }

    /// The book under the plan.
    pub fn book(&self) -> &B
        ensures { result.now ≡ self.now.book }
    {
        &self.book
    }

    /// Over how many points the plan is; a plan that is opened over too many, or none, refuses to settle.
    pub fn points(&self) -> usize
        ensures { result ≡ (state_of self.now).points }
    {
        self.points
    }

    /// The number that the plan was opened with, which its slips carry.
    pub fn number(&self) -> u32
        ensures { result ≡ (state_of self.now).number }
    {
        self.number
    }

    /// Whether settle found the earliest times.
    pub fn is_settled(&self) -> bool
        ensures { result ≡ (state_of self.now).settled }
    {
        self.settled
    }

    /// How many marks are open.
    pub fn depth(&self) -> usize
        ensures { result ≡ depth (state_of self.now) }
    {
        self.marks.depth()
    }

    // The check that is first in every call but settle.
    pub(crate) fn check_settled(&self) -> Result<(), PlanFault>
        ensures { MatchResult result (λ u. self.now.settled ≡ true) (λ e. (e ≡ PlanFault.Unsettled) × (self.now.settled ≡ false)) }
    {
        if self.settled {
            Ok(())
        } else {
            Err(PlanFault::Unsettled)
        }
    }

    /// The earliest time of a point. Refused where the plan is not settled (1), or the point is not below the number of points (5, place 1).
    pub fn read(&self, point: usize) -> Result<D, PlanFault>
        ensures { Step D.kind (state_of self.now) (read point) (read_answer D.means result) (state_of self.now) }
    {
        self.check_settled()?;
        if point >= self.points {
            return Err(PlanFault::Point { place: 1 });
        }
        Ok(self.times[point])
    }

    /// Opens a mark and hands out its slip. Refused where the plan is not settled (1), or eight marks are open (10).
    #[tactic(auto, using(crate::proofs::Sounds::sound_marked))]
    pub fn mark(&mut self) -> Result<Slip, PlanFault>
        ensures step { Step D.kind (state_of self.old) mark (mark_answer result) (state_of self.new) }
        ensures fresh { IfOk result (λ s. s.spent ≡ false) }
        ensures book { self.new.book ≡ self.old.book }
    {
        self.check_settled()?;
        if self.marks.depth() == 8 {
            return Err(PlanFault::MarksFull);
        }
        let added = self.book.added_count();
        self.marks.open(added, &self.times, self.points);
        Ok(Slip::new(self.number, self.marks.depth()))
    }

    // Takes the slip, also where it refuses: it is good where it has the plan's number and present depth, and a mark is open.
    fn check_slip(&self, mut slip: Slip) -> Result<(), PlanFault>
        ensures { MatchResult result
            (λ u. Present (state_of self.now) slip.number slip.depth)
            (λ e. (e ≡ PlanFault.WrongSlip) × (Present (state_of self.now) slip.number slip.depth → ⊥)) }
    {
        slip.spend();
        if slip.number() == self.number && slip.depth() == self.marks.depth() && slip.depth() > 0 {
            Ok(())
        } else {
            Err(PlanFault::WrongSlip)
        }
    }

    /// Closes the youngest mark, and keeps what was posted since. Refused where the plan is not settled (1), or the slip's number or depth is not
    /// the plan's present one (11). The slip is taken before either is told, since it must be handed on before any `?`.
    #[tactic(auto, using(crate::proofs::Sounds::sound_popped))]
    pub fn keep(&mut self, slip: Slip) -> Result<(), PlanFault>
        ensures step { Step D.kind (state_of self.old) (keep slip.number slip.depth) (close_answer result) (state_of self.new) }
        ensures book { self.new.book ≡ self.old.book }
    {
        let present = self.check_slip(slip);
        self.check_settled()?;
        present?;
        self.marks.close();
        Ok(())
    }

    /// Closes the youngest mark, and takes back what was posted since. Refused as keep is, which has the slip then too.
    #[tactic(auto, using(crate::proofs::Sounds::sound_popped, crate::proofs::Sounds::sound_restored))]
    pub fn back(&mut self, slip: Slip) -> Result<(), PlanFault>
        ensures step { Step D.kind (state_of self.old) (back slip.number slip.depth) (close_answer result) (state_of self.new) }
        ensures book { CutOrSame B.meaning B.cuts self.old.book (noted (state_of self.old) slip.depth) self.new.book result }
    {
        let present = self.check_slip(slip);
        self.check_settled()?;
        present?;
        let added = self.marks.added();
        unlist(&self.book, &mut self.index, added);
        self.book.cut(added);
        let points = self.points;
        let times = self.marks.times();
        self.times[..points].copy_from_slice(&times[..points]);
        self.marks.close();
        Ok(())
    }
}
