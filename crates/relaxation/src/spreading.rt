// How times spread from one point.
ghost use Rattle.std.specs.Prelude.{◌≡◌, ◌+◌, ◌-◌, ◌<◌, ◌≤◌, [], ◌∷◌, MatchBool, drop};
ghost use Rattle.books.specs.Meaning.{bounds_of};
ghost use Rattle.network.specs.Edges.{time_of_point};
ghost use Rattle.relaxation.specs.Workings.{Working, Stopped, RowsTaken, FloorsTaken, Taken, Relaxed, Ready, Ended};

use crate::indexed::{Indexed, delay_of};
use crate::line::Line;
use crate::star::Star;
use books::Book;
use delays::Delay;

// What is noted where a floor raised a point: no bound of a book has this number.
const FLOOR: u16 = 65_535;

/// What a spreading works on: the times of the points, and for each that rose the number of the bound over which it did last.
#[derive(Drop)]
pub struct Spreading<D> {
    pub(crate) times: [D; 128],
    pub(crate) over: [u16; 128],
    pub(crate) line: Line,
    // the words of the chain that was found last, at its end
    pub(crate) chain: [u32; 128],
}

impl<D: Delay> Spreading<D> {
    // A bound with the number asks of its right point `from` and a change more. Answers whether the root would rise.
    #[inline(always)]
    pub(crate) fn relax(
        &mut self,
        star: &Star,
        right: usize,
        from: D,
        change: D,
        number: u16,
    ) -> bool
        requires inside { right < 128 }
        requires near { D.kind.size (D.kind.sum (D.means from) (D.means change)) ≤ D.kind.reach }
        requires turns { self.old.line.taken ≤ 65536 }
        ensures asked { Relaxed D.kind star.now right (D.kind.sum (D.means from) (D.means change)) number
            (time_of_point D.kind D.means self.old.times) (time_of_point D.kind D.means self.new.times) self.old.over self.new.over
            self.old.line.waiting self.new.line.waiting result }
        ensures turns { self.new.line.taken ≡ self.old.line.taken }
    {
        if !from.sum_exceeds(change, self.times[right]) {
            return false;
        }
        self.over[right] = number;
        if right == star.root {
            return true;
        }
        self.times[right] = from.add(change).unwrap();
        if right < star.limit {
            self.line.push(right);
        }
        false
    }

    // The bounds of the book that leave the point, newest first. Answers whether the root would rise.
    #[inline(always)]
    fn take_rows<B: Book>(&mut self, net: &Indexed<'_, D, B>, star: &Star, point: usize) -> bool
        requires working { Working D.kind net.now.bounds.points (bounds_of (B.meaning net.now.bounds.book.now)) star.now
            (time_of_point D.kind D.means self.old.times) self.old.over (point ∷ self.old.line.waiting) }
        requires turns { self.old.line.taken ≤ 65536 }
        ensures taken { MatchBool result
            (Stopped D.kind net.now.bounds.points (bounds_of (B.meaning net.now.bounds.book.now)) star.now
            (time_of_point D.kind D.means self.new.times) self.new.over)
            (RowsTaken D.kind net.now.bounds.points (bounds_of (B.meaning net.now.bounds.book.now)) star.now point
            (time_of_point D.kind D.means self.old.times) (time_of_point D.kind D.means self.new.times) self.new.over
            self.old.line.waiting self.new.line.waiting) }
        ensures turns { self.new.line.taken ≡ self.old.line.taken }
    {
        let from = self.times[point];
        let mut at = net.index.newest(point);
        while let Some(number) = at {
            let row = net.bounds.row(number);
            let change = delay_of::<D>(row).opposite();
            if self.relax(star, usize::from(row.right), from, change, number as u16) {
                return true;
            }
            at = net.index.older(number);
        }
        false
    }

    // The floors, which leave point 0. Answers whether the root would rise.
    #[inline(never)]
    fn take_floors<B: Book>(&mut self, net: &Indexed<'_, D, B>, star: &Star) -> bool
        requires working { Working D.kind net.now.bounds.points (bounds_of (B.meaning net.now.bounds.book.now)) star.now
            (time_of_point D.kind D.means self.old.times) self.old.over (0 ∷ self.old.line.waiting) }
        requires turns { self.old.line.taken ≤ 65536 }
        ensures taken { MatchBool result
            (Stopped D.kind net.now.bounds.points (bounds_of (B.meaning net.now.bounds.book.now)) star.now
            (time_of_point D.kind D.means self.new.times) self.new.over)
            (FloorsTaken D.kind net.now.bounds.points (bounds_of (B.meaning net.now.bounds.book.now)) star.now
            (time_of_point D.kind D.means self.old.times) (time_of_point D.kind D.means self.new.times) self.new.over
            self.old.line.waiting self.new.line.waiting) }
        ensures turns { self.new.line.taken ≡ self.old.line.taken }
    {
        let from = self.times[0];
        for right in 0..net.bounds.points {
            if self.relax(star, right, from, D::zero(), FLOOR) {
                return true;
            }
        }
        false
    }

    // The point is taken up: the bounds that leave it raise their right points. Answers whether the root would rise.
    #[inline(always)]
    fn take_up<B: Book>(&mut self, net: &Indexed<'_, D, B>, star: &Star, point: usize) -> bool
        requires working { Working D.kind net.now.bounds.points (bounds_of (B.meaning net.now.bounds.book.now)) star.now
            (time_of_point D.kind D.means self.old.times) self.old.over (point ∷ self.old.line.waiting) }
        requires turns { self.old.line.taken ≤ 65536 }
        ensures taken { MatchBool result
            (Stopped D.kind net.now.bounds.points (bounds_of (B.meaning net.now.bounds.book.now)) star.now
            (time_of_point D.kind D.means self.new.times) self.new.over)
            (Taken D.kind net.now.bounds.points (bounds_of (B.meaning net.now.bounds.book.now)) star.now point
            (time_of_point D.kind D.means self.old.times) (time_of_point D.kind D.means self.new.times) self.new.over
            self.old.line.waiting self.new.line.waiting) }
        ensures turns { self.new.line.taken ≡ self.old.line.taken }
    {
        self.take_rows(net, star, point) || (point == 0 && self.take_floors(net, star))
    }

    // Takes up the points that wait, in the order of their coming, until none does. Answers whether the root would rise, and then stops.
    // Every time is that of a path, and after as many passes over the waiting points as there are points no path asks more.
    pub(crate) fn spread<B: Book>(&mut self, net: &Indexed<'_, D, B>, star: &Star) -> bool
        requires ready { Ready D.kind net.now.bounds.points (bounds_of (B.meaning net.now.bounds.book.now)) star.now
            (time_of_point D.kind D.means self.old.times) self.old.over self.old.line.waiting }
        requires turns { self.old.line.taken ≡ 0 }
        ensures { MatchBool result
            (Stopped D.kind net.now.bounds.points (bounds_of (B.meaning net.now.bounds.book.now)) star.now
            (time_of_point D.kind D.means self.new.times) self.new.over)
            (Ended D.kind net.now.bounds.points (bounds_of (B.meaning net.now.bounds.book.now)) star.now
            (time_of_point D.kind D.means self.new.times) self.new.over) }
    {
        while let Some(point) = self.line.pop() {
            if self.take_up(net, star, point) {
                return true;
            }
        }
        false
    }
}
