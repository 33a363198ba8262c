// The chain behind a root that would rise.
ghost use Rattle.std.specs.Prelude.{ℕ, ◌+◌, ◌<◌, ◌≤◌};
ghost use Rattle.books.specs.Meaning.{bounds_of};
ghost use Rattle.network.specs.Edges.{time_of_point};
ghost use Rattle.relaxation.specs.Workings.{Stopped, posted_rows};
ghost use Rattle.relaxation.specs.Founds.{ChainFound, StepBack, WayBack, WentBack};

use crate::indexed::Indexed;
use crate::spreading::Spreading;
use crate::star::Star;
use books::Book;
use delays::Delay;

impl<D: Delay> Spreading<D> {
    // The word of the bound over which the point rose, where it is not the posted one, and its left point. A number that the book has not
    // is noted where a floor raised the point.
    #[inline(always)]
    fn step_back<B: Book>(&self, net: &Indexed<'_, D, B>, point: usize) -> (u32, usize)
        requires { point < 128 }
        ensures { StepBack D.kind (bounds_of (B.meaning net.now.bounds.book.now)) self.now.over point result.0 result.1 }
    {
        let number = self.over[point];
        match net.bounds.book.read(usize::from(number)) {
            Some(bound) => (
                0x4000_0000 + u32::from(number),
                usize::from(bound.row().left),
            ),
            None => (0x8000_0000 + point as u32, 0),
        }
    }

    // Goes back from the point to the end, over the bounds that raised each point, and writes their words before those that are written,
    // which stand at the end of the places. Answers how many are written then.
    fn go_back<B: Book>(
        &mut self,
        net: &Indexed<'_, D, B>,
        from: usize,
        end: usize,
        written: usize,
    ) -> usize
        requires { (steps : ℕ) × (written + steps ≤ 128) × WayBack D.kind (bounds_of (B.meaning net.now.bounds.book.now)) self.old.over end steps from }
        ensures { WentBack D.kind (bounds_of (B.meaning net.now.bounds.book.now)) self.old.over end from written self.old.chain self.new.chain result }
    {
        let mut point = from;
        let mut length = written;
        while point != end {
            let (word, left) = self.step_back(net, point);
            self.chain[127 - length] = word;
            point = left;
            length += 1;
        }
        length
    }

    // Writes the words of the chain through the root, which would rise, at the end of the places, and answers its length. The way back
    // from the root comes round to it; where a bound is posted, that bound is the last on the way, and so the first of the chain.
    pub(crate) fn write_chain<B: Book>(&mut self, net: &Indexed<'_, D, B>, star: &Star) -> usize
        requires { Stopped D.kind net.now.bounds.points (bounds_of (B.meaning net.now.bounds.book.now)) star.now
            (time_of_point D.kind D.means self.old.times) self.old.over }
        ensures { ChainFound D.kind net.now.bounds.points (bounds_of (B.meaning net.now.bounds.book.now)) (posted_rows star.now.posted)
            self.new.chain result }
    {
        match star.posted {
            Some(row) => {
                let length = self.go_back(net, star.root, usize::from(row.right), 0);
                self.chain[127 - length] = 0xC000_0000;
                length + 1
            }
            None => {
                let (word, left) = self.step_back(net, star.root);
                self.chain[127] = word;
                self.go_back(net, left, star.root, 1)
            }
        }
    }
}
