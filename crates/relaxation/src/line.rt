// The line of points that wait to be taken up.
ghost use Rattle.std.specs.Prelude.{◌≡◌, ◌+◌, ◌<◌, ◌≤◌, [], ◌∷◌, length, IfSome, IfNone, Contains};
ghost use Rattle.relaxation.specs.Line.{Queue, Joined};

use std::marker::Model;

// Points below 128, first in, first out, each at most once. The queue is a ring: the places from `head` on, before `tail`, are taken, each
// modulo 128.
#[derive(Drop)]
pub(crate) struct Line {
    queue: [u8; 128],
    waits: [bool; 128],
    head: usize,
    tail: usize,
}

impl Model for Line {
    ghost use Rattle.std.specs.Prelude.{ℕ, List, ◌-◌, ◌%◌, ◌≤◌};
    ghost use Rattle.relaxation.specs.Line.{Queue, Kept, places_from};

    ghost Value = { Queue };

    ghost view = { λ l. record { waiting = places_from l.queue (l.head % 128) (l.tail - l.head); taken = l.head } };

    ghost invariant = { λ l. (l.head ≤ l.tail) × Kept l.queue l.waits (l.head % 128) (l.tail - l.head) };
}

impl Line {
    // A line in which no point waits.
    pub(crate) fn new() -> Line
        ensures { result ≡ record { waiting = []; taken = 0 } }
    {
        Line {
            queue: [0; 128],
            waits: [false; 128],
            head: 0,
            tail: 0,
        }
    }

    // Puts the point at the end, unless it waits already.
    #[inline(always)]
    pub(crate) fn push(&mut self, point: usize)
        requires inside { point < 128 }
        requires turns { self.old.taken ≤ 65536 }
        ensures joined { Joined self.old.waiting point self.new.waiting }
        ensures taken { self.new.taken ≡ self.old.taken }
    {
        if !self.waits[point] {
            self.waits[point] = true;
            self.queue[self.tail % 128] = point as u8;
            self.tail += 1;
        }
    }

    // Takes the oldest point off.
    #[inline(always)]
    pub(crate) fn pop(&mut self) -> Option<usize>
        requires turns { self.old.taken ≤ 65536 }
        ensures few { length self.old.waiting ≤ 128 }
        ensures oldest { IfSome result (λ point. self.old.waiting ≡ point ∷ self.new.waiting) }
        ensures inside { IfSome result (λ point. point < 128) }
        ensures gone { IfSome result (λ point. Contains self.new.waiting point → ⊥) }
        ensures taken { IfSome result (λ point. self.new.taken ≡ self.old.taken + 1) }
        ensures none { IfNone result ((self.old.waiting ≡ []) × (self.new ≡ self.old)) }
    {
        if self.head == self.tail {
            return None;
        }
        let point = usize::from(self.queue[self.head % 128]);
        self.waits[point] = false;
        self.head += 1;
        Some(point)
    }

    // Takes all points off.
    pub(crate) fn clear(&mut self)
        ensures { self.new ≡ record { waiting = []; taken = 0 } }
    {
        for place in self.head..self.tail {
            self.waits[usize::from(self.queue[place % 128])] = false;
        }
        self.head = 0;
        self.tail = 0;
    }
}
