ghost use Rattle.std.specs.Prelude.{◌≡◌, true, false};

// A slip: what a mark hands out, to be handed to keep or back. It can't be copied, and it may be let go only once it is spent, which
// keep and back alone make it; so whoever has one must hand it on. It is judged by its plan number and its depth alone.
pub struct Slip {
    number: u32,
    depth: usize,
    // whether keep or back has had it
    spent: bool,
}

impl Drop for Slip {
    fn drop(self)
        requires { self.spent ≡ true }
    {
        let Slip {
            number: _,
            depth: _,
            spent: _,
        } = self;
    }
}

impl Slip {
    // A slip that is not spent.
    pub(crate) fn new(number: u32, depth: usize) -> Slip
        ensures number { result.number ≡ number }
        ensures depth { result.depth ≡ depth }
        ensures fresh { result.spent ≡ false }
    {
        Slip {
            number,
            depth,
            spent: false,
        }
    }

    // The number of the plan that handed it out.
    pub fn number(&self) -> u32
        ensures { result ≡ self.now.number }
    {
        self.number
    }

    // The depth of its mark.
    pub fn depth(&self) -> usize
        ensures { result ≡ self.now.depth }
    {
        self.depth
    }

    // Spends the slip, so that it may be let go.
    pub(crate) fn spend(&mut self)
        ensures number { self.new.number ≡ self.old.number }
        ensures depth { self.new.depth ≡ self.old.depth }
        ensures spent { self.new.spent ≡ true }
    {
        self.spent = true;
    }
}
