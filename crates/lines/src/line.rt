// A line that comes byte by byte, of which the first 48 bytes are kept: they decide what a line of a listing holds.
ghost use Rattle.std.specs.Prelude.{◌≡◌, ℕ, List, [], ◌∷◌, ◌++◌, length, take, ◌==◌};
ghost use Rattle.lines.specs.Kept.{kept};

use arrayvec::ArrayVec;

const KEPT_BYTES: usize = 48;

#[derive(Default, Drop)]
pub struct Line {
    bytes: ArrayVec<u8, KEPT_BYTES>,
}

impl Line {
    // A line of which no byte has come.
    pub fn new() -> Line
        ensures { kept result ≡ [] }
    {
        Line::default()
    }

    // One byte more, which is kept where there is room: what is kept goes on to be the front of the line that has come.
    pub fn push(&mut self, b: u8)
        ensures adds { kept self.new ≡ take 48 (kept self.old ++ (b ∷ [])) }
        ensures front { (whole : List ℕ) → kept self.old ≡ take 48 whole → kept self.new ≡ take 48 (whole ++ (b ∷ [])) }
    {
        if !self.bytes.is_full() {
            self.bytes.push(b);
        }
    }

    // The next line, of which no byte has come. A new vector is 48 bytes at once, where `clear` of the old one goes through those that it holds.
    pub fn clear(&mut self)
        ensures { kept self.new ≡ [] }
    {
        self.bytes = ArrayVec::new();
    }

    // Whether no byte is kept, so that none has come.
    pub fn is_empty(&self) -> bool
        ensures { result ≡ (length (kept self.now) == 0) }
    {
        self.bytes.is_empty()
    }

    // The bytes that are kept.
    pub fn bytes(&self) -> &[u8]
        ensures { result.now ≡ kept self.now }
    {
        self.bytes.as_slice()
    }
}
