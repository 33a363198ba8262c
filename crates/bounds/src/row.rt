ghost use Rattle.std.specs.Prelude.{Some};
ghost use Rattle.bounds.specs.Text.{row_text};

use std::fmt;

// The four numbers of a bound as tables keep them. A row has no range of its own: a bound is made from it on reading.
#[derive(Clone, Copy, PartialEq, Eq, Default, Debug)]
pub struct Row {
    pub left: u16,
    pub right: u16,
    pub t: i32,
    pub s: i32,
}

// A row as a listing has it: `left right t s`.
impl fmt::Display for Row {
    ghost output = { λ r. Some (row_text r) };

    fn fmt<W: fmt::Write>(&self, f: &mut fmt::Formatter<W>) -> fmt::Result {
        let Row { left, right, t, s } = *self;
        write!(f, "{left} {right} {t} {s}")
    }
}
