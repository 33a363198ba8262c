// A line as fields, which are the parts between single spaces.
ghost use Rattle.std.specs.Prelude.{◌≡◌, ◌<◌, ◌^◌, Some, length};

use crate::fault::LineFault;
use crate::number::FromField;

// The fields of a line that are left to read.
#[derive(Drop)]
pub struct Fields<'a> {
    // What is left of the line. After a last space an empty field is left, so nothing and an empty rest differ.
    rest: Option<&'a [u8]>,
    // No slice is longer, so the place of a field fits in 64 bits.
    ghost short: { (line : _) → rest ≡ Some line → length line.now < 2 ^ 63 },
}

impl<'a> Iterator for Fields<'a> {
    ghost use Rattle.std.specs.Iterator.{YieldsFirstRef, item_count};
    ghost use Rattle.lines.specs.Fields.{left_of};

    type Item = &'a [u8];

    ghost next_gives = { YieldsFirstRef left_of };

    ghost remaining = { item_count left_of };

    fn next(&mut self) -> Option<&'a [u8]> {
        let mut parts = self.rest?.splitn(2, |b| *b == b' ');
        let field = parts.next();
        self.rest = parts.next();
        field
    }
}

impl<'a> Fields<'a> {
    ghost use Rattle.lines.specs.Fields.{fields, left_of};
    ghost use Rattle.lines.specs.Reading.{Taken, Ended, HoldsJust, TakenUpto};

    // All the fields of a line.
    pub fn new(line: &'a [u8]) -> Fields<'a>
        ensures { left_of result ≡ fields line.now }
    {
        Fields { rest: Some(line) }
    }

    // The value in the next field, which stands at `place`; or fault 12 at that place, where the field is missing or has no such value.
    pub fn value<T: FromField>(&mut self, place: u64) -> Result<T, LineFault>
        ensures { Taken T.reading place (left_of self.old) result (left_of self.new) }
    {
        let fault = LineFault::Unreadable { field: place };
        T::from_field(self.next().ok_or(fault)?).ok_or(fault)
    }

    // Nothing, where no field is left; or fault 12 at `place`, where one stands there, which is then taken.
    pub fn end(&mut self, place: u64) -> Result<(), LineFault>
        ensures { Ended place (left_of self.old) result (left_of self.new) }
    {
        match self.next() {
            Some(_) => Err(LineFault::Unreadable { field: place }),
            None => Ok(()),
        }
    }

    // The N values that are in all the fields left, the first at place 1; or fault 12, at the first field that is missing, bad or extra.
    // The fields up to that one are taken.
    pub fn last_values<T: FromField, const N: usize>(&mut self) -> Result<[T; N], LineFault>
        ensures reads { HoldsJust T.reading N (left_of self.old) result }
        ensures takes { TakenUpto (left_of self.old) result (left_of self.new) }
    {
        // Not an `ArrayVec<T, N>`: that its size fits could be said only by a `requires`.
        let mut values = [T::default(); N];
        for (before, value) in values.iter_mut().enumerate() {
            *value = self.value(before as u64 + 1)?;
        }
        self.end(N as u64 + 1)?;
        Ok(values)
    }
}
