// The lines of listings, whose fields are numbered from 1.
ghost use Rattle.std.specs.Prelude.{◌≡◌, ℕ, ◌+◌, ◌*◌, ◌≤◌, List, take};
ghost use Rattle.lines.specs.Fields.{fields};
ghost use Rattle.lines.specs.Reading.{HoldsJust, Told};

use crate::fault::LineFault;
use crate::fields::Fields;
use crate::number::FromField;

// The answer of `values`, which apart from this owes what follows from it.
fn all_values<T: FromField, const N: usize>(line: &[u8]) -> Result<[T; N], LineFault>
    ensures { HoldsJust T.reading N (fields line.now) result }
{
    Fields::new(line).last_values()
}

// The N values that are all the fields of a line; or fault 12, at the first field that is missing, bad or extra, from 1. Where N
// fields of a value's most bytes, each with the space after it, fit in 48 bytes, the first 48 bytes of the line decide them, since a
// longer field is refused.
pub fn values<T: FromField, const N: usize>(line: &[u8]) -> Result<[T; N], LineFault>
    ensures reads { HoldsJust T.reading N (fields line.now) result }
    ensures told { Told T.reading N (fields line.now) result }
    ensures front { (whole : List ℕ) → (T.longest + 1) * N ≤ 48 → line.now ≡ take 48 whole → HoldsJust T.reading N (fields whole) result }
{
    all_values(line)
}
