// What the program `vatcowslip` prints.
ghost use Rattle.std.specs.Prelude.{◌≡◌, ◌≤◌, ℕ, List, take, drop};
ghost use Rattle.scripts.specs.Prints.{Printed};

use crate::listing::list;

// One byte more than a script may have, so that a longer one is seen to be so.
pub const INPUT_BYTES: u64 = 32_769;

// 64 bytes for each of 1,024 lines.
pub const OUTPUT_BYTES: usize = 65_536;

// Writes at the start of the output what the program prints of a text, answers its length, and leaves the rest of the output as it was. It is
// given the first 32,769 bytes of the text or more, or all where it has fewer. It prints the listing; or, where the text has more than 32,768
// bytes or 1,024 lines, the one line of fault 14.
pub fn print_into(input: &[u8], output: &mut [u8; OUTPUT_BYTES]) -> usize
    ensures printed { (text : List ℕ) → take INPUT_BYTES input.now ≡ take INPUT_BYTES text → Printed text (take result output.new) }
    ensures rest { drop result output.new ≡ drop result output.old }
    ensures fits { result ≤ 65536 }
{
    match list(input, output) {
        Ok(length) => length,
        Err(_) => {
            output[..9].copy_from_slice(b"E 14 L 0\n");
            9
        }
    }
}
