// The call from C: a static library with nothing else in it.
#![tactic(auto)]

ghost use Rattle.scripts.specs.Listings.{ListedInC};

// Writes the listing of the script at the start of the output, and answers its length; or -14, and nothing is written, where the script has more
// than 32,768 bytes or the output fewer than 64 bytes a line.
#[unsafe(no_mangle)]
pub extern "C" fn vatcowslip_list(script: &[u8], output: &mut [u8]) -> i64
    ensures { ListedInC script.now output.old output.new result }
{
    match scripts::list(script, output) {
        Ok(length) => length as i64,
        Err(_) => -14,
    }
}
