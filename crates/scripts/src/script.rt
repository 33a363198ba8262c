// How many lines a script has.
ghost use Rattle.std.specs.Prelude.{◌≡◌, ◌≤◌, ◌==◌, length, count_by};
ghost use Rattle.scripts.specs.Lines.{script_lines};

// How many bytes are looked at together: so few that their line feeds can be counted in a byte.
const BLOCK_BYTES: usize = 128;

// How many line feeds are in so few bytes.
#[inline(always)]
fn feeds(block: &[u8]) -> u8
    requires { length block.now ≤ 128 }
    ensures { result ≡ count_by (λ b. b == 10) block.now }
{
    let mut count = 0;
    for b in block {
        if *b == b'\n' {
            count += 1;
        }
    }
    count
}

// How many line feeds a script has.
fn feed_count(script: &[u8]) -> usize
    ensures { result ≡ count_by (λ b. b == 10) script.now }
{
    let mut count = 0;
    let mut left = script;
    'parts: while left.len() > BLOCK_BYTES {
        let (block, rest) = left.split_at(BLOCK_BYTES);
        count += usize::from(feeds(block));
        left = rest;
    }
    count + usize::from(feeds(left))
}

// How many lines a script has: a line for each line feed, and one more where something stands after the last.
pub(crate) fn line_count(script: &[u8]) -> usize
    ensures { result ≡ length (script_lines script.now) }
{
    if script.is_empty() {
        return 0;
    }
    let count = feed_count(script);
    if script[script.len() - 1] == b'\n' {
        count
    } else {
        count + 1
    }
}
