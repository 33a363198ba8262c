// The bounds of a chain as they are named to a caller, and their words.
ghost use Rattle.std.specs.Prelude.{◌≡◌, Some, ◌+◌, ◌*◌, ◌^◌, ◌<◌, ◌≤◌, ◌↔◌, IfOk, IsOk};
ghost use Rattle.network.specs.Edges.{LinkRead};
ghost use Rattle.network.specs.Links.{WordOf, LinkOf, OneWord, OneLink};
ghost use Rattle.network.specs.Reasons.{no_word_reason, no_link_reason};

use crate::edge::{Edge, floor};
use delays::quantity::Quantity;
use std::error::Error;
use std::fmt;

// A bound of a chain.
#[derive(Clone, Copy, PartialEq, Eq, Debug)]
pub enum Link {
    // the bound of the book with this number
    Book { number: u32 },
    // the floor of this point
    Floor { point: u32 },
    // the bound that was posted
    Posted,
}

// The refusal of a link that has no word: its number is 2^30 or more. It is the answer of a conversion, so it has no fault number.
#[derive(Clone, Copy, PartialEq, Eq, Debug)]
pub struct NoWord;

// The refusal of a word that no link has. It has no fault number either.
#[derive(Clone, Copy, PartialEq, Eq, Debug)]
pub struct NoLink;

impl fmt::Display for NoWord {
    ghost output = { λ _. Some no_word_reason };

    fn fmt<W: fmt::Write>(&self, f: &mut fmt::Formatter<W>) -> fmt::Result {
        write!(f, "the number of the link is 2^30 or more")
    }
}

impl Error for NoWord {}

impl fmt::Display for NoLink {
    ghost output = { λ _. Some no_link_reason };

    fn fmt<W: fmt::Write>(&self, f: &mut fmt::Formatter<W>) -> fmt::Result {
        write!(f, "no link has this word")
    }
}

impl Error for NoLink {}

// The unit of the two top bits of a word, which is also one past the greatest number below them.
const UNIT: u32 = 0x4000_0000;

// The top bits of each sort of link. Constants and not an enum, since a match on a word can name them in its patterns.
const BOOK: u32 = UNIT;

const FLOOR: u32 = 2 * UNIT;

const POSTED: u32 = 3 * UNIT;

// The word with these top bits, and the number below them where it has room there.
fn tagged(top: u32, low: u32) -> Result<u32, NoWord>
    requires { top ≤ 3 * 2 ^ 30 }
    ensures value { IfOk result (λ w. w ≡ top + low) }
    ensures room { IsOk result ↔ (low < 2 ^ 30) }
{
    if low < UNIT {
        Ok(top + low)
    } else {
        Err(NoWord)
    }
}

// The word of a link, or a refusal exactly when its number is 2^30 or more. A link has one word at most, and a word one link.
impl TryFrom<Link> for u32 {
    type Error = NoWord;

    ghost try_from_gives = { WordOf };

    fn try_from(link: Link) -> Result<u32, NoWord>
        ensures value { WordOf link result }
        ensures one_word { OneWord }
        ensures one_link { OneLink }
    {
        match link {
            Link::Book { number } => tagged(BOOK, number),
            Link::Floor { point } => tagged(FLOOR, point),
            Link::Posted => tagged(POSTED, 0),
        }
    }
}

// The link that has the word, or a refusal exactly when none has it.
impl TryFrom<u32> for Link {
    type Error = NoLink;

    ghost try_from_gives = { LinkOf };

    fn try_from(word: u32) -> Result<Link, NoLink> {
        let low = word % UNIT;
        match word - low {
            BOOK => Ok(Link::Book { number: low }),
            FLOOR => Ok(Link::Floor { point: low }),
            POSTED if low == 0 => Ok(Link::Posted),
            _ => Err(NoLink),
        }
    }
}

// The edge that the link names, or nothing exactly when the book has no bound with its number.
#[tactic(auto, using(crate::proofs::Checking::copied_named))]
pub fn edge_of<D: Quantity>(link: Link, book: &[Edge<D>], posted: Edge<D>) -> Option<Edge<D>>
    ensures { LinkRead D.kind D.means book.now posted link result }
{
    match link {
        Link::Book { number } => book.get(number as usize).copied(),
        Link::Floor { point } => Some(floor(point as usize)),
        Link::Posted => Some(posted),
    }
}
