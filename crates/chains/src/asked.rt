// What the text asks for.
use anyhow::anyhow;
use bounds::Bound;
use listings::bound_line;
use std::alloc::Global;
use words::BoundWords;

#[derive(Clone, Copy)]
pub(crate) enum Kind {
    Ticks,
    Ranked,
}

#[derive(Drop)]
pub(crate) struct Asked {
    pub kind: Kind,
    pub points: u8,
    // the words of the bounds that the book has at opening, and then a free place for each bound to be posted
    pub words: Vec<u32>,
    pub posts: Vec<Bound>,
}

// The kind and the number of points in the first line.
fn opening(line: &str) -> anyhow::Result<(Kind, u8)> {
    let (kind, points) = match line.split_once(' ') {
        Some(("T", points)) => (Kind::Ticks, points),
        Some(("R", points)) => (Kind::Ranked, points),
        _ => return Err(anyhow!("the first line is neither T nor R and a number of points")),
    };
    match points.parse::<u8>() {
        Ok(points) => Ok((kind, points)),
        Err(_) => Err(anyhow!("the points are not a number from 0 to 255")),
    }
}

impl Asked {
    // A line `T` or `R` with the number of points, the bounds of the book, a line `-`, and the bounds to be posted, each bound a line.
    pub(crate) fn read(heap: Global, text: &str) -> anyhow::Result<Asked> {
        let Some((book, posted)) = text.split_once("\n-\n") else {
            return Err(anyhow!("no line - ends the bounds of the book"));
        };
        let mut lines = book.lines();
        let (kind, points) = opening(lines.next().unwrap_or(""))?;
        let mut words = Vec::new(heap);
        for line in lines {
            let bound = bound_line(line.as_bytes())?;
            words.extend_from_slice(&BoundWords::from(bound).0)?;
        }
        let mut posts = Vec::new(heap);
        for line in posted.lines() {
            posts.push(bound_line(line.as_bytes())?)?;
            words.extend_from_slice(&[0; 3])?;
        }
        Ok(Asked {
            kind,
            points,
            words,
            posts,
        })
    }
}
