// What the arguments ask for.
use crate::part::Part;
use anyhow::anyhow;
use std::fmt;

#[derive(Clone, Copy)]
pub(crate) struct Asked {
    pub bounds: u16,
    pub points: u8,
    pub rounds: u32,
    // what each round posts, or nothing where the rounds go through every part
    pub part: Option<Part>,
}

// The number of points, of which a hop needs two.
fn points(text: &str) -> anyhow::Result<u8> {
    match text.parse::<u8>() {
        Ok(points) if 2 <= points && points <= 128 => Ok(points),
        _ => Err(anyhow!("POINTS is not a number from 2 to 128")),
    }
}

// What each round posts, or nothing for all. Point 0 can't be moved, so the points to be moved are fewer than all.
fn part(text: &str, points: u8) -> anyhow::Result<Option<Part>> {
    if text == "all" {
        return Ok(None);
    }
    match text.parse::<Part>()? {
        Part::Moving { count } if count == 0 || u32::from(points) <= count => {
            Err(anyhow!("PART is a number, but not one from 1 to POINTS - 1"))
        }
        part => Ok(Some(part)),
    }
}

impl Asked {
    pub(crate) fn new(
        bounds: &str,
        number: &str,
        rounds: &str,
        word: &str,
    ) -> anyhow::Result<Asked> {
        let Ok(bounds) = bounds.parse::<u16>() else {
            return Err(anyhow!("BOUNDS is not a number from 0 to 65535"));
        };
        let points = points(number)?;
        let Ok(rounds) = rounds.parse::<u32>() else {
            return Err(anyhow!("ROUNDS is not a number from 0 to 4294967295"));
        };
        let part = part(word, points)?;
        Ok(Asked {
            bounds,
            points,
            rounds,
            part,
        })
    }
}

impl fmt::Display for Asked {
    fn fmt<W: fmt::Write>(&self, f: &mut fmt::Formatter<W>) -> fmt::Result {
        let Asked {
            bounds,
            points,
            rounds,
            part: _,
        } = self;
        write!(
            f,
            "made: {bounds} bounds over {points} points, for {rounds} rounds"
        )
    }
}
