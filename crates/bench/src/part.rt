// What a round does between its mark and its end.
use std::error::Error;
use std::fmt;
use std::str::FromStr;

#[derive(Clone, Copy)]
pub(crate) enum Part {
    // nothing
    Marks,
    // posts a bound that is covered
    Covered,
    // posts a bound that moves nothing
    Still,
    // posts a bound that moves so many points, the last ones
    Moving { count: u32 },
    // posts a bound that can't be met
    Conflict,
    // is over the slow book, and posts a bound that moves all its points
    Slow,
}

#[derive(Clone, Copy, Debug)]
pub(crate) struct UnknownPart;

impl fmt::Display for UnknownPart {
    fn fmt<W: fmt::Write>(&self, f: &mut fmt::Formatter<W>) -> fmt::Result {
        f.write_str(
            "PART is none of all, marks, covered, still, conflict, slow, nor a number of points to be moved",
        )
    }
}

impl Error for UnknownPart {}

impl FromStr for Part {
    type Err = UnknownPart;

    fn from_str(name: &str) -> Result<Part, UnknownPart> {
        match name {
            "marks" => Ok(Part::Marks),
            "covered" => Ok(Part::Covered),
            "still" => Ok(Part::Still),
            "conflict" => Ok(Part::Conflict),
            "slow" => Ok(Part::Slow),
            _ => match name.parse::<u32>() {
                Ok(count) => Ok(Part::Moving { count }),
                Err(_) => Err(UnknownPart),
            },
        }
    }
}
