// The kinds of cases.
use std::fmt;
use std::str::FromStr;

// In the order of the last lines.
#[derive(Clone, Copy, PartialEq, Eq, PartialOrd, Ord)]
pub enum Kind {
    Number,
    Line,
    Spaces,
    Commas,
    Missing,
    Equal,
}

#[derive(Clone, Copy)]
pub struct NoSuchKind;

// The kind that a word of `cases.txt` names.
impl FromStr for Kind {
    type Err = NoSuchKind;

    fn from_str(word: &str) -> Result<Kind, NoSuchKind> {
        match word {
            "number" => Ok(Kind::Number),
            "line" => Ok(Kind::Line),
            "spaces" => Ok(Kind::Spaces),
            "commas" => Ok(Kind::Commas),
            "missing" => Ok(Kind::Missing),
            "equal" => Ok(Kind::Equal),
            _ => Err(NoSuchKind),
        }
    }
}

// What was tried, as the last lines say it.
impl fmt::Display for Kind {
    fn fmt<W: fmt::Write>(&self, f: &mut fmt::Formatter<W>) -> fmt::Result {
        f.write_str(match self {
            Kind::Number => "numbers tried",
            Kind::Line => "lines tried",
            Kind::Spaces => "lines split at spaces",
            Kind::Commas => "lines split at commas",
            Kind::Missing => "single places tried",
            Kind::Equal => "comparisons tried",
        })
    }
}
