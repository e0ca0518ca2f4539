// The plain walk: it goes over a text byte by byte up to the first change, and knows only that a newline ends a line and a space a field.
use crate::changes::Change;
use crate::kinds::{Kind, Text};
use answer::Answer;

// Where a byte stands: its line, its place in the line, and where its field starts, all from 1.
#[derive(Clone, Copy)]
struct Spot {
    line: u16,
    place: u16,
    field: u16,
}

impl Change {
    // Is this what a reader has to answer for the changed text?
    pub fn is_expected(self, a: Answer, of: Text, text: &[u8]) -> bool {
        a == self.expected(of, text)
    }

    fn expected(self, of: Text, text: &[u8]) -> Answer {
        let start = Spot {
            line: 1,
            place: 1,
            field: 1,
        };
        let spot = text
            .iter()
            .take(self.at)
            .fold(start, |spot, b| spot.past(*b));
        answer::refused_in(
            number_of(of, self.kind),
            spot.line,
            byte_of(self.kind, spot),
        )
    }
}

// Document 01's numbers, said apart from the readers: so not by their `Refusal`.
fn number_of(of: Text, kind: Kind) -> u16 {
    match (of, kind) {
        (Text::Pattern, Kind::UpperCase | Kind::SpaceInHeader) => 12,
        (Text::Pattern, Kind::LowerCase) => 14,
        (Text::Pattern, _) => 11,
        (Text::Log, Kind::UpperCase | Kind::SpaceInHeader) => 22,
        (Text::Log, _) => 21,
    }
}

// A bad byte's own place, 0 where the number of fields is wrong, or the place of the field.
fn byte_of(kind: Kind, spot: Spot) -> u16 {
    match kind {
        Kind::BadInHeader | Kind::BadBelow => spot.place,
        Kind::SpaceBelow => 0,
        _ => spot.field,
    }
}

impl Spot {
    fn past(self, b: u8) -> Spot {
        let place = self.place.wrapping_add(1);
        match b {
            b'\n' => Spot {
                line: self.line.wrapping_add(1),
                place: 1,
                field: 1,
            },
            b' ' => Spot {
                place,
                field: place,
                ..self
            },
            _ => Spot { place, ..self },
        }
    }
}
