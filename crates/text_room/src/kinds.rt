// Cases counted by kind and by answer, each with its line at the end of a program.
use answer::Answer;
use settings::Settings;
use std::fmt;

#[derive(Clone, Copy, PartialEq)]
pub enum Kind {
    // The reader refused the text, so that there is no room.
    Unread,
    AsRead,
    Changed,
    // The text room was lent in part.
    Shorter,
    ReadBack,
    SameText,
    // By the answer's number, one of those that the writers answer.
    Answered(u16),
    OtherAnswer,
    // Of the pattern writer alone.
    OwnHeader,
    OtherHeader,
    // Of the log writer alone.
    OtherCount,
}

// In the order of the lines. No `Tally`: a kind that never came has its line too.
const KINDS: [Kind; 18] = [
    Kind::Unread,
    Kind::AsRead,
    Kind::Changed,
    Kind::Shorter,
    Kind::ReadBack,
    Kind::SameText,
    Kind::Answered(0),
    Kind::Answered(1),
    Kind::Answered(2),
    Kind::Answered(5),
    Kind::Answered(6),
    Kind::Answered(7),
    Kind::Answered(8),
    Kind::Answered(12),
    Kind::OtherAnswer,
    Kind::OwnHeader,
    Kind::OtherHeader,
    Kind::OtherCount,
];

impl Kind {
    // A writer's own kind has its line only where it came.
    fn is_own(self) -> bool {
        matches!(self, Kind::OwnHeader | Kind::OtherHeader | Kind::OtherCount)
    }
}

impl From<Answer> for Kind {
    fn from(answer: Answer) -> Kind {
        let kind = Kind::Answered(answer.number);
        if KINDS.contains(&kind) {
            kind
        } else {
            Kind::OtherAnswer
        }
    }
}

impl fmt::Display for Kind {
    fn fmt<W: fmt::Write>(&self, f: &mut fmt::Formatter<W>) -> fmt::Result {
        f.write_str(match self {
            Kind::Unread => "texts that the reader refuses",
            Kind::AsRead => "rooms as a text gives them",
            Kind::Changed => "rooms with a number changed",
            Kind::Shorter => "calls with a text room shorter than 70000 bytes",
            Kind::ReadBack => "written texts that give the room's numbers again",
            Kind::SameText => "written texts that are the text that was read",
            Kind::Answered(number) => return write!(f, "calls answered {number}"),
            Kind::OtherAnswer => "calls answered another number",
            Kind::OwnHeader => "calls with the first line of the text that was read",
            Kind::OtherHeader => "calls with another header text",
            Kind::OtherCount => "calls with another label count than the reader's",
        })
    }
}

#[derive(Clone, Copy)]
struct Count {
    kind: Kind,
    times: u64,
}

#[derive(Drop)]
pub struct Kinds {
    counts: [Count; 18],
}

impl Kinds {
    pub fn new() -> Kinds {
        Kinds {
            counts: KINDS.map(|kind| Count { kind, times: 0 }),
        }
    }

    pub fn add(&mut self, kind: Kind) {
        if let Some(i) = self.counts.iter().position(|count| count.kind == kind) {
            self.counts[i].times = self.counts[i].times.wrapping_add(1);
        }
    }

    pub fn add_if(&mut self, kind: Kind, holds: bool) {
        if holds {
            self.add(kind);
        }
    }

    // Sets the places of the room that the settings name with this letter.
    pub fn change(&mut self, settings: Settings<'_>, letter: char, room: &mut [u16]) {
        let before = outcome::sum_of_sums(room);
        settings.damage(letter, room);
        let changed = outcome::sum_of_sums(room) != before;
        self.add(if changed { Kind::Changed } else { Kind::AsRead });
    }
}

impl fmt::Display for Kinds {
    fn fmt<W: fmt::Write>(&self, f: &mut fmt::Formatter<W>) -> fmt::Result {
        for Count { kind, times } in self.counts {
            if times > 0 || !kind.is_own() {
                writeln!(f, "{kind}: {times}")?;
            }
        }
        Ok(())
    }
}
