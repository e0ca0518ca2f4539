// The kinds of changes.
use std::fmt;

#[derive(Clone, Copy)]
pub enum Text {
    Pattern,
    Log,
}

// In the header or below it a byte is made a bad one, or the byte behind a space a second space; in the header a letter of a name is
// made an upper-case one; below it a digit, a comma or `-` is made a letter, or a letter of a rule a lower-case one.
#[derive(Clone, Copy)]
pub enum Kind {
    BadInHeader,
    UpperCase,
    SpaceInHeader,
    BadBelow,
    SpaceBelow,
    NoDigit,
    LowerCase,
}

static KINDS: [Kind; 7] = [
    Kind::BadInHeader,
    Kind::UpperCase,
    Kind::SpaceInHeader,
    Kind::BadBelow,
    Kind::SpaceBelow,
    Kind::NoDigit,
    Kind::LowerCase,
];

impl Text {
    // The kinds of changes of such a text. A log has no rules.
    pub fn kinds(self) -> &'static [Kind] {
        match self {
            Text::Pattern => &KINDS,
            Text::Log => &KINDS[..6],
        }
    }
}

impl fmt::Display for Text {
    fn fmt<W: fmt::Write>(&self, f: &mut fmt::Formatter<W>) -> fmt::Result {
        match self {
            Text::Pattern => f.write_str("pattern"),
            Text::Log => f.write_str("log"),
        }
    }
}

impl Kind {
    // What is counted under this name.
    pub fn name(self, of: Text) -> &'static str {
        match (self, of) {
            (Kind::BadInHeader, _) => "a bad byte in the header",
            (Kind::UpperCase, _) => "an upper-case letter in a name",
            (Kind::SpaceInHeader, _) => "two spaces in the header",
            (Kind::BadBelow, _) => "a bad byte below it",
            (Kind::SpaceBelow, _) => "two spaces below it",
            (Kind::NoDigit, Text::Pattern) => "a letter in a number",
            (Kind::NoDigit, Text::Log) => "a letter in a number or among links",
            (Kind::LowerCase, _) => "another letter in a rule",
        }
    }

    pub fn is_in_header(self) -> bool {
        matches!(
            self,
            Kind::BadInHeader | Kind::UpperCase | Kind::SpaceInHeader
        )
    }

    // Does this kind change the byte at an index?
    pub fn suits(self, s: &[u8], i: usize) -> bool {
        let Some(b) = s.get(i) else {
            return false;
        };
        match self {
            Kind::BadInHeader | Kind::BadBelow => *b != b'\n',
            Kind::UpperCase => b.is_ascii_lowercase(),
            Kind::SpaceInHeader | Kind::SpaceBelow => s.get(i.wrapping_sub(1)) == Some(&b' '),
            Kind::NoDigit => (b','..=b'9').contains(b),
            Kind::LowerCase => b.is_ascii_uppercase(),
        }
    }

    // The byte that is put, from a drawn number below 159.
    pub fn new_byte(self, x: u8) -> u8 {
        match self {
            // 13, 127 to 255, or 0 to 9.
            Kind::BadInHeader | Kind::BadBelow if x < 20 => 13,
            Kind::BadInHeader | Kind::BadBelow => x.wrapping_add(107),
            Kind::UpperCase => b'A' + x % 26,
            Kind::SpaceInHeader | Kind::SpaceBelow => b' ',
            Kind::NoDigit | Kind::LowerCase => b'a' + x % 26,
        }
    }
}
