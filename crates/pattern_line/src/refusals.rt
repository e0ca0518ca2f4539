// What a pattern's text can be refused for. With the line at fault it is a `text::faults::Fault<Refusal>`.
ghost use Rattle.std.specs.Prelude.{◌≡◌};
ghost use Rattle.pattern_line.specs.Answers.{refusal_number};

#[derive(Clone, Copy, Debug, PartialEq, Eq)]
pub enum Refusal {
    // The text is empty or too long.
    Size,
    // A line that is not whole, or with a wrong number of fields, or a field that is no number.
    Malformed,
    // The header differs.
    Header,
    // Bead or state out of order or over its limit, final over 1, or nothing after the header.
    Order,
    // No rule, or one that is not its turn.
    Rule,
    // A next set with a state that the bead lacks.
    NextState,
    // In an ALL bead, a next set without exactly one state.
    NextCount,
}

// Document 01's number.
impl From<Refusal> for u16 {
    ghost from_gives = { λ refusal number. number ≡ refusal_number refusal };

    fn from(refusal: Refusal) -> u16 {
        match refusal {
            Refusal::Size => 10,
            Refusal::Malformed => 11,
            Refusal::Header => 12,
            Refusal::Order => 13,
            Refusal::Rule => 14,
            Refusal::NextState => 15,
            Refusal::NextCount => 16,
        }
    }
}
