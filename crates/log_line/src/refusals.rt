// The refusals of the log's text.
ghost use Rattle.std.specs.Prelude.{◌≡◌};
ghost use Rattle.log_line.specs.Answers.{refusal_number};

// Document 01's 20 to 26, in this order.
#[derive(Clone, Copy, PartialEq, Eq, Debug)]
pub enum Refusal {
    // Text empty or too large.
    Size,
    // A line that is not whole, a wrong number of fields, or a field that is not what its column asks.
    Malformed,
    // The names of the first line.
    Header,
    // A step number that is not the line's.
    Number,
    // Links of step 0, none elsewhere, not rising, or not smaller than the step.
    Links,
    // Labels on step 0, or past the label count.
    Labels,
    // Too many links or steps, or no step.
    Limit,
}

// Document 01's numbers, which are the format's own.
impl From<Refusal> for u16 {
    ghost from_gives = { λ refusal number. number ≡ refusal_number refusal };

    fn from(refusal: Refusal) -> u16 {
        match refusal {
            Refusal::Size => 20,
            Refusal::Malformed => 21,
            Refusal::Header => 22,
            Refusal::Number => 23,
            Refusal::Links => 24,
            Refusal::Labels => 25,
            Refusal::Limit => 26,
        }
    }
}
