// The answer that every call of an outsider gets.
#![tactic(auto)]

ghost use Rattle.std.specs.Prelude.{◌≡◌, ◌↔◌, IsTrue};
ghost use Rattle.answer.specs.Answers.{accepted_with, refused_at, refused_in, code_of};

// Number 0 is accepted; any other is the refusal of that number in document 01. The line at fault, 0 where no text line is, and the byte:
// the place in that line, from 1, where what is at fault starts, 0 where that is no single place. The number is no enum: C gets it as it is
// (`RUNIN_NUMBER`), and document 02 adds others.
#[derive(Clone, Copy, PartialEq, Eq)]
pub struct Answer {
    pub number: u16,
    pub line: u16,
    pub byte: u16,
    pub count: u16,
}

pub fn accepted(count: u16) -> Answer
    ensures { result ≡ accepted_with count }
{
    Answer {
        number: 0,
        line: 0,
        byte: 0,
        count,
    }
}

// The numbers 1 to 8 are a call's own, and no enum has them: each call's list of faults says them as numbers.
pub fn refused(number: u16, line: u16) -> Answer
    ensures { result ≡ refused_at number line }
{
    refused_in(number, line, 0)
}

pub fn refused_in(number: u16, line: u16, byte: u16) -> Answer
    ensures { result ≡ refused_in number line byte }
{
    Answer {
        number,
        line,
        byte,
        count: 0,
    }
}

impl Answer {
    pub fn is_accepted(self) -> bool
        ensures { IsTrue result ↔ self.number ≡ 0 }
    {
        self.number == 0
    }
}

// The four numbers as one, for C.
impl From<Answer> for u64 {
    ghost from_gives = { λ a code. code ≡ code_of a };

    fn from(a: Answer) -> u64 {
        let low = u64::from(a.line) * 65536 + u64::from(a.count);
        u64::from(a.byte) * 281474976710656 + u64::from(a.number) * 4294967296 + low
    }
}
