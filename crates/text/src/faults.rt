// What a text is refused for, whichever format it has.
ghost use Rattle.std.specs.Prelude.{◌≡◌};
ghost use Rattle.text.specs.inner.Faults.{in_line};

// A refusal with the line at fault, from 1 on; 0 where it is no line's fault.
#[derive(Clone, Copy, PartialEq, Eq, Debug)]
pub struct Fault<R> {
    pub refusal: R,
    pub line: u16,
}

// An answer about a line, as one about the text that has it: a refusal gets the line's number.
pub fn in_line<T, R>(answer: Result<T, R>, line: u16) -> Result<T, Fault<R>>
    ensures { result ≡ in_line line answer }
{
    match answer {
        Ok(said) => Ok(said),
        Err(refusal) => Err(Fault { refusal, line }),
    }
}
