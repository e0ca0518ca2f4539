// The size of a text, and the first line of what is left of it.
ghost use Rattle.std.specs.Prelude.{◌≡◌};
ghost use Rattle.text.specs.Lines.{ended, printable_byte, printable, line_of, whole_or};
ghost use Rattle.text.specs.Walk.{bad_size};

// The text is empty or too large: it has more bytes than allowed.
pub fn has_bad_size(text: &[u8], most: usize) -> bool
    ensures { result ≡ bad_size most text.now }
{
    text.is_empty() || text.len() > most
}

// What is wrong with a line, before its fields are looked at.
#[derive(Clone, Copy, PartialEq, Eq, Debug)]
pub enum LineFault {
    // More bytes before the newline than allowed.
    Long,
    // No newline.
    Unended,
    // A byte outside 32 to 126.
    Unprintable,
}

// How many bytes stand before the first newline: at most `most`, or the line is too long.
#[tactic(auto, using(crate::proofs::LineLaws::end_kit))]
pub fn find_end(text: &[u8], most: usize) -> Result<usize, LineFault>
    ensures { result ≡ ended most text.now }
{
    for (i, b) in text.iter().enumerate() {
        if *b == b'\n' {
            return Ok(i);
        }
        if i == most {
            return Err(LineFault::Long);
        }
    }
    Err(LineFault::Unended)
}

// Is it a byte that a line may have?
pub fn is_printable(b: u8) -> bool
    ensures { result ≡ printable_byte b }
{
    (32..=126).contains(&b)
}

// Are all bytes such?
#[tactic(auto, unfolding(crate::specs::Lines::printable))]
pub fn printable(bytes: &[u8]) -> bool
    ensures { result ≡ printable bytes.now }
{
    bytes.iter().all(|b| is_printable(*b))
}

// The answer for a first line that has some fault: how it ends, then its bytes.
#[tactic(auto, using(crate::proofs::LineLaws::line_kit))]
fn read_faulty(text: &[u8], most: usize) -> Result<usize, LineFault>
    ensures { result ≡ line_of most text.now }
{
    let n = find_end(text, most)?;
    if printable(&text[..n]) {
        Ok(n)
    } else {
        Err(LineFault::Unprintable)
    }
}

// The first line of a text, as how many bytes stand before its newline: whole if these are at most `most`, there is a newline, and only
// bytes 32 to 126. A line without a fault is looked at once.
#[tactic(auto, using(crate::proofs::LineLaws::once_kit), unfolding(crate::specs::Lines::printable))]
pub fn read_line(text: &[u8], most: usize) -> Result<usize, LineFault>
    ensures { result ≡ line_of most text.now }
{
    for (i, &b) in text.iter().enumerate() {
        if b == b'\n' {
            return Ok(i);
        }
        if !is_printable(b) {
            return read_faulty(text, most);
        }
        if i >= most {
            return Err(LineFault::Long);
        }
    }
    Err(LineFault::Unended)
}

// How many bytes the first line has, where it is whole; else this refusal, whatever is wrong with it.
pub fn whole_line<R: Copy>(text: &[u8], most: usize, otherwise: R) -> Result<usize, R>
    ensures { result ≡ whole_or otherwise (line_of most text.now) }
{
    read_line(text, most).or(Err(otherwise))
}
