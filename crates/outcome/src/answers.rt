// What a call answered, and what it left in a buffer that was all marks before it.
use crate::marks::{is_marked, marked, sum_of_sums};
use answer::Answer;
use std::io;

// Tries a call that is lent the first numbers of n marks, as many as `lent` says, all of them where it says nothing; prints
// what it answered and left, with no line end.
pub fn try_marked<F: FnOnce(&mut [u16]) -> Answer>(
    rt: &(impl Print + AllocGlobal),
    name: &str,
    n: usize,
    lent: &str,
    call: F,
) -> io::Result<(Answer, Vec<u16>)>
    requires { F.IsAlwaysCallable call }
{
    let mut buffer = marked(rt.alloc(), n)?;
    let n = lent.parse().unwrap_or(n).min(buffer.len());
    let answer = call(&mut buffer[..n]);
    print_answer(rt, name, answer)?;
    print_buffer(rt, answer.number, &buffer)?;
    Ok((answer, buffer))
}

// `name: number n line l byte b count c`, with no line end. No `Display`: the type is another crate's, and this is the one place that prints it.
pub fn print_answer(rt: &impl Print, name: &str, a: Answer) -> io::Result<()> {
    print!(rt;
        "{name}: number {} line {} byte {} count {}",
        a.number, a.line, a.byte, a.count
    )
}

// After number 0 the sum of sums, after a refusal whether the marks are unchanged. By the number, since a case tries both ways.
pub fn print_buffer(rt: &impl Print, number: u16, s: &[u16]) -> io::Result<()> {
    if number == 0 {
        print!(rt; " sum {}", sum_of_sums(s))
    } else if is_marked(s) {
        print!(rt; " unchanged")
    } else {
        print!(rt; " CHANGED")
    }
}

// A claim that fails is printed with a word more.
pub fn print_claim(rt: &impl Print, claim: &str, holds: bool) -> io::Result<()> {
    if !holds {
        print!(rt; " FAILS:")?;
    }
    print!(rt; "{claim}")
}
