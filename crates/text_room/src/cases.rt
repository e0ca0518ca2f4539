// The cases of a program, and one call of a writer with what it wrote.
use crate::kinds::{Kind, Kinds};
use answer::Answer;
use outcome::{is_marked, is_marked_from, marked, print_claim, sum_of_sums};
use settings::Settings;
use std::io;
use std::rt::Files;
use trial::{front, part};

// A writer with all that it is handed besides the room and the text room, and the reader of its format.
pub trait Writer {
    // The setting that says how many numbers of the room are lent.
    const LENT: char;

    // How many numbers of a room the format uses.
    const USED: usize;

    fn write(&self, room: &[u16], text: &mut [u8]) -> Answer;

    fn read(&self, text: &[u8], room: &mut [u16]) -> Answer;

    // The bytes that the writer reads besides the room.
    fn header(&self) -> &[u8];

    // Were the room and these bytes kept?
    fn print_kept(rt: &impl Print, room_kept: bool, header_kept: bool) -> io::Result<()>;
}

// The text gave the room, before places of it were changed. The writer stands beside a case: with a header text in it, what a program
// lends would be at several lifetimes at once, and its proof did not close.
#[derive(Clone, Copy)]
pub struct Case<'a> {
    pub name: &'a str,
    pub settings: Settings<'a>,
    pub text: &'a [u8],
    pub room: &'a [u16],
}

// Tries the cases of both files of a program, a line a case; at the end prints how many there were of each kind.
pub fn try_files<F: Fn(&str, &mut Kinds) -> io::Result<()>>(
    rt: &(impl Files + Print + AllocGlobal),
    try_case: F,
) -> io::Result<()>
    requires pre { (f : _) (x : _) (y : _) → F.pre f x y }
{
    let mut kinds = Kinds::new();
    for path in ["cases.txt", "texts.txt"] {
        trial::each_line(rt, path, |line| try_case(line, &mut kinds))?;
    }
    print!(rt; "{kinds}")
}

// Lends as many numbers of the room, and as many bytes from byte 8 of the buffer on, as the settings say: `T` for the bytes, 70,000
// without it.
pub fn try_writer<W: Writer>(
    rt: &(impl Print + AllocGlobal),
    case: &Case<'_>,
    writer: &W,
    kinds: &mut Kinds,
) -> io::Result<()> {
    let mut buffer = marked(rt.alloc(), 70016)?;
    let n = case.settings.at_most('T', 70000);
    let answer = call(rt, case, writer, &mut buffer[8..8 + n])?;
    kinds.add(Kind::from(answer));
    kinds.add_if(Kind::Shorter, n < 70000);

    // A refused call has count 0.
    let end = 8 + usize::from(answer.count);
    print_claim(rt, ", front kept", is_marked(front(&buffer, 8)))?;
    print_claim(rt, ", rest kept", is_marked_from(&buffer, end))?;
    if !answer.is_accepted() {
        return println!(rt);
    }
    let output = part(&buffer, 8, end);
    read_back(rt, case, writer, output, kinds)?;
    print_compared(rt, case.text, output, kinds)
}

// Compares sums of what the writer only reads.
fn call<W: Writer>(
    rt: &impl Print,
    case: &Case<'_>,
    writer: &W,
    text_room: &mut [u8],
) -> io::Result<Answer> {
    let sums = || (sum_of_sums(case.room), sum_of_sums(writer.header()));
    let (room_sum, header_sum) = sums();
    let lent = case.settings.lent(W::LENT, case.room);
    let answer = writer.write(lent, text_room);
    outcome::print_answer(rt, case.name, answer)?;
    let (room_now, header_now) = sums();
    W::print_kept(rt, room_now == room_sum, header_now == header_sum)?;
    Ok(answer)
}

// Does reading give the room's numbers again?
fn read_back<W: Writer>(
    rt: &(impl Print + AllocGlobal),
    case: &Case<'_>,
    writer: &W,
    output: &[u8],
    kinds: &mut Kinds,
) -> io::Result<()> {
    let mut again = vec![in rt.alloc(); 0u16; case.room.len()]?;
    let answer = writer.read(output, &mut again);
    let same = front(case.room, W::USED) == front(&again, W::USED);
    print_claim(rt, ", read", answer.is_accepted())?;
    print_claim(rt, " back", same)?;
    kinds.add_if(Kind::ReadBack, same);
    Ok(())
}

// Is it the text that gave the room? Another text is printed where it has at most 128 bytes.
fn print_compared(
    rt: &impl Print,
    text: &[u8],
    output: &[u8],
    kinds: &mut Kinds,
) -> io::Result<()> {
    print!(rt; ", sum {}", sum_of_sums(output))?;
    if output == text {
        kinds.add(Kind::SameText);
        return println!(rt; ", the text that was read");
    }
    println!(rt; ", another text")?;
    if output.len() <= 128 {
        rt.write_all(output)?;
    }
    Ok(())
}
