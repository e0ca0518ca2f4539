// The pattern writer on the rooms that texts give: those of `cases.txt`, a line a case, then those of the program `pattern_cases`
// (`texts.txt` is a copy of its file). At the end, how many cases there were of each kind and how many got each answer.
//
// A line of a file has its columns parted by tabs: what is tried; the pattern as a script (`script::expand`), `=` for the listing of
// document 01 (`pattern.txt`); settings (crate `settings`); and the header text as a script, the pattern's own first line where the
// column is empty. The settings are `p`: a place of the room that is set after reading; `P`: how many numbers of the room are lent; `T`:
// how many bytes of the text room are lent, 70,000 without it. The pattern's room has six numbers more than the format uses, marks.
#![tactic(auto)]

use answer::Answer;
use settings::Settings;
use std::io;
use std::rt::Files;
use text_room::{Case, Kind, Kinds, Writer, try_files, try_writer};
use trial::column;

// The pattern writer with its header text.
#[derive(Clone, Copy)]
struct PatternWriter<'a> {
    header: &'a [u8],
}

impl<'a> Writer for PatternWriter<'a> {
    const LENT: char = 'P';

    const USED: usize = 2074;

    fn write(&self, room: &[u16], text: &mut [u8]) -> Answer {
        pattern_writer::write_pattern(room, self.header, text)
    }

    fn read(&self, text: &[u8], room: &mut [u16]) -> Answer {
        pattern::read_pattern(text, room)
    }

    fn header(&self) -> &[u8] {
        self.header
    }

    fn print_kept(rt: &impl Print, room_kept: bool, header_kept: bool) -> io::Result<()> {
        outcome::print_claim(rt, "; pattern kept", room_kept)?;
        outcome::print_claim(rt, ", header kept", header_kept)
    }
}

fn main(rt: HostRuntime) -> io::Result<()> {
    try_files(&rt, |line, kinds| try_case(&rt, line, kinds))
}

fn try_case(
    rt: &(impl Files + Print + AllocGlobal),
    line: &str,
    kinds: &mut Kinds,
) -> io::Result<()> {
    let settings = Settings::new(column(line, 2));
    let text = script::load(rt, column(line, 1), "pattern.txt", 17000)?;
    let mut pattern = outcome::marked(rt.alloc(), 2080)?;
    if !pattern::read_pattern(&text, &mut pattern).is_accepted() {
        kinds.add(Kind::Unread);
        return Ok(());
    }
    kinds.change(settings, 'p', &mut pattern);

    let header_script = column(line, 3);
    let other_header = script::expand(rt.alloc(), header_script, 1000)?;
    let header = if header_script.is_empty() {
        kinds.add(Kind::OwnHeader);
        text.split_inclusive(|b| *b == b'\n').next().unwrap_or(&[])
    } else {
        kinds.add(Kind::OtherHeader);
        &other_header
    };
    let case = Case {
        name: column(line, 0),
        settings,
        text: &text,
        room: &pattern,
    };
    try_writer(rt, &case, &PatternWriter { header }, kinds)
}
