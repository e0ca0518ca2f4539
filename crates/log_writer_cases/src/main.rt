// The log writer on the rooms that texts give: those of `cases.txt`, a line a case, then those of the program `log_cases`
// (`texts.txt` is a copy of its file). At the end, how many cases there were of each kind and how many got each answer.
//
// A line of a file has its columns parted by tabs: what is tried; the label count that the reader is handed; the log as a script
// (`script::expand`), `=` for the listing of document 01 (`log.txt`); and settings (crate `settings`). These are `c`: the label count
// that the writer is handed, without it the reader's; `l`: a place of the room that is set after reading; `L`: how many numbers of the
// room are lent; `T`: how many bytes of the text room are lent, 70,000 without it. The log's room has six numbers more than the format
// uses, marks.
#![tactic(auto)]

use answer::Answer;
use settings::Settings;
use std::io;
use std::rt::Files;
use text_room::{Case, Kind, Kinds, Writer, try_files, try_writer};
use trial::column;

// The log writer with its label count, with which the log is read back too.
#[derive(Clone, Copy)]
struct LogWriter {
    labels: u16,
}

impl Writer for LogWriter {
    const LENT: char = 'L';

    const USED: usize = 7170;

    fn write(&self, room: &[u16], text: &mut [u8]) -> Answer {
        log_writer::write_log(room, self.labels, text)
    }

    fn read(&self, text: &[u8], room: &mut [u16]) -> Answer {
        log_reader::read_log(text, self.labels, room)
    }

    fn header(&self) -> &[u8] {
        &[]
    }

    fn print_kept(rt: &impl Print, room_kept: bool, _: bool) -> io::Result<()> {
        outcome::print_claim(rt, "; log kept", room_kept)
    }
}

fn main(rt: HostRuntime) -> io::Result<()> {
    try_files(&rt, |line, kinds| try_case(&rt, line, kinds))
}

fn try_case(
    rt: &(impl Files + Print + AllocGlobal),
    line: &str,
    kinds: &mut Kinds,
) -> io::Result<()> {
    let settings = Settings::new(column(line, 3));
    let text = script::load(rt, column(line, 2), "log.txt", 66000)?;
    let labels = column(line, 1).parse().unwrap_or(0);
    let mut log = outcome::marked(rt.alloc(), 7176)?;
    if !log_reader::read_log(&text, labels, &mut log).is_accepted() {
        kinds.add(Kind::Unread);
        return Ok(());
    }
    kinds.change(settings, 'l', &mut log);

    let handed = settings.value('c').unwrap_or(labels);
    kinds.add_if(Kind::OtherCount, handed != labels);
    let case = Case {
        name: column(line, 0),
        settings,
        text: &text,
        room: &log,
    };
    try_writer(rt, &case, &LogWriter { labels: handed }, kinds)
}
