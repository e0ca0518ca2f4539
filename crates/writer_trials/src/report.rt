// The counts as lines, each with its name.
use crate::counts::Counts;
use crate::written::Written;
use std::io;

// No `Display`: the names of what is counted come with the type of the room, which the counts do not know.
impl Counts {
    pub fn print<T: Written>(&self, rt: &impl Print) -> io::Result<()> {
        self.print_written::<T>(rt)?;
        self.print_changed::<T>(rt)?;
        self.print_texts::<T>(rt)
    }

    fn print_written<T: Written>(&self, rt: &impl Print) -> io::Result<()> {
        println!(rt; "{} rooms written: {}", T::TEXT, self.rooms)?;
        println!(rt; "  bytes written: {}", self.bytes)?;
        println!(rt; "  rooms refused: {}", self.refused)?;
        println!(rt; "  written texts that the reader refuses: {}", self.unread)?;
        println!(rt; "  numbers that differ after reading: {}", self.differing)
    }

    fn print_changed<T: Written>(&self, rt: &impl Print) -> io::Result<()> {
        println!(rt;
            "{} rooms with one number changed: {}",
            T::TEXT,
            self.changed
        )?;
        for ((_, refusal), count) in T::refusals().iter().zip(&self.refused_with) {
            println!(rt; "  {refusal}: {count}")?;
        }
        println!(rt; "  other texts: {}", self.other_text)?;
        println!(rt; "  the same texts: {}", self.same_text)?;
        println!(rt; "  other answers: {}", self.otherwise)
    }

    fn print_texts<T: Written>(&self, rt: &impl Print) -> io::Result<()> {
        println!(rt; "{} texts with one byte changed: {}", T::TEXT, self.texts)?;
        println!(rt;
            "  with a second one of the same kind further on: {}",
            self.again
        )?;
        println!(rt;
            "  answers that differ from the one expected in number, line or byte: {}",
            self.unexpected
        )?;
        println!(rt; "  rooms that a refused call changed: {}", self.touched)?;
        for (kind, count) in T::TEXT.kinds().iter().zip(&self.kinds) {
            println!(rt; "  {}: {count}", kind.name(T::TEXT))?;
        }
        Ok(())
    }
}
