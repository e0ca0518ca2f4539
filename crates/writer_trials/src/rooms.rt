// A room written, read back, changed and written again; its text changed and read.
use crate::counts::Counts;
use crate::written::Written;
use answer::Answer;
use std::alloc::{AllocError, Global};
use trial::Random;

impl Counts {
    pub(crate) fn try_room<T: Written>(
        &mut self,
        alloc: Global,
        mut room: T,
        random: &mut Random,
    ) -> Result<(), AllocError> {
        let (answer, text) = write(alloc, &room)?;
        self.rooms += 1;
        self.refused += u64::from(!answer.is_accepted());
        self.read_back(alloc, &room, text.as_slice())?;
        self.try_kinds(alloc, &room, text.as_slice(), *random)?;
        room.change(random);
        self.write_changed(alloc, &room, text.as_slice())
    }

    // Reads into a room of noise.
    fn read_back<T: Written>(
        &mut self,
        alloc: Global,
        room: &T,
        text: &[u8],
    ) -> Result<(), AllocError> {
        let mut again = noise(alloc, room.numbers().len())?;
        let answer = room.read(text, again.as_mut_slice());
        let numbers = room.numbers().iter().zip(again.iter());
        self.bytes += text.len() as u64;
        self.unread += u64::from(!answer.is_accepted());
        self.differing += numbers.filter(|(a, b)| a != b).count() as u64;
        Ok(())
    }

    fn write_changed<T: Written>(
        &mut self,
        alloc: Global,
        room: &T,
        before: &[u8],
    ) -> Result<(), AllocError> {
        let (answer, text) = write(alloc, room)?;
        self.changed += 1;
        if answer.is_accepted() {
            let same = text.as_slice() == before;
            self.other_text += u64::from(!same);
            self.same_text += u64::from(same);
            return self.read_back(alloc, room, text.as_slice());
        }
        let mut refusals = T::refusals().iter().zip(self.refused_with.iter_mut());
        match refusals.find(|((number, _), _)| *number == answer.number) {
            Some((_, count)) => *count += 1,
            None => self.otherwise += 1,
        }
        Ok(())
    }
}

// What the writer answered, and the text that it wrote.
fn write<T: Written>(alloc: Global, room: &T) -> Result<(Answer, Vec<u8>), AllocError> {
    let mut text = vec![in alloc; 0; T::LONGEST]?;
    let answer = room.write(text.as_mut_slice());
    text.truncate(usize::from(answer.count));
    Ok((answer, text))
}

pub fn noise(alloc: Global, n: usize) -> Result<Vec<u16>, AllocError> {
    let mut numbers = vec![in alloc; 0; n]?;
    random_inputs::fill_noise(numbers.as_mut_slice(), 1);
    Ok(numbers)
}
