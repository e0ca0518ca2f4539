// A written text with a byte changed, once for each kind of change: the reader's answer is compared with the one that a plain walk over
// the text gives.
use crate::counts::Counts;
use crate::rooms::noise;
use crate::written::Written;
use std::alloc::{AllocError, Global};
use text_changes::Change;
use trial::Random;

impl Counts {
    // Each kind has the next number of the generator to begin with, whatever the one before has drawn.
    pub(crate) fn try_kinds<T: Written>(
        &mut self,
        alloc: Global,
        room: &T,
        text: &[u8],
        mut random: Random,
    ) -> Result<(), AllocError> {
        for (i, kind) in T::TEXT.kinds().iter().enumerate() {
            random = random.next();
            let mut own = random;
            let change = Change::draw(*kind, text, &mut own);
            self.try_change(alloc, room, text, change)?;
            // By its index: a `zip` with the counts would hold them while a change is tried, which counts too.
            if let Some(count) = self.kinds.get_mut(i) {
                *count += 1;
            }
        }
        Ok(())
    }

    // Reads into a room of noise, which has to stay as it is.
    fn try_change<T: Written>(
        &mut self,
        alloc: Global,
        room: &T,
        text: &[u8],
        change: Change,
    ) -> Result<(), AllocError> {
        let mut changed = text.to_vec(alloc)?;
        change.make(changed.as_mut_slice());
        let before = noise(alloc, room.numbers().len())?;
        let mut after = before.clone()?;
        let answer = room.read(changed.as_slice(), after.as_mut_slice());
        self.texts += 1;
        self.again += u64::from(change.later.is_some());
        self.unexpected += u64::from(!change.is_expected(answer, T::TEXT, text));
        self.touched += u64::from(after != before);
        Ok(())
    }
}
