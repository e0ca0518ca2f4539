// The pivots that a search from the front would find, to see where they differ from those found backward.
use crate::STEPS;
use crate::settled::{Row, Settled};
use random_inputs::{has, only};
use trial::{get, put};

impl<'a> Settled<'a> {
    // The row of a step at which the whole pattern holds, with each pivot the smallest, given those before it, from which the other
    // beads lead to the step.
    pub fn front_row(&self, v: u16) -> Row {
        let left = self.left(v);
        let mut row = [0; 10];
        row[0] = self.begun(v) >> 1;
        let mut pivot = 0;
        for (k, place) in (0..self.beads).zip(row[2..].iter_mut()) {
            let serves = |w: &u16| has(get(&left, usize::from(*w)) >> 1 & self.on(pivot, *w), k);
            let Some(found) = (0..=v).find(serves) else {
                break;
            };
            pivot = found;
            *place = found;
        }
        row
    }

    // Bit k at step u is set if the beads after the first k lead from u to v. At v the bit of all beads, after which none
    // is left, is given.
    fn left(&self, v: u16) -> [u16; STEPS] {
        let mut left = [0; STEPS];
        put(&mut left, usize::from(v), only(self.beads));
        for u in (0..=v).rev() {
            let Some(beads) = self.on_from(u) else {
                continue;
            };
            // All steps are gone over, with no range to keep: those before u have no bit yet, and what v brings
            // to itself is added below too.
            let later = left.iter().zip(beads);
            let by_later = later.fold(get(&left, usize::from(u)), |all, (left, on)| {
                all | left >> 1 & on
            });
            put(
                &mut left,
                usize::from(u),
                left_here(by_later, self.on(u, u)),
            );
        }
        left
    }
}

// By the beads that hold from the step to itself: from the last one down, because one may come before another.
fn left_here(left: u16, here: u16) -> u16 {
    (0..8)
        .rev()
        .fold(left, |all, k| all | all >> 1 & here & only(k))
}
