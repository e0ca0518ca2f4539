// What was tried.
use crate::written::Written;
use std::alloc::{AllocError, Global};
use std::num::Wrapping;
use trial::Random;

// `refused_with` counts the refusals that `Written` names, `kinds` the kinds of changes of the text, both in their order.
#[derive(Default, Drop)]
pub struct Counts {
    pub rooms: Wrapping<u64>,
    pub bytes: Wrapping<u64>,
    pub refused: Wrapping<u64>,
    pub unread: Wrapping<u64>,
    pub differing: Wrapping<u64>,
    pub changed: Wrapping<u64>,
    pub refused_with: [Wrapping<u64>; 2],
    pub other_text: Wrapping<u64>,
    pub same_text: Wrapping<u64>,
    pub otherwise: Wrapping<u64>,
    pub texts: Wrapping<u64>,
    pub again: Wrapping<u64>,
    pub unexpected: Wrapping<u64>,
    pub touched: Wrapping<u64>,
    pub kinds: [Wrapping<u64>; 7],
}

impl Counts {
    // Of this many rooms, drawn from a seed. No closure here, as the trials of the judge have it: both writers run this very loop.
    pub fn of_rooms<T: Written>(
        alloc: Global,
        rooms: u64,
        seed: u64,
    ) -> Result<Counts, AllocError> {
        let mut counts = Counts::default();
        let mut random = Random::new(seed);
        for i in 0..rooms {
            let room = T::draw(alloc, i, &mut random)?;
            counts.try_room(alloc, room, &mut random)?;
        }
        Ok(counts)
    }
}
