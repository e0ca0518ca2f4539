// The prefixes that hold at each step.
use crate::STEPS;
use crate::pairs::Pairs;
use random_inputs::only;

// No bead holds at step 0 alone. Filled by index: a place is made from those before it in the same array.
pub fn settle_prefixes(steps: u16, pairs: &Pairs) -> [u16; STEPS] {
    let mut begun = [0; STEPS];
    begun[0] = 1;
    for v in 0..usize::from(steps).min(STEPS) {
        let earlier = begun.iter().zip(pairs).take(v);
        let before = earlier.fold(0, |all, (begun, on)| all | begun & on[v]);
        begun[v] = begun_here(begun[v] | before << 1, pairs[v][v]);
    }
    begun
}

// A bead more at the step itself, for each that holds from the step to itself: bead by bead, because one may follow another.
fn begun_here(begun: u16, here: u16) -> u16 {
    (0..8).fold(begun, |all, k| all | (all & here & only(k)) << 1)
}
