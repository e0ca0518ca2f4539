// A bead marked at the steps that some lane of a pass reaches.
// Rooms are slices of at least so many numbers, as each contract says: an array, or a struct with the bound, would take fewer or be made anew at
// each call.
#![tactic(auto)]

ghost use Rattle.std.specs.Prelude.{◌≡◌, ◌<◌, ◌≤◌, length};
ghost use Rattle.layout.specs.Layout.{most_steps, set_width};
ghost use Rattle.marking.specs.Marking.{found_at, marked_if, Added, AllMarked};

// The bead is added to the prefixes of the step, if so.
#[tactic(auto, using(crate::proofs::AddLaws::mark_kit))]
fn mark(bead: usize, step: usize, holds: bool, prefixes: &mut [u16])
    requires { (bead < set_width) × (step < most_steps) × (most_steps ≤ length prefixes.old) }
    ensures { prefixes.new ≡ marked_if holds bead step prefixes.old }
{
    if holds {
        prefixes[step] = sets::union(prefixes[step], sets::singleton(bead as u16));
    }
}

// Does some lane reach the step?
#[tactic(auto, using(crate::proofs::AddLaws::found_is))]
fn is_found(found: &[u16], step: usize) -> bool
    requires { step < length found.now }
    ensures { result ≡ found_at found.now step }
{
    found[step] != 0
}

// Adds the bead to the prefixes of the steps from u on that some lane reaches. The bead and the bounds are those of the caller's loop: a struct of
// the three would be made for one call here and one of `all_marked`.
#[tactic(auto, using(crate::proofs::AddLaws::reached_kit))]
pub fn mark_found(bead: usize, u: usize, n: usize, found: &[u16], prefixes: &mut [u16])
    requires { (bead < set_width) × (u < n) × (n ≤ most_steps) × (most_steps ≤ length found.now) × (most_steps ≤ length prefixes.old) }
    ensures { Added (found_at found.now) bead u n prefixes.old prefixes.new }
{
    for v in u..n {
        mark(bead, v, is_found(found, v), prefixes);
    }
}

// Has every step from u on the bead already? From the last one down, because late steps are the ones that lack it longest.
pub fn all_marked(bead: usize, u: usize, n: usize, prefixes: &[u16]) -> bool
    requires { (bead < set_width) × (u < n) × (n ≤ most_steps) × (most_steps ≤ length prefixes.now) }
    ensures { AllMarked bead u n prefixes.now result }
{
    prefixes[u..n]
        .iter()
        .rev()
        .all(|set| sets::member(*set, bead as u16))
}
