// The pass of a bead in sixteen lanes: for each step the set of the lanes that reach it, SOME or ALL by the bead's rule.
// Rooms are slices of at least so many numbers, as each contract says: an array, or a struct with the bound, would take fewer or be made anew at
// each call.
#![tactic(auto)]

ghost use Rattle.std.specs.Prelude.{◌<◌, ◌≤◌, length};
ghost use Rattle.layout.specs.Layout.{most_steps, work_length};
ghost use Rattle.log_buffer.specs.Meaning.{steps_in};
ghost use Rattle.pass_steps.specs.Made.{LastBy, FoundBy};
ghost use Rattle.passes.specs.Passes.{PassFor, HopefulBy, FoundOf};

use pass_steps::Pass;

// The turns from the first step on, as far as the pass has to go. How far that is moves while they are made, so they are no range.
fn pass_turns(pass: &Pass, work: &mut [u16], found: &mut [u16])
    requires pass_for { PassFor pass.now }
    requires last_to { LastBy pass.now }
    requires hopeful_set { HopefulBy pass.now }
    requires first_lt_until { (pass.now.first < pass.now.until) × (pass.now.until ≤ steps_in pass.now.log.now) }
    requires labels_long { most_steps ≤ length pass.now.labels.now }
    requires in_bounds { (most_steps ≤ length pass.now.seeds.now) × (most_steps ≤ length pass.now.last.now) × (work_length ≤ length work.old) × (most_steps ≤ length found.old) }
    requires found_by { FoundBy pass.now pass.now.first found.old }
    ensures { FoundOf pass.now found.new }
{
    let mut reach = pass.until - 1;
    let mut x = pass.first;
    while x <= reach {
        pass.advance(x, work);
        pass.find(x, work, found);
        reach = pass.reach_after(x, reach, work);
        x += 1;
    }
}

// The pass of a bead from the starting steps: for each step the set of the lanes that reach it. It ends where no lane can come to reach a
// step any more.
#[tactic(auto, using(crate::proofs::PassLaws::none_kit))]
pub fn pass(pass: &Pass, work: &mut [u16], found: &mut [u16])
    requires pass_for { PassFor pass.now }
    requires last_to { LastBy pass.now }
    requires hopeful_set { HopefulBy pass.now }
    requires until_bound { pass.now.until ≤ steps_in pass.now.log.now }
    requires labels_long { most_steps ≤ length pass.now.labels.now }
    requires in_bounds { (most_steps ≤ length pass.now.seeds.now) × (most_steps ≤ length pass.now.last.now) × (work_length ≤ length work.old) × (most_steps ≤ length found.old) }
    ensures { FoundOf pass.now found.new }
{
    found.fill(0);
    if pass.first < pass.until {
        pass_turns(pass, work, found);
    }
}
