// The starting steps of the passes for a bead: the steps at which the earlier beads hold, with the lanes that they are given.
#![tactic(auto)]

ghost use Rattle.std.specs.Prelude.{◌≡◌, cond, ◌<◌, ◌≤◌, length, set};
ghost use Rattle.sets.specs.Sets.{singleton};
ghost use Rattle.layout.specs.Layout.{most_beads, most_steps, most_lanes};
ghost use Rattle.starts.specs.Starts.{prefix_at, lane_after, StartsOf, ApartIf};

// How starting steps are given lanes: all of them lane 0, or the next sixteen a lane each.
#[derive(Clone, Copy, PartialEq, Eq)]
pub enum Lanes {
    Shared,
    Own,
}

// The starting steps of a pass: they lie from `first` on and below `until`; every step from the one asked for up to `to` has been looked at.
// Where none is a starting step `until` is not above `first`: a pass over that stretch has no turn, and needs no case of its own.
#[derive(Clone, Copy)]
pub struct Starts {
    pub first: usize,
    pub until: usize,
    pub to: usize,
}

// The lane of the starting step after the one that has been given this lane.
#[tactic(auto, unfolding(crate::specs::Starts::lane_after))]
fn lane_after(lanes: Lanes, lane: u16) -> u16
    requires { lane < most_lanes }
    ensures { result ≡ lane_after lanes lane }
{
    match lanes {
        Lanes::Shared => lane,
        Lanes::Own => lane + 1,
    }
}

// Do the first beads, as many as `bead` says, hold at u? `choose` alone asks it: a struct of the marks and the bead would be made for this call.
#[tactic(auto, using(crate::proofs::PrefixLaws::prefix_kit))]
fn prefix_at(prefixes: &[u16], bead: usize, u: usize) -> bool
    requires { (bead < most_beads) × (u < length prefixes.now) }
    ensures { result ≡ prefix_at prefixes.now bead u }
{
    if bead == 0 {
        u == 0
    } else {
        sets::member(prefixes[u], (bead - 1) as u16)
    }
}

// Gives the step u the lane if it is a starting step, else none.
#[tactic(auto, using(crate::proofs::StartLaws::give_kit))]
fn give(starts: bool, u: usize, lane: u16, seeds: &mut [u16])
    requires { (lane < most_lanes) × (u < length seeds.old) }
    ensures { seeds.new ≡ set seeds.old u (cond starts (singleton lane) 0) }
{
    seeds[u] = if starts { sets::singleton(lane) } else { 0 };
}

// The starting steps from `from` on: the next sixteen, a lane each, or all of them in lane 0.
pub fn choose(
    prefixes: &[u16],
    bead: usize,
    from: usize,
    n: usize,
    lanes: Lanes,
    seeds: &mut [u16],
) -> Starts
    requires { (bead < most_beads) × (from < n) × (n ≤ most_steps) × (most_steps ≤ length prefixes.now) × (most_steps ≤ length seeds.old) }
    ensures starts_of { StartsOf (prefix_at prefixes.now bead) from n result seeds.new }
    ensures apart_if { ApartIf lanes from result.to seeds.new }
{
    let mut first = n;
    let mut until = from;
    let mut lane = 0;
    for u in from..n {
        if lane == layout::MOST_LANES {
            return Starts {
                first,
                until,
                to: u,
            };
        }
        let holds = prefix_at(prefixes, bead, u);
        give(holds, u, lane, seeds);
        if holds {
            first = first.min(u);
            until = u + 1;
            lane = lane_after(lanes, lane);
        }
    }
    Starts {
        first,
        until,
        to: n,
    }
}
