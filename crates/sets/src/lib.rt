// Sets of numbers below 16, each kept in a u16: bit i stands for the member i.
// Callers reason by the laws of proofs/Laws.antt and not by bits.
#![tactic(auto)]

ghost use Rattle.std.specs.Prelude.{◌≡◌, ◌<◌, ◌≤◌};
ghost use Rattle.sets.specs.Sets.{member, singleton, union, intersection, complement, overlaps, within, single};

// Is i a member of s?
pub fn member(s: u16, i: u16) -> bool
    requires { i < 16 }
    ensures { result ≡ member i s }
{
    (s >> i) % 2 == 1
}

// The set {i}: 2 to the i, as the wall chart has it (specs/Chart.antt), a case a line. It stays a `match`, and no `1 << i`, because fitters
// tick its cases off against the chart (docs/DECISIONS.md, "Ask 4"). The language wants the last arm; `requires` rules it out.
#[tactic(auto, using(crate::proofs::ChartLaws::chart_kit))]
pub fn singleton(i: u16) -> u16
    requires { i < 16 }
    ensures { result ≡ singleton i }
{
    match i {
        0 => 1,
        1 => 2,
        2 => 4,
        3 => 8,
        4 => 16,
        5 => 32,
        6 => 64,
        7 => 128,
        8 => 256,
        9 => 512,
        10 => 1024,
        11 => 2048,
        12 => 4096,
        13 => 8192,
        14 => 16384,
        15 => 32768,
        _ => 0,
    }
}

// The members of either set.
#[tactic(auto, using(crate::proofs::Laws::kit))]
pub fn union(s: u16, t: u16) -> u16
    ensures { result ≡ union 16 s t }
{
    s | t
}

// The members of both sets.
#[tactic(auto, using(crate::proofs::Laws::kit))]
pub fn intersection(s: u16, t: u16) -> u16
    ensures { result ≡ intersection 16 s t }
{
    s & t
}

// The numbers below n that are not members of s.
#[tactic(auto, using(crate::proofs::Laws::kit))]
pub fn complement(s: u16, n: u16) -> u16
    requires { n ≤ 16 }
    ensures { result ≡ complement n s }
{
    let full: u32 = 1 << n;
    (full - 1 - u32::from(s) % full) as u16
}

// Have the two sets a member in common?
#[tactic(auto, using(crate::proofs::Laws::kit))]
pub fn overlaps(s: u16, t: u16) -> bool
    ensures { result ≡ overlaps 16 s t }
{
    s & t != 0
}

// Is every member of s below n? A u16 has none from 16 on.
#[tactic(auto, using(crate::proofs::Laws::kit))]
pub fn within(s: u16, n: u16) -> bool
    ensures { result ≡ within n s }
{
    n >= 16 || s >> n == 0
}

// Has s exactly one member? The language's count of ones, against 1.
#[tactic(auto, using(crate::proofs::Laws::kit))]
pub fn single(s: u16) -> bool
    ensures { result ≡ single 16 s }
{
    u16::count_ones(s) == 1
}
