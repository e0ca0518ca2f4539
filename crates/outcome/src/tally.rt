// How often each kind came: of the answers of a file's cases, or of what a program counts.
use std::alloc::{AllocFailed, Global};
use std::collections::BTreeMap;
use std::rt::Files;
use std::{fmt, io};

#[derive(Drop)]
pub struct Tally<K: Ord + Drop> {
    times: BTreeMap<K, u16>,
}

impl<K: Ord + Drop> Tally<K> {
    pub fn new(alloc: Global) -> Tally<K> {
        Tally {
            times: BTreeMap::new(alloc),
        }
    }

    // Counts one more of this kind.
    pub fn add(&mut self, kind: K) -> Result<(), AllocFailed<K>> {
        let n = self.times.entry(kind)?.or_insert(0);
        *n = n.wrapping_add(1);
        Ok(())
    }
}

// A line for each kind that came, in their order.
impl<K: Ord + Drop + fmt::Display> fmt::Display for Tally<K> {
    fn fmt<W: fmt::Write>(&self, f: &mut fmt::Formatter<W>) -> fmt::Result {
        for (kind, n) in &self.times {
            writeln!(f, "{kind}: {n}")?;
        }
        Ok(())
    }
}

// The number that a case's call answered.
#[derive(Clone, Copy, PartialEq, Eq, PartialOrd, Ord)]
struct Answered(u16);

impl fmt::Display for Answered {
    fn fmt<W: fmt::Write>(&self, f: &mut fmt::Formatter<W>) -> fmt::Result {
        let number = self.0;
        write!(f, "cases answered {number}")
    }
}

// Tries the cases of a file, a line a case; at the end prints how many cases got each answer.
pub fn try_cases<F: Fn(&str) -> io::Result<u16>>(
    rt: &(impl Files + Print + AllocGlobal),
    path: &str,
    try_case: F,
) -> io::Result<()>
    requires pre { (f : _) (x : _) → F.pre f x }
{
    let mut tally = Tally::new(rt.alloc());
    trial::each_line(rt, path, |line| {
        tally.add(Answered(try_case(line)?))?;
        Ok(())
    })?;
    print!(rt; "{tally}")
}
