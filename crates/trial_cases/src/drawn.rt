// The generator.
use crate::argument;
use std::io;
use trial::Random;

pub fn show_seed(rt: &impl Print, what: &str, seed: &str) -> io::Result<()> {
    println!(rt; "{what}: {}", Random::new(argument(seed)).state)
}

pub fn show_first(rt: &impl Print) -> io::Result<()> {
    let mut r = Random::new(1);
    for i in 0..10 {
        r = r.next();
        println!(rt; "number after {i} others: {}", r.state)?;
    }
    println!(rt; "number 10000 from seed 1: {}", number_after(1, 10000))
}

fn number_after(seed: u64, count: u64) -> u64 {
    (0..count).fold(Random::new(seed), |r, _| r.next()).state
}

pub fn show_below(rt: &impl Print, what: &str, n: &str) -> io::Result<()> {
    println!(rt; "{what}: {}", Random::new(48271).below(argument(n)))
}
