// Pseudo-random numbers: Lehmer's generator with the multiplier 48271 and the modulus 2147483647,
// a prime.
ghost use Rattle.std.specs.Prelude.{◌-◌, ◌≤◌};

#[derive(Clone, Copy)]
pub struct Random {
    pub state: u64,
}

impl Random {
    // The seed's remainder, or 1 where that is 0.
    pub fn new(seed: u64) -> Random {
        Random {
            state: (seed % 2147483647).max(1),
        }
    }

    // The state's remainder is taken first, so that no product wraps.
    pub fn next(self) -> Random {
        Random {
            state: self.state % 2147483647 * 48271 % 2147483647,
        }
    }

    // The state reduced below n; 0 where n is 0.
    pub fn below(self, n: u64) -> u64
        ensures { result ≤ n - 1 }
    {
        self.state.checked_rem(n).unwrap_or(0)
    }

    // Goes on to the next number, and reduces it below n.
    pub fn draw(&mut self, n: u64) -> u64
        ensures { result ≤ n - 1 }
    {
        *self = self.next();
        self.below(n)
    }
}
