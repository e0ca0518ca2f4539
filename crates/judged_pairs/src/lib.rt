// What the trials of the judge share: a pattern and a log drawn, and the library's judge on them. The rooms are made once and lent to each
// trial: answered by value, they would be copied in each.
#![tactic(auto)]

ghost use Rattle.std.specs.Prelude.{ℕ, ◌<◌};

use answer::Answer;
use random_inputs::{
    Labels, Links, LogRoom, PatternRoom, Shape, fill_noise, redraw_log, redraw_pattern,
};
use trial::Random;

// Tries this many pairs one after the other, each by its index, with numbers drawn from a seed.
pub fn try_pairs<F: FnMut(u64, &mut Random)>(pairs: u64, seed: u64, mut try_pair: F)
    requires { (state : F) (i : ℕ) → i < pairs → (random : _) → F.pre state i random }
{
    let mut random = Random::new(seed);
    for i in 0..pairs {
        try_pair(i, &mut random);
    }
}

#[derive(Clone, Copy)]
pub struct Pair {
    pub pattern: PatternRoom,
    pub log: LogRoom,
}

// A pair and a second log, and what the judge makes of the one log and of the other.
#[derive(Clone, Copy)]
pub struct TwoLogs {
    pub pair: Pair,
    pub second: LogRoom,
    pub one: Judged,
    pub two: Judged,
}

// The first number of the noise that a buffer of the judge is filled with before; without one it is all zeros.
#[derive(Clone, Copy, Default)]
pub struct Noise {
    pub result: Option<u16>,
    pub work: Option<u16>,
}

// What the library's judge answered last, and the rows and the work buffer that it left.
#[derive(Clone, Copy)]
pub struct Judged {
    pub answer: Answer,
    pub rows: [[u16; 10]; 1024],
    work: [u16; 16384],
}

impl Pair {
    pub fn new() -> Pair {
        Pair {
            pattern: PatternRoom::new(),
            log: LogRoom::new(),
        }
    }

    // Becomes a pattern of this many beads and a log with these links. The closure draws how many steps the log has.
    pub fn draw<F: FnOnce(&mut Random) -> u16>(
        &mut self,
        beads: u16,
        links: Option<Links>,
        random: &mut Random,
        draw_steps: F,
    )
        requires { F.IsAlwaysCallable draw_steps }
    {
        redraw_pattern(&mut self.pattern, beads, random);
        let steps = draw_steps(random);
        let shape = Shape {
            label_count: self.pattern.label_count(),
            labels: Labels::draw(random),
            links,
        };
        redraw_log(&mut self.log, steps, shape, random);
    }
}

impl TwoLogs {
    pub fn new() -> TwoLogs {
        TwoLogs {
            pair: Pair::new(),
            second: LogRoom::new(),
            one: Judged::new(),
            two: Judged::new(),
        }
    }

    pub fn judge(&mut self) {
        let pattern = &self.pair.pattern;
        self.one.judge(pattern, &self.pair.log, Noise::default());
        self.two.judge(pattern, &self.second, Noise::default());
    }
}

impl Judged {
    // Nothing is judged yet.
    pub fn new() -> Judged {
        Judged {
            answer: answer::accepted(0),
            rows: [[0; 10]; 1024],
            work: [0; 16384],
        }
    }

    pub fn judge(&mut self, pattern: &PatternRoom, log: &LogRoom, noise: Noise) {
        let result = self.rows.as_flattened_mut();
        fill(result, noise.result);
        fill(&mut self.work, noise.work);
        self.answer = judge(&pattern.numbers, &log.numbers, result, &mut self.work);
    }

    pub fn is_refused(&self) -> bool {
        !self.answer.is_accepted()
    }

    // Did the judge leave the work buffer all zeros?
    pub fn is_cleared(&self) -> bool {
        self.work.iter().all(|x| *x == 0)
    }
}

fn fill(buffer: &mut [u16], noise: Option<u16>) {
    match noise {
        Some(from) => fill_noise(buffer, from),
        None => buffer.fill(0),
    }
}

// The library's judge, without its contract: nothing here rests on it.
fn judge(pattern: &[u16], log: &[u16], rows: &mut [u16], work: &mut [u16]) -> Answer {
    judging::judge(pattern, log, rows, work)
}
