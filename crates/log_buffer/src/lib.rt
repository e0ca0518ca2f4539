// The numbers of a lent log buffer, each read under its name; and the test of its links: are they those that an accepted log text gives?
// No number of the buffer is used as a place before it has been looked at.
#![tactic(auto)]

ghost use Rattle.std.specs.Prelude.{◌≡◌, ◌<◌, ◌≤◌, ◌+◌, ◌-◌, ℕ, List, true, length, MatchOption};
ghost use Rattle.lists.specs.Places.{at};
ghost use Rattle.sets.specs.Sets.{all_below};
ghost use Rattle.layout.specs.Layout.{log_length, most_steps, most_links, labels_at, board_at, begin_at, link_at};
ghost use Rattle.log_buffer.specs.Meaning.{steps_in};
ghost use Rattle.log_buffer.specs.Valid.{begin_ok, link_ok, links_ok, rest_ok, graph_ok};

use std::marker::Model;

// A lent buffer as long as a log's. One generic type for both buffers is no plainer: it would share `new` alone, since each method names a
// place of its own format, and without `Model`, which a const parameter beside a reference rules out, each clause would name the field.
#[derive(Drop)]
pub struct LogNumbers<'a> {
    numbers: &'a [u16],
}

// In contracts it is the list of its numbers.
impl<'a> Model for LogNumbers<'a> {
    ghost Value = { List ℕ };

    ghost view = { λ log. log.numbers.now };

    ghost invariant = { λ log. log_length ≤ length log.numbers.now };
}

impl<'a> LogNumbers<'a> {
    // None where the buffer is too short.
    pub fn new(numbers: &'a [u16]) -> Option<Self>
        ensures { MatchOption result (length numbers.now < log_length) (λ log. log ≡ numbers.now) }
    {
        if numbers.len() < layout::LOG_LENGTH {
            None
        } else {
            Some(LogNumbers { numbers })
        }
    }

    pub fn steps(&self) -> usize
        ensures { result ≡ steps_in self.now }
    {
        usize::from(self.numbers[0])
    }

    // The label set and the board of the step v.
    pub fn label_set(&self, v: usize) -> u16
        requires { v < most_steps }
        ensures { result ≡ at self.now (labels_at v) }
    {
        self.numbers[layout::LABEL_SETS + v]
    }

    pub fn board(&self, v: usize) -> u16
        requires { v < most_steps }
        ensures { result ≡ at self.now (board_at v) }
    {
        self.numbers[layout::BOARDS + v]
    }

    // Where its links begin; and, past the last step, how many there are in all.
    pub fn begin(&self, v: usize) -> usize
        requires { v ≤ most_steps }
        ensures { result ≡ at self.now (begin_at v) }
    {
        usize::from(self.numbers[layout::BEGINS + v])
    }

    // The link at place i.
    pub fn link(&self, i: usize) -> usize
        requires { i < most_links }
        ensures { result ≡ at self.now (link_at i) }
    {
        usize::from(self.numbers[layout::LINKS + i])
    }

    // Where the links of the step after v begin: 1 to 8 places after those of v, and for step 0 at the same; zeros past the last step.
    fn begin_ok(&self, v: usize) -> bool
        requires { v < most_steps }
        ensures { result ≡ begin_ok self.now v }
    {
        let begin = self.begin(v);
        let end = self.begin(v + 1);
        if v >= self.steps() {
            end == 0
        } else if v == 0 {
            end == begin
        } else {
            begin < end && end - begin <= layout::MOST_PREDS
        }
    }

    // The places where the links of all steps begin.
    fn all_begins(&self) -> bool
        ensures { result ≡ all_below most_steps (begin_ok self.now) }
    {
        (0..layout::MOST_STEPS).all(|v| self.begin_ok(v))
    }

    // The link at place i, one of step v: smaller than v, and larger than the one before it where it is not the first of v.
    fn link_ok(&self, v: usize, i: usize) -> bool
        requires { (v < most_steps) × (at self.now (begin_at v) ≤ i) × (i < most_links) }
        ensures { result ≡ link_ok self.now v i }
    {
        let u = self.link(i);
        u < v && (i == self.begin(v) || self.link(i - 1) < u)
    }

    // The links of step v.
    fn links_ok(&self, v: usize) -> bool
        requires v_bound { v < most_steps }
        requires end_bound { v < steps_in self.now → at self.now (begin_at (v + 1)) ≤ most_links }
        ensures { result ≡ links_ok self.now v }
    {
        v >= self.steps() || (self.begin(v)..self.begin(v + 1)).all(|i| self.link_ok(v, i))
    }

    // The links of all steps, whose places have been looked at.
    fn all_links(&self) -> bool
        requires steps_bound { steps_in self.now ≤ most_steps }
        requires begins { all_below most_steps (begin_ok self.now) ≡ true }
        requires total_bound { at self.now (begin_at (steps_in self.now)) ≤ most_links }
        ensures { result ≡ all_below most_steps (links_ok self.now) }
    {
        (0..layout::MOST_STEPS).all(|v| self.links_ok(v))
    }

    // Zeros past the last link.
    fn all_rest(&self) -> bool
        requires steps_bound { steps_in self.now ≤ most_steps }
        requires total_bound { at self.now (begin_at (steps_in self.now)) ≤ most_links }
        ensures { result ≡ all_below most_links (rest_ok self.now) }
    {
        let total = self.begin(self.steps());
        (total..layout::MOST_LINKS).all(|i| self.link(i) == 0)
    }

    // The links' places, then the links.
    pub fn graph_ok(&self) -> bool
        requires { steps_in self.now ≤ most_steps }
        ensures { result ≡ graph_ok self.now }
    {
        self.begin(0) == 0
            && self.all_begins()
            && self.begin(self.steps()) <= layout::MOST_LINKS
            && self.all_links()
            && self.all_rest()
    }
}
