// Rows of the result, written one after the other.
#![tactic(auto)]

ghost use Rattle.std.specs.Prelude.{◌≡◌, ◌++◌, ◌-◌, ◌*◌, ◌≤◌, ◌<◌, length, drop, get_or};
ghost use Rattle.rows.specs.Rows.{pivot_or, row_from, rows_from, whole_from};
ghost use Rattle.sets.specs.Sets.{member};
ghost use Rattle.layout.specs.Layout.{most_beads, most_steps, pivot_places, row_length};

// Does the pattern of so many beads hold whole, by a set of prefixes?
pub fn is_whole(beads: u16, prefixes: u16) -> bool
    requires { (1 ≤ beads) × (beads ≤ most_beads) }
    ensures { result ≡ member (beads - 1) prefixes }
{
    sets::member(prefixes, beads - 1)
}

// What the two phases found: for each step the set of the prefixes that hold there, and the places of the pivots, 1,024 a bead.
#[derive(Clone, Copy)]
pub struct Found<'a> {
    pub beads: u16,
    pub steps: usize,
    pub prefixes: &'a [u16],
    pub pivots: &'a [u16],
    ghost beads_bound: { (1 ≤ beads) × (beads ≤ most_beads) },
    ghost steps_bound: { steps ≤ most_steps },
    ghost long: { (most_steps ≤ length prefixes.now) × (pivot_places ≤ length pivots.now) },
}

impl<'a> Found<'a> {
    // The number of a row at its place k + 1: a pivot, or 0.
    fn pivot_or_zero(&self, whole: bool, k: usize, step: usize) -> u16
        requires { (k < 9) × (step < most_steps) }
        ensures { result ≡ pivot_or self.now.beads whole k step self.now.pivots.now }
    {
        if whole && k <= usize::from(self.beads) {
            self.pivots[layout::MOST_STEPS * k + step]
        } else {
            0
        }
    }

    // Writes the row of a step into the ten numbers that are lent. By index, which is a pivot's number: `row[1..].iter_mut().enumerate()` is as long.
    #[tactic(auto, using(crate::proofs::RowLaws::row_kit))]
    fn write_row(&self, row: &mut [u16], step: usize)
        requires { (length row.old ≡ row_length) × (step < most_steps) }
        ensures { row.new ≡ row_from self.now.beads step (get_or self.now.prefixes.now step 0) self.now.pivots.now }
    {
        let prefixes = self.prefixes[step];
        let whole = is_whole(self.beads, prefixes);
        row[0] = prefixes;
        for k in 0..=layout::MOST_BEADS {
            row[k + 1] = self.pivot_or_zero(whole, k, step);
        }
    }

    // Writes the rows of all steps. By index: over `chunks_exact_mut` the proof did not close, since its invariant cannot name what is written.
    #[tactic(auto, using(crate::proofs::RowLaws::rows_kit))]
    pub fn write_rows(&self, res: &mut [u16])
        requires { row_length * self.now.steps ≤ length res.old }
        ensures { res.new ≡ rows_from self.now.beads self.now.prefixes.now self.now.pivots.now self.now.steps ++ drop (row_length * self.now.steps) res.old }
    {
        for step in 0..self.steps {
            let from = layout::ROW_LENGTH * step;
            self.write_row(&mut res[from..from + layout::ROW_LENGTH], step);
        }
    }
}

// Counts the steps below n at which the whole pattern holds. No method of `Found`: that would ask for the pivots too, which are nothing to it.
pub fn count_whole(beads: u16, n: usize, prefixes: &[u16]) -> u16
    requires { (1 ≤ beads) × (beads ≤ most_beads) × (n ≤ most_steps) × (most_steps ≤ length prefixes.now) }
    ensures { result ≡ whole_from beads prefixes.now n }
{
    prefixes[..n]
        .iter()
        .filter(|set| is_whole(beads, **set))
        .count() as u16
}
