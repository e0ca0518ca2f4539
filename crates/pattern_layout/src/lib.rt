// The rows of a pattern buffer, put behind what an output has: a line for each state of each bead.
// As in `writing`, no function asks for room.
#![tactic(auto)]

ghost use Rattle.std.specs.Prelude.{◌+◌, ◌^◌, ◌≤◌, ◌<◌, ◌++◌, ◌∷◌, [], T, length};
ghost use Rattle.rules.specs.Rules.{word_of};
ghost use Rattle.text.specs.Split.{line_from};
ghost use Rattle.writing.specs.Put.{Adds};
ghost use Rattle.layout.specs.Layout.{states_at, most_labels};
ghost use Rattle.lists.specs.Places.{at};
ghost use Rattle.pattern_buffer.specs.Meaning.{beads_in};
ghost use Rattle.pattern_buffer.specs.Valid.{is_pattern};
ghost use Rattle.pattern_texts.specs.Spelled.{row_in, rows_of_bead, state_lines_of, fields_of, row_lines};
ghost use Rattle.pattern_layout.specs.Parts.{row_start, row_end, start_room, end_room, row_room, bead_room, rows_room};

use writing::Output;

// The word of a rule, which is the buffer's number, and a space.
#[tactic(auto, using(crate::proofs::LineLaws::rule_kit))]
fn put_rule(output: &mut Output, rule: u16)
    requires { output.old.at + 5 < 2 ^ 64 }
    ensures put { Adds (word_of rule ++ (32 ∷ [])) output.old output.new }
    ensures upper_bound { output.new.at ≤ output.old.at + 5 }
{
    output.put_bytes(rules::word_of(rule));
    output.put_byte(b' ');
}

// Bead, rule and state, each with a space behind it. The rule is the buffer's number.
#[tactic(auto, using(writing::proofs::PutLaws::kit))]
fn put_start(output: &mut Output, bead: u16, rule: u16, state: u16)
    requires { output.old.at + start_room < 2 ^ 64 }
    ensures put { Adds (row_start bead rule state) output.old output.new }
    ensures upper_bound { output.new.at ≤ output.old.at + start_room }
{
    output.put_ended(bead, b' ');
    put_rule(output, rule);
    output.put_ended(state, b' ');
}

// Final, the next sets, each behind a space, and the newline.
#[tactic(auto, using(writing::proofs::PutLaws::kit))]
fn put_end(output: &mut Output, accepting: u16, sets: &[u16])
    requires few_sets { length sets.now ≤ most_labels }
    requires at_bound { output.old.at + end_room < 2 ^ 64 }
    ensures put { Adds (row_end accepting sets.now) output.old output.new }
    ensures upper_bound { output.new.at ≤ output.old.at + end_room }
{
    output.put_number(accepting);
    output.put_listed(b' ', sets);
    output.put_byte(b'\n');
}

// A pattern buffer that passed its test.
#[derive(Clone, Copy)]
pub struct TestedPattern<'a> {
    pub numbers: &'a [u16],
    ghost pattern_passes: { T (is_pattern numbers.now) },
}

impl<'a> TestedPattern<'a> {
    // The line of the state q of the bead at place j.
    #[tactic(auto, using(crate::proofs::LineLaws::place_kit))]
    fn put_row(self, output: &mut Output, j: u16, q: u16)
        requires bead { j < beads_in self.numbers.now }
        requires state { q < at self.numbers.now (states_at j) }
        requires at_bound { output.old.at + row_room < 2 ^ 64 }
        ensures put { Adds (line_from (fields_of (row_in self.entry.numbers.now j q))) output.old output.new }
        ensures upper_bound { output.new.at ≤ output.old.at + row_room }
    {
        let bead = usize::from(j);
        let accepting = sets::member(self.numbers[layout::FINAL_SETS + bead], q);
        let from = layout::next_sets_at(bead, usize::from(q));
        let labels = usize::from(self.numbers[0]);
        put_start(output, j + 1, self.numbers[layout::RULES + bead], q);
        put_end(
            output,
            u16::from(accepting),
            &self.numbers[from..from + labels],
        );
    }

    // The lines of the bead at place j, states upwards.
    #[tactic(auto, using(crate::proofs::RowLaws::bead_kit))]
    fn put_bead(self, output: &mut Output, j: u16)
        requires bead { j < beads_in self.numbers.now }
        requires at_bound { output.old.at + bead_room < 2 ^ 64 }
        ensures put { Adds (row_lines (rows_of_bead self.entry.numbers.now j (at self.entry.numbers.now (states_at j)))) output.old output.new }
        ensures upper_bound { output.new.at ≤ output.old.at + bead_room }
    {
        for q in 0..self.numbers[layout::STATE_COUNTS + usize::from(j)] {
            self.put_row(output, j, q);
        }
    }

    // The lines of all beads, upwards.
    #[tactic(auto, using(crate::proofs::RowLaws::beads_kit))]
    pub fn put_beads(self, output: &mut Output)
        requires { output.old.at + rows_room < 2 ^ 64 }
        ensures { Adds (row_lines (state_lines_of self.entry.numbers.now)) output.old output.new }
    {
        for j in 0..self.numbers[1] {
            self.put_bead(output, j);
        }
    }
}
