// The report's lines, each put behind what an output has. They are functions and no `Display`, for
// the reasons in `writing`.
#![tactic(auto)]

ghost use Rattle.std.specs.Prelude.{◌+◌, ◌-◌, ◌^◌, ◌≤◌, ◌<◌, ◌≡◌, ◌++◌, ◌∷◌, [], length};
ghost use Rattle.numbers.specs.Numbers.{spell};
ghost use Rattle.sets.specs.Sets.{member};
ghost use Rattle.layout.specs.Layout.{row_length};
ghost use Rattle.writing.specs.Put.{Adds};
ghost use Rattle.report_lines.specs.Lines.{header_text, pivots_word, row_text, refusal_text};

use answer::Answer;
use writing::Output;

#[tactic(auto, using(crate::proofs::LineLaws::kit))]
pub fn put_header(output: &mut Output)
    requires { output.old.at + 23 < 2 ^ 64 }
    ensures { Adds header_text output.old output.new }
{
    output.put_bytes(b"vertex prefixes pivots\n");
}

// Bytes, a number, and a byte behind it.
#[tactic(auto, using(crate::proofs::LineLaws::kit))]
fn put_named(output: &mut Output, name: &[u8], n: u16, end: u8)
    requires { output.old.at + length name.now + 6 < 2 ^ 64 }
    ensures put { Adds (name.now ++ (spell n ++ (end ∷ []))) output.old output.new }
    ensures upper_bound { output.new.at ≤ output.old.at + length name.now + 6 }
{
    output.put_bytes(name);
    output.put_ended(n, end);
}

// The line of a refusal.
#[tactic(auto, using(crate::proofs::LineLaws::kit))]
pub fn put_refusal(output: &mut Output, a: Answer)
    requires { output.old.at + 36 < 2 ^ 64 }
    ensures { Adds (refusal_text a) output.old output.new }
{
    put_named(output, b"refused ", a.number, b' ');
    put_named(output, b"line ", a.line, b' ');
    put_named(output, b"byte ", a.byte, b'\n');
}

// The line of a step under a pattern of this many beads, from the step's row in the result buffer.
#[tactic(auto, using(crate::proofs::LineLaws::kit))]
pub fn put_row(output: &mut Output, beads: u16, step: u16, row: &[u16])
    requires row_len { length row.now ≡ row_length }
    requires at_bound { output.old.at + 67 < 2 ^ 64 }
    ensures put { Adds (row_text beads step row.now) output.old output.new }
    ensures upper_bound { output.new.at ≤ output.old.at + 67 }
{
    output.put_ended(step, b' ');
    output.put_ended(row[0], b' ');
    put_pivots(output, beads, row);
    output.put_byte(b'\n');
}

#[tactic(auto, using(crate::proofs::LineLaws::kit))]
fn put_pivots(output: &mut Output, beads: u16, row: &[u16])
    requires row_len { length row.now ≡ row_length }
    requires at_bound { output.old.at + 54 < 2 ^ 64 }
    ensures put { Adds (pivots_word beads row.now) output.old output.new }
    ensures upper_bound { output.new.at ≤ output.old.at + 54 }
{
    if whole_holds(beads, row[0]) {
        let others = usize::from(beads).min(layout::MOST_BEADS);
        output.put_number(row[1]);
        output.put_listed(b',', &row[2..2 + others]);
    } else {
        output.put_byte(b'-');
    }
}

// Does the whole pattern, of this many beads, hold where this set of prefixes does?
#[tactic(auto, using(crate::proofs::LineLaws::kit))]
fn whole_holds(beads: u16, prefixes: u16) -> bool
    ensures { result ≡ member (beads - 1) prefixes }
{
    usize::from(beads) <= layout::SET_WIDTH && sets::member(prefixes, beads.saturating_sub(1))
}
