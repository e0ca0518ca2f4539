// What the program prints, as bytes in a buffer. No input or output.
#![tactic(auto)]

ghost use Rattle.std.specs.Prelude.{◌*◌, ◌≤◌, ◌++◌, length};
ghost use Rattle.layout.specs.Layout.{row_length};
ghost use Rattle.writing.specs.Put.{Put, Adds};
ghost use Rattle.report_lines.specs.Lines.{header_text, refusal_text};
ghost use Rattle.report.specs.Report.{row_lines};

use answer::Answer;
use report_lines::{put_header, put_row};
use writing::Output;

// The header, and a line for each step from its row in the result buffer, at the front of a buffer.
// Answers how long that is.
#[tactic(auto, using(crate::proofs::RowsLaws::kit))]
pub fn put_rows(out: &mut [u8], beads: u16, steps: u16, res: &[u16]) -> usize
    requires { row_length * steps ≤ length res.now }
    ensures { Put (header_text ++ row_lines beads steps res.now) 0 out.old result out.new }
{
    let mut output = Output::new(out);
    put_header(&mut output);
    put_lines(&mut output, beads, steps, res);
    output.at
}

// The line of a refusal alone, at the front of a buffer. Answers how long that is.
pub fn put_refusal(out: &mut [u8], a: Answer) -> usize
    ensures { Put (refusal_text a) 0 out.old result out.new }
{
    let mut output = Output::new(out);
    report_lines::put_refusal(&mut output, a);
    output.at
}

#[tactic(auto, using(crate::proofs::RowsLaws::kit))]
fn put_lines(output: &mut Output, beads: u16, steps: u16, res: &[u16])
    requires steps_in_bounds { row_length * steps ≤ length res.now }
    requires at_bound { output.old.at ≤ 23 }
    ensures { Adds (row_lines beads steps res.now) output.old output.new }
{
    for (step, row) in (0..steps).zip(res.chunks_exact(layout::ROW_LENGTH)) {
        put_row(output, beads, step, row);
    }
}
