// A log's text, laid into a buffer as far as it has places: so over a buffer without places the text is only measured.
#![tactic(auto)]

mod lines;

ghost use Rattle.std.specs.Prelude.{◌+◌, ◌^◌, ◌≤◌, ◌<◌, T};
ghost use Rattle.text.specs.Split.{line_from};
ghost use Rattle.layout.specs.Layout.{most_labels};
ghost use Rattle.log_buffer.specs.Meaning.{steps_in};
ghost use Rattle.log_buffer.specs.Valid.{is_log};
ghost use Rattle.log_texts.specs.Spelled.{step_in, steps_of, fields_of, step_lines, text_of};
ghost use Rattle.writing.specs.Put.{Put, Adds};

use lines::{put_header, put_line};
use writing::Output;

// A log buffer that passed its test, under some label count: then it passes under the most labels too.
#[derive(Clone, Copy)]
pub struct TestedLog<'a> {
    pub numbers: &'a [u16],
    ghost log_passes: { T (is_log most_labels numbers.now) },
}

impl<'a> TestedLog<'a> {
    // The line of a step.
    #[tactic(auto, using(crate::proofs::LineLaws::step_kit))]
    fn put_step(self, output: &mut Output, step: u16)
        requires step_bound { step < steps_in self.numbers.now }
        requires at_bound { output.old.at + 67 < 2 ^ 64 }
        ensures put { Adds (line_from (fields_of step (step_in self.entry.numbers.now step))) output.old output.new }
        ensures upper_bound { output.new.at ≤ output.old.at + 67 }
    {
        let v = usize::from(step);
        let from = layout::LINKS + usize::from(self.numbers[layout::BEGINS + v]);
        let to = layout::LINKS + usize::from(self.numbers[layout::BEGINS + (v + 1)]);
        put_line(
            output,
            step,
            self.numbers[layout::BOARDS + v],
            self.numbers[layout::LABEL_SETS + v],
            &self.numbers[from..to],
        );
    }

    // The lines of all steps.
    #[tactic(auto, using(crate::proofs::TextLaws::steps_kit))]
    fn put_steps(self, output: &mut Output)
        requires { output.old.at ≤ 26 }
        ensures { Adds (step_lines 0 (steps_of self.entry.numbers.now)) output.old output.new }
    {
        for step in 0..self.numbers[0] {
            self.put_step(output, step);
        }
    }
}

// The whole text, at the front of a buffer. Answers how long it is.
#[tactic(auto, using(crate::proofs::TextLaws::text_kit))]
pub fn lay_log(out: &mut [u8], log: TestedLog) -> usize
    ensures { Put (text_of log.entry.numbers.now) 0 out.old result out.new }
{
    let mut output = Output::new(out);
    put_header(&mut output);
    log.put_steps(&mut output);
    output.at
}
