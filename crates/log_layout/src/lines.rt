// The lines of a log's text, each put behind what an output has.
ghost use Rattle.std.specs.Prelude.{◌+◌, ◌^◌, ◌≤◌, ◌<◌, length};
ghost use Rattle.text.specs.Split.{line_from};
ghost use Rattle.numbers.specs.Listed.{list_word};
ghost use Rattle.layout.specs.Layout.{most_preds};
ghost use Rattle.log_line.specs.Step.{Step};
ghost use Rattle.log_texts.specs.Spelled.{fields_of, header_line};
ghost use Rattle.writing.specs.Put.{Adds};

use writing::Output;

#[tactic(auto, using(crate::proofs::LineLaws::line_kit))]
pub fn put_header(output: &mut Output)
    requires { output.old.at + 26 < 2 ^ 64 }
    ensures { Adds header_line output.old output.new }
{
    output.put_bytes(b"vertex board labels preds\n");
}

// `-`, or the links joined by commas.
#[tactic(auto, using(crate::proofs::LineLaws::preds_kit))]
fn put_preds(output: &mut Output, preds: &[u16])
    requires preds_len_bound { length preds.now ≤ most_preds }
    requires at_bound { output.old.at + 48 < 2 ^ 64 }
    ensures put { Adds (list_word preds.now) output.old output.new }
    ensures upper_bound { output.new.at ≤ output.old.at + 48 }
{
    match preds {
        [] => output.put_byte(b'-'),
        [first, others @ ..] => {
            output.put_number(*first);
            output.put_listed(b',', others);
        }
    }
}

// The line of a step with this board, this label set and these links.
#[tactic(auto, using(crate::proofs::LineLaws::line_kit))]
pub fn put_line(output: &mut Output, step: u16, board: u16, labels: u16, preds: &[u16])
    requires preds_len_bound { length preds.now ≤ most_preds }
    requires at_bound { output.old.at + 67 < 2 ^ 64 }
    ensures put { Adds (line_from (fields_of step (record { board = board; labels = labels; preds = preds.now }))) output.old output.new }
    ensures upper_bound { output.new.at ≤ output.old.at + 67 }
{
    output.put_ended(step, b' ');
    output.put_ended(board, b' ');
    output.put_ended(labels, b' ');
    put_preds(output, preds);
    output.put_byte(b'\n');
}
