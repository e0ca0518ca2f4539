// The byte of a refused log text: where in the line at fault.
#![tactic(auto)]

ghost use Rattle.std.specs.Prelude.{◌≡◌, cond, eqb};
ghost use Rattle.text.specs.Split.{split};
ghost use Rattle.log_line.specs.Answers.{order_of};
ghost use Rattle.log_line.specs.Step.{step_at, link_count};
ghost use Rattle.line_places.specs.Place.{as_place, line_at, ranked_at};
ghost use Rattle.layout.specs.Layout.{most_line};
ghost use Rattle.log_places.specs.Place.{limit_at};
ghost use Rattle.log_byte.specs.Byte.{columns_named, steps_before, place_in, log_byte};

use fields::{Fields, first_length};
use line_places::{inspect_line, place_at};
use log_limits::{Progress, link_count};
use log_line::header::{ColumnOrder, columns_of};
use log_places::header::header_place;
use log_places::malformed::malformed_place;

// The columns that the first line names.
#[tactic(auto, using(crate::proofs::LinkLaws::named_kit))]
fn columns_named(text: &[u8]) -> ColumnOrder
    ensures { order_of result ≡ columns_named text.now }
{
    let n = first_length(text, b'\n');
    columns_of(&Fields::<8>::split(&text[..n]))
}

// The step that a line's number calls for.
fn step_of(line: u16) -> usize
    ensures { result ≡ step_at line }
{
    usize::from(line.saturating_sub(2))
}

// How many links the lines below the header and before this one list in this column, which is `preds`. The place goes on by a line's length, so the
// `for` counts lines alone.
#[tactic(auto, using(crate::proofs::LinkLaws::links_kit))]
fn links_before(text: &[u8], column: usize, line: u16) -> usize
    requires { column ≡ (columns_named text.now).preds }
    ensures { result ≡ link_count (steps_before text.now line) }
{
    let steps = step_of(line);
    let mut at = first_length(text, b'\n') + 1;
    let mut links = 0;
    for v in 0..steps {
        if at >= text.len() {
            return links;
        }
        let end = at + first_length(&text[at..], b'\n');
        let fields = Fields::<8>::split(&text[at..end]);
        links += link_count(fields.field(column));
        at = end + 1;
    }
    links
}

// 26 in a line below the header: a step or a link too many. In line 1 it is: no step at all.
#[tactic(auto, using(crate::proofs::ByteLaws::over_kit))]
fn over_place(text: &[u8], order: ColumnOrder, line: u16, bytes: &[u8]) -> Option<usize>
    requires { order_of order ≡ columns_named text.now }
    ensures { result ≡ as_place (cond (eqb line 1) 0 (limit_at (link_count (steps_before text.now line)) (columns_named text.now) (step_at line) (split 32 bytes.now))) }
{
    if line == 1 {
        return None;
    }
    let progress = Progress {
        order,
        step: step_of(line),
        links: links_before(text, order.preds, line),
    };
    progress.limit_place(bytes)
}

// The place at fault in a line that is whole, with these bytes, by the columns that the text names. By number, for the reason that stands
// at `byte_of`.
#[tactic(auto, using(crate::proofs::ByteLaws::in_kit))]
fn place_in(text: &[u8], number: u16, line: u16, bytes: &[u8]) -> Option<usize>
    ensures { result ≡ as_place (place_in text.now number line bytes.now) }
{
    let order = columns_named(text);
    match number {
        21 => malformed_place(bytes, order),
        22 => header_place(bytes),
        23 => place_at(bytes, order.vertex),
        24 => place_at(bytes, order.preds),
        25 => place_at(bytes, order.labels),
        26 => over_place(text, order, line, bytes),
        _ => None,
    }
}

// What makes the line not whole ranks before what is wrong in its fields. As in `pattern_byte`, over this format's `place_in`, which takes the text
// too: one function for both would be a closure's, and no shorter.
#[tactic(auto, using(crate::proofs::ByteLaws::line_kit))]
fn ranked_place(text: &[u8], number: u16, line: u16) -> Option<usize>
    ensures { result ≡ as_place (ranked_at most_line (line_at text.now line) (place_in text.now number line (line_at text.now line).bytes)) }
{
    match inspect_line(text, usize::from(line), layout::MOST_LINE) {
        Err(place) => place,
        Ok((start, end)) => place_in(text, number, line, &text[start..end]),
    }
}

// The byte of a text refused with this number in this line; 0 where no single place is at fault. It answers for every number, as its
// definition does, so it takes no enum, which has fewer.
#[tactic(auto, using(crate::proofs::ByteLaws::byte_kit))]
pub fn byte_of(text: &[u8], number: u16, line: u16) -> u16
    ensures { result ≡ log_byte text.now number line }
{
    if number < 21 {
        return 0;
    }
    ranked_place(text, number, line).unwrap_or(0) as u16
}
