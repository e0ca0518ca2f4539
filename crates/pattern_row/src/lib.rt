// A line below the header: its fields, then what it says.
#![tactic(auto)]

ghost use Rattle.std.specs.Prelude.{◌≡◌, ◌≤◌, take, drop};
ghost use Rattle.layout.specs.Layout.{most_labels};
ghost use Rattle.pattern_line.specs.Line.{fields_of, field_at};
ghost use Rattle.pattern_order.specs.inner.Answers.{line_said, rows_at};
ghost use Rattle.pattern_row.specs.inner.Answers.{values_read, row_judged, row_said, next_sets};
ghost use Rattle.numbers.specs.Numbers.{number_of};
ghost use Rattle.numbers.specs.Listed.{are_numbers};

use fields::Fields;
use layout::PATTERN_FIELDS;
use pattern_line::refusals::Refusal;
use pattern_order::{LineValues, judge_values};

// The number in the field with this index, by a call: `numbers::number_at` is put where it is asked, which pays for the four fields of a log's line,
// and not for the twenty of a row.
#[inline(never)]
fn number_at(fields: &Fields<PATTERN_FIELDS>, index: usize) -> Option<u16>
    ensures { result ≡ number_of (field_at fields.now.line.now index) }
{
    numbers::number_at(fields, index)
}

// The numbers among the first four fields, and the rule; none where a number is missing.
#[tactic(auto, using(crate::proofs::RowLaws::values_kit))]
fn read_values(fields: &Fields<PATTERN_FIELDS>) -> Option<LineValues>
    ensures { result ≡ values_read (fields_of fields.now.line.now) }
{
    let bead = number_at(fields, 0)?;
    let rule = rules::rule_of(fields.field(1));
    let state = number_at(fields, 2)?;
    let accepting = number_at(fields, 3)?;
    Some(LineValues {
        bead,
        rule,
        state,
        accepting,
    })
}

// The next sets: the numbers of the fields after the first four, and 0 for the labels that the line lacks. Only the fields that are there are
// looked at, each once, so beside the sets stands: are they numbers? It counts by an index, since after `iter_mut().enumerate()` nothing is
// known of the array.
#[tactic(auto, using(crate::proofs::RowLaws::sets_kit))]
fn read_next(fields: &Fields<PATTERN_FIELDS>) -> ([u16; layout::MOST_LABELS], bool)
    ensures sets { result.0 ≡ next_sets (fields_of fields.now.line.now) }
    ensures numbers { result.1 ≡ are_numbers (take most_labels (drop 4 (fields_of fields.now.line.now))) }
{
    let mut next = [0; layout::MOST_LABELS];
    let mut numbers = true;
    for a in 0..fields.len().saturating_sub(4).min(layout::MOST_LABELS) {
        let set = number_at(fields, 4 + a);
        next[a] = set.unwrap_or(0);
        if set.is_none() {
            numbers = false;
        }
    }
    (next, numbers)
}

// What the line says after the line before; its next sets are left in `next`. The line is split once.
#[tactic(auto, using(crate::proofs::RowLaws::row_kit))]
pub fn read_row(
    line: &[u8],
    labels: u16,
    last: Option<LineValues>,
    next: &mut [u16; layout::MOST_LABELS],
) -> Result<LineValues, Refusal>
    requires { labels ≤ most_labels }
    ensures result_value { result ≡ row_judged labels (rows_at last) (fields_of line.now) }
    ensures said { line_said result ≡ row_said labels (rows_at last) (fields_of line.now) }
    ensures next_after { next.new ≡ next_sets (fields_of line.now) }
{
    let fields: Fields<PATTERN_FIELDS> = Fields::split(line);
    let (sets, numbers) = read_next(&fields);
    *next = sets;
    if fields.len() != 4 + usize::from(labels) || !numbers {
        return Err(Refusal::Malformed);
    }
    let values = read_values(&fields).ok_or(Refusal::Malformed)?;
    judge_values(values, last)
}
