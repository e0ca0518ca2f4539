// A line below the header: the leftmost field that is not what its column asks.
ghost use Rattle.std.specs.Prelude.{◌≡◌};
ghost use Rattle.text.specs.Split.{split};
ghost use Rattle.numbers.specs.Listed.{is_list};
ghost use Rattle.log_line.specs.Answers.{order_of};
ghost use Rattle.line_places.specs.Place.{as_place};
ghost use Rattle.log_places.specs.Place.{wrong_field, malformed_at};

use fields::Fields;
use line_places::place_where;
use log_line::header::ColumnOrder;
use log_line::preds::scan_preds;
use numbers::number_at;

// `-`, or numbers joined by commas.
fn is_list(field: &[u8]) -> bool
    ensures { result ≡ is_list field.now }
{
    scan_preds(field, 0).is_some()
}

// The field with this index is not what its column asks. One that is not there is empty, which is neither links nor a number.
#[tactic(auto, using(crate::proofs::MalformedLaws::wrong_field_kit))]
fn wrong_field<const N: usize>(fields: &Fields<N>, order: ColumnOrder, index: usize) -> bool
    ensures { result ≡ wrong_field (order_of order) (split 32 fields.now.line.now) index }
{
    if index == order.preds {
        return !is_list(fields.field(index));
    }
    match number_at(fields, index) {
        None => true,
        Some(number) => index == order.board && number > layout::MOST_BOARD,
    }
}

// The place of the leftmost such field; none where the number of fields is wrong.
#[tactic(auto, using(crate::proofs::MalformedLaws::malformed_kit))]
pub fn malformed_place(line: &[u8], order: ColumnOrder) -> Option<usize>
    ensures { result ≡ as_place (malformed_at (order_of order) (split 32 line.now)) }
{
    let fields = Fields::<8>::split(line);
    if fields.len() != 4 {
        return None;
    }
    place_where(&fields, |i| wrong_field(&fields, order, i))
}
