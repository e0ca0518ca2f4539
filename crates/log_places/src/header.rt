// The header: the leftmost name that is wrong.
ghost use Rattle.std.specs.Prelude.{◌≡◌, not, ◌||◌, ltb};
ghost use Rattle.text.specs.Split.{split};
ghost use Rattle.log_line.specs.Answers.{order_of};
ghost use Rattle.line_places.specs.Place.{as_place};
ghost use Rattle.log_places.specs.Place.{header_at};
ghost use Rattle.log_places.specs.inner.Names.{is_place};

use fields::Fields;
use line_places::place_where;
use log_line::header::{ColumnOrder, columns_of};

// The name with this index is wrong, as the columns show: none of them stands there, or it is a fifth. A name that stands before has its column
// there, so it has none here.
fn is_wrong(order: ColumnOrder, index: usize) -> bool
    ensures { result ≡ (not (is_place (order_of order) index) || not (ltb index 4)) }
{
    let is_place = index == order.vertex
        || index == order.board
        || index == order.labels
        || index == order.preds;
    !is_place || index >= 4
}

// The place of the leftmost name that is wrong.
pub fn header_place(line: &[u8]) -> Option<usize>
    ensures { result ≡ as_place (header_at (split 32 line.now)) }
{
    let fields = Fields::<8>::split(line);
    let order = columns_of(&fields);
    place_where(&fields, |i| is_wrong(order, i))
}
