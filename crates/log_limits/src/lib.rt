// A line below the header: the leftmost field that is over a limit.
#![tactic(auto)]

ghost use Rattle.std.specs.Prelude.{◌≡◌, length};
ghost use Rattle.text.specs.Split.{split};
ghost use Rattle.numbers.specs.Listed.{list_of};
ghost use Rattle.log_line.specs.Answers.{order_of};
ghost use Rattle.line_places.specs.Place.{as_place};
ghost use Rattle.log_places.specs.Place.{over_limit_at, limit_at};

use fields::{Fields, field_count};
use line_places::place_where;
use log_line::header::ColumnOrder;
use log_line::limits::{has_too_many, is_late};
use log_line::preds::is_none;

// How many links the field lists. An empty one, as one that is not there counts, has one part.
#[tactic(auto, using(crate::proofs::LimitLaws::count_kit))]
pub fn link_count(field: &[u8]) -> usize
    ensures { result ≡ length (list_of field.now) }
{
    if is_none(field) {
        0
    } else {
        field_count(field, b',')
    }
}

// How far a log has been read, before a line: where the columns are, which step the line speaks of, and how many links those before it list. No
// `Position`: that is of a log that passed so far, within its limits, and this of any text.
#[derive(Clone, Copy)]
pub struct Progress {
    pub order: ColumnOrder,
    pub step: usize,
    pub links: usize,
}

impl Progress {
    // The field with this index of the line is over a limit.
    #[tactic(auto, using(crate::proofs::LimitLaws::limit_kit))]
    fn over_limit<const N: usize>(&self, fields: &Fields<N>, index: usize) -> bool
        ensures { result ≡ over_limit_at self.now.links (order_of self.now.order) self.now.step (split 32 fields.now.line.now) index }
    {
        let late = index == self.order.vertex && is_late(self.step);
        late || index == self.order.preds
            && has_too_many(link_count(fields.field(self.order.preds)), self.links)
    }

    // The place of the leftmost such field.
    pub fn limit_place(&self, line: &[u8]) -> Option<usize>
        ensures { result ≡ as_place (limit_at self.now.links (order_of self.now.order) self.now.step (split 32 line.now)) }
    {
        let fields = Fields::<8>::split(line);
        place_where(&fields, |i| self.over_limit(&fields, i))
    }
}
