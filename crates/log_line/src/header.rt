// The first line: the names of the four columns, in any order.
ghost use Rattle.std.specs.Prelude.{◌≡◌, ◌&&◌, ltb};
ghost use Rattle.text.specs.Split.{split};
ghost use Rattle.log_line.specs.Header.{place_of, columns_of};
ghost use Rattle.log_line.specs.Format.{judge_header};
ghost use Rattle.log_line.specs.Answers.{order_of, header_says};

use crate::refusals::Refusal;
use fields::{Fields, first_length};

// The place of each column among the fields.
#[derive(Clone, Copy, PartialEq, Eq, Debug)]
pub struct ColumnOrder {
    pub vertex: usize,
    pub board: usize,
    pub labels: usize,
    pub preds: usize,
}

impl ColumnOrder {
    // All four stand among four fields, so each stands once.
    fn is_complete(&self) -> bool
        ensures { result ≡ (ltb self.now.vertex 4 && (ltb self.now.board 4 && (ltb self.now.labels 4 && ltb self.now.preds 4))) }
    {
        self.vertex < 4 && self.board < 4 && self.labels < 4 && self.preds < 4
    }
}

// The place of the first field that is this name; where none is, how many fields there are. The line is walked once: a field for which it has no
// mark would be looked for from the line's start each time. The place goes on by a field's length, so the `for` counts fields alone.
#[tactic(auto, using(crate::proofs::HeaderLaws::sought_kit))]
pub fn place_of<const N: usize>(fields: &Fields<N>, name: &[u8]) -> usize
    ensures { result ≡ place_of name.now (split 32 fields.now.line.now) }
{
    let line = fields.line;
    let mut at = 0;
    for i in 0..fields.len() {
        let end = at + first_length(&line[at..], b' ');
        if &line[at..end] == name {
            return i;
        }
        at = end + 1;
    }
    fields.len()
}

// Where the four names stand in the line, whatever else stands there.
pub fn columns_of<const N: usize>(fields: &Fields<N>) -> ColumnOrder
    ensures { order_of result ≡ columns_of (split 32 fields.now.line.now) }
{
    ColumnOrder {
        vertex: place_of(fields, b"vertex"),
        board: place_of(fields, b"board"),
        labels: place_of(fields, b"labels"),
        preds: place_of(fields, b"preds"),
    }
}

// The columns of a line that names each of the four, and nothing else.
pub fn read_header(line: &[u8]) -> Result<ColumnOrder, Refusal>
    ensures { header_says result ≡ judge_header (split 32 line.now) }
{
    let fields = Fields::<8>::split(line);
    if fields.len() != 4 {
        return Err(Refusal::Header);
    }
    let order = columns_of(&fields);
    if order.is_complete() {
        Ok(order)
    } else {
        Err(Refusal::Header)
    }
}
