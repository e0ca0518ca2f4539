// A line with its fields marked, so that each is found again at once.
ghost use Rattle.std.specs.Prelude.{◌≡◌, length, get_or, set, []};
ghost use Rattle.text.specs.Split.{split};
ghost use Rattle.fields.specs.Fields.{part_at, FieldsMarked};

use crate::{find_field, first_length};

// How many fields the line has, and where each begins; last the place behind the line's end. What there is no room for is left out. There is no
// heap: the places are an array, and the count may be past them.
#[derive(Clone, Copy)]
pub struct Fields<'a, const N: usize> {
    pub line: &'a [u8],
    count: usize,
    starts: [usize; N],
    ghost marked: { FieldsMarked 32 line.now count starts },
}

impl<'a, const N: usize> Fields<'a, N> {
    // The line is split once, field by field: the place goes on by a field's length, so no `for` counts it.
    #[tactic(auto, using(crate::proofs::MarkLaws::marking_kit))]
    pub fn split(line: &'a [u8]) -> Self
        ensures { result.line.now ≡ line.now }
    {
        let mut starts = [0usize; N];
        let mut at = 0;
        let mut count = 0;
        while at <= line.len() {
            mark(&mut starts, count, at);
            at = at + first_length(&line[at..], b' ') + 1;
            count += 1;
        }
        mark(&mut starts, count, line.len() + 1);
        Fields {
            line,
            count,
            starts,
        }
    }

    // How many there are.
    pub fn len(&self) -> usize
        ensures { result ≡ length (split 32 self.now.line.now) }
    {
        self.count
    }

    // Where the field with this index begins and ends, if there is one.
    #[tactic(auto, using(crate::proofs::MarkLaws::marked_kit))]
    pub fn bounds(&self, index: usize) -> Option<(usize, usize)>
        ensures { result ≡ part_at (split 32 self.now.line.now) index }
    {
        if index >= self.count {
            return None;
        }
        if index + 1 >= N {
            return find_field(self.line, b' ', index);
        }
        Some((self.starts[index], self.starts[index + 1] - 1))
    }

    // The field with this index; one that is not there counts as empty.
    #[tactic(auto, using(crate::proofs::FoundLaws::found_kit))]
    pub fn field(&self, index: usize) -> &'a [u8]
        ensures { result.now ≡ get_or (split 32 self.now.line.now) index [] }
    {
        match self.bounds(index) {
            None => b"",
            Some((start, end)) => &self.line[start..end],
        }
    }
}

// Puts down a number, if there is room. By `get_mut`, as at `log_line`'s `keep`, what stands there afterwards is not found.
#[tactic(auto, using(crate::proofs::MarkLaws::mark_kit))]
fn mark(marks: &mut [usize], place: usize, at: usize)
    ensures { marks.new ≡ set marks.old place at }
{
    if place < marks.len() {
        marks[place] = at;
    }
}
