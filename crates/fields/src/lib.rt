// The fields of a line: every separator ends one, so n separators give n + 1 fields, and a field may be empty.
#![tactic(auto)]

mod marked;

ghost use Rattle.std.specs.Prelude.{◌≡◌, length};
ghost use Rattle.text.specs.Split.{split, first_part};
ghost use Rattle.fields.specs.Fields.{field_of};

pub use marked::Fields;

// How many bytes the first field has.
pub fn first_length(line: &[u8], separator: u8) -> usize
    ensures { result ≡ length (first_part separator line.now) }
{
    line.iter()
        .position(|b| *b == separator)
        .unwrap_or(line.len())
}

// How many fields the line has.
#[tactic(auto, using(crate::proofs::FieldLaws::count_kit))]
pub fn field_count(line: &[u8], separator: u8) -> usize
    ensures { result ≡ length (split separator line.now) }
{
    line.iter().filter(|b| **b == separator).count() + 1
}

// Where the field with this index begins and ends, if there is one; the first has index 0. The place goes on by a field's length, so the `for`
// counts fields alone.
#[tactic(auto, using(crate::proofs::FieldLaws::field_kit))]
pub fn find_field(line: &[u8], separator: u8, index: usize) -> Option<(usize, usize)>
    ensures { result ≡ field_of separator line.now index }
{
    let mut at = 0;
    for _i in 0..index {
        let n = first_length(&line[at..], separator);
        if n == line.len() - at {
            return None;
        }
        at = at + n + 1;
    }
    let n = first_length(&line[at..], separator);
    Some((at, at + n))
}
