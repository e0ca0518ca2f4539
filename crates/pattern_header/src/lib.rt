// The first line of a pattern.
#![tactic(auto)]

ghost use Rattle.std.specs.Prelude.{◌≡◌, ◌+◌, take, drop, get_or, []};
ghost use Rattle.pattern_line.specs.Line.{fields_of, field_at};
ghost use Rattle.pattern_header.specs.Header.{columns, same_fields, name_bytes, is_name, are_names, among, distinct, is_header};
ghost use Rattle.pattern_header.specs.inner.Answers.{header_judged, header_said, header_numbers};

use fields::Fields;
use layout::PATTERN_FIELDS;
use pattern_line::refusals::Refusal;

// The names of the first four fields.
const COLUMNS: [&[u8]; 4] = [b"bead", b"rule", b"state", b"final"];

// The format's name for the field with this index. There are four; past them a name counts as empty.
pub fn column(index: usize) -> &'static [u8]
    ensures { result.now ≡ get_or columns index [] }
{
    if index < COLUMNS.len() {
        COLUMNS[index]
    } else {
        b""
    }
}

// Are all bytes lower-case letters or digits?
#[tactic(auto, unfolding(crate::specs::Header::name_bytes))]
fn name_bytes(bytes: &[u8]) -> bool
    ensures { result ≡ name_bytes bytes.now }
{
    bytes
        .iter()
        .all(|b| b.is_ascii_lowercase() || b.is_ascii_digit())
}

// Is it a label's name: 1 to 12 lower-case letters or digits?
pub fn is_name(field: &[u8]) -> bool
    ensures { result ≡ is_name field.now }
{
    (1..=layout::MOST_NAME).contains(&field.len()) && name_bytes(field)
}

// Are the first four fields `bead`, `rule`, `state` and `final`?
#[tactic(auto, using(crate::proofs::HeaderLaws::columns_kit))]
fn has_columns(fields: &Fields<PATTERN_FIELDS>) -> bool
    ensures { result ≡ same_fields (take 4 (fields_of fields.now.line.now)) columns }
{
    (0..4).all(|i| fields.field(i) == column(i))
}

// Are all fields after those four names?
fn are_names(fields: &Fields<PATTERN_FIELDS>) -> bool
    ensures { result ≡ are_names (drop 4 (fields_of fields.now.line.now)) }
{
    (4..fields.len()).all(|i| is_name(fields.field(i)))
}

// Does the field stand among those after it?
fn stands_again(fields: &Fields<PATTERN_FIELDS>, index: usize) -> bool
    ensures { result ≡ among (field_at fields.now.line.now index) (drop (index + 1) (fields_of fields.now.line.now)) }
{
    index < fields.len()
        && (index + 1..fields.len()).any(|i| fields.field(index) == fields.field(i))
}

// Are the fields after the first four distinct?
fn are_distinct(fields: &Fields<PATTERN_FIELDS>) -> bool
    ensures { result ≡ distinct (drop 4 (fields_of fields.now.line.now)) }
{
    (4..fields.len()).all(|i| !stands_again(fields, i))
}

// Is the line a header?
#[tactic(auto, using(crate::proofs::HeaderLaws::header_kit))]
fn is_header(fields: &Fields<PATTERN_FIELDS>) -> bool
    ensures { result ≡ is_header (fields_of fields.now.line.now) }
{
    let labels = fields.len().saturating_sub(4);
    has_columns(fields)
        && (1..=layout::MOST_LABELS).contains(&labels)
        && are_names(fields)
        && are_distinct(fields)
}

// How many labels the header names, or why it is refused. The line is split once.
#[tactic(auto, using(crate::proofs::HeaderLaws::judged_kit))]
pub fn read_header(line: &[u8]) -> Result<u16, Refusal>
    ensures value { result ≡ header_judged (fields_of line.now) }
    ensures said { header_said result ≡ header_numbers (fields_of line.now) }
{
    let fields: Fields<PATTERN_FIELDS> = Fields::split(line);
    if is_header(&fields) {
        Ok((fields.len() - 4) as u16)
    } else {
        Err(Refusal::Header)
    }
}
