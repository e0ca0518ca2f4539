// A field as a number.
#![tactic(auto)]

ghost use Rattle.std.specs.Prelude.{◌≡◌, [], length, get_or, ◌≤◌, ◌<◌};
ghost use Rattle.text.specs.Split.{split};
ghost use Rattle.layout.specs.Layout.{most_number};
ghost use Rattle.numbers.specs.Numbers.{number_of, end_of, first_read};

use fields::Fields;

// The answer at the end of a field of so many bytes.
#[tactic(auto, using(crate::proofs::NumberLaws::end_kit))]
fn at_end(size: usize, value: u32) -> Result<(u16, usize), usize>
    requires { value ≤ most_number }
    ensures { result ≡ end_of size value }
{
    if size == 0 {
        Err(0)
    } else {
        Ok((value as u16, size))
    }
}

// Bytes that begin with a zero: it stands alone, since no digit may follow it.
#[tactic(auto, using(crate::proofs::NumberLaws::zero_kit))]
fn read_zero(bytes: &[u8], separator: u8) -> Result<(u16, usize), usize>
    requires { (0 < length bytes.now) × (get_or bytes.now 0 0 ≡ 48) × (separator < 48) }
    ensures { result ≡ first_read separator bytes.now }
{
    if bytes.len() == 1 || bytes[1] == separator {
        Ok((0, 1))
    } else {
        Err(1)
    }
}

// Bytes that do not: digits up to the separator or the end.
#[tactic(auto, using(crate::proofs::NumberLaws::digits_kit))]
fn read_digits(bytes: &[u8], separator: u8) -> Result<(u16, usize), usize>
    requires { (get_or bytes.now 0 0 ≡ 48 → ⊥) × (separator < 48) }
    ensures { result ≡ first_read separator bytes.now }
{
    let mut value: u32 = 0;
    for (i, &b) in bytes.iter().enumerate() {
        if b < b'0' {
            if b == separator {
                return at_end(i, value);
            }
            return Err(i);
        }
        if b > b'9' {
            return Err(i);
        }
        value = value * 10 + u32::from(b - b'0');
        if value > layout::MOST_NUMBER {
            return Err(i);
        }
    }
    at_end(bytes.len(), value)
}

// The bytes up to a separator, or to the end, as a decimal number, 0 to 65,535, without a leading zero, and where it ended; or where
// reading stopped, since no number can follow there. A separator is a byte below the digits, as a space and a comma are.
#[tactic(auto, using(crate::proofs::NumberLaws::first_kit))]
pub fn read_number(bytes: &[u8], separator: u8) -> Result<(u16, usize), usize>
    requires { separator < 48 }
    ensures { result ≡ first_read separator bytes.now }
{
    match bytes.first() {
        None => Err(0),
        Some(b'0') => read_zero(bytes, separator),
        Some(_) => read_digits(bytes, separator),
    }
}

// The number in the field with this index; a field that is not there is none. Inlined, so that a line's fields need not be handed on through memory.
#[tactic(auto, using(crate::proofs::ColumnLaws::column_kit))]
#[inline(always)]
pub fn number_at<const N: usize>(fields: &Fields<N>, index: usize) -> Option<u16>
    ensures { result ≡ number_of (get_or (split 32 fields.now.line.now) index []) }
{
    match read_number(fields.field(index), b' ') {
        Ok((value, _)) => Some(value),
        Err(_) => None,
    }
}
