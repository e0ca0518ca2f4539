// The field `preds`: `-`, or numbers joined by commas. A line can list over a hundred.
ghost use Rattle.std.specs.Prelude.{◌≡◌, ◌≤◌, false, length, set, take};
ghost use Rattle.numbers.specs.Listed.{is_none};
ghost use Rattle.layout.specs.Layout.{most_preds};
ghost use Rattle.log_line.specs.inner.Scan.{Scanned, next_least};

use numbers::read_number;

// The links of a line: how many they are, and the first of them.
#[derive(Clone, Copy)]
pub struct Links {
    pub count: usize,
    pub first: [u16; layout::MOST_PREDS],
}

impl Links {
    // All of them, where there is a place for each.
    pub fn as_slice(&self) -> &[u16]
        requires { self.now.count ≤ most_preds }
        ensures { result.now ≡ take self.now.count self.now.first }
    {
        &self.first[..self.count]
    }
}

// What the field comes to for a step, where it is `-` or numbers joined by commas: are the links wrong (24), and which are they? A flag beside the
// links and no `Result`: what is said of them is said whether they are wrong or not.
#[derive(Clone, Copy)]
pub struct Preds {
    pub mislinked: bool,
    pub links: Links,
}

// `-`
pub fn is_none(field: &[u8]) -> bool
    ensures { result ≡ is_none field.now }
{
    field == b"-".as_slice()
}

// Puts the number at its place, if there is one for it. By `get_mut` the proof does not close: what stands there afterwards is not found.
#[tactic(auto, using(crate::proofs::PredLaws::keep_kit))]
fn keep(first: &mut [u16; layout::MOST_PREDS], k: usize, u: u16)
    ensures { first.new ≡ set first.old k u }
{
    if k < layout::MOST_PREDS {
        first[k] = u;
    }
}

// What the number after u must be at least, so that all rise below v; none, once they do not.
#[tactic(auto, unfolding(crate::specs::inner::Scan::next_least))]
fn next_least(least: Option<u16>, u: u16, v: u16) -> Option<u16>
    ensures { result ≡ next_least v least u }
{
    match least {
        Some(low) if low <= u && u < v => Some(u + 1),
        _ => None,
    }
}

// The numbers of the field for step v, in one pass that goes on where reading a number stopped, so no `for` counts the place.
#[tactic(auto, using(crate::proofs::PredLaws::scanning_kit))]
#[inline(always)]
fn scan_numbers(field: &[u8], v: u16) -> Option<Preds>
    requires { is_none field.now ≡ false }
    ensures { Scanned v field.now result }
{
    let mut first = [0u16; layout::MOST_PREDS];
    let mut at = 0;
    let mut count = 0;
    let mut least = Some(0u16);
    while at <= field.len() {
        let Ok((u, n)) = read_number(&field[at..], b',') else {
            return None;
        };
        keep(&mut first, count, u);
        at = at + n + 1;
        count += 1;
        least = next_least(least, u, v);
    }
    Some(Preds {
        mislinked: v == 0 || least.is_none(),
        links: Links { count, first },
    })
}

// The field for step v, if it is `-` or numbers joined by commas.
#[tactic(auto, using(crate::proofs::PredLaws::field_kit))]
#[inline(always)]
pub fn scan_preds(field: &[u8], v: u16) -> Option<Preds>
    ensures { Scanned v field.now result }
{
    if is_none(field) {
        return Some(Preds {
            mislinked: v != 0,
            links: Links {
                count: 0,
                first: [0; layout::MOST_PREDS],
            },
        });
    }
    scan_numbers(field, v)
}
