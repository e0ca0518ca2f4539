// What is changed in a text.
use crate::kinds::Kind;
use trial::Random;

// The byte is put at an index, and maybe at a later one.
#[derive(Clone, Copy)]
pub struct Change {
    pub kind: Kind,
    pub at: usize,
    pub later: Option<usize>,
    pub byte: u8,
}

impl Change {
    pub fn draw(kind: Kind, text: &[u8], random: &mut Random) -> Change {
        let at = draw_index(kind, text, random);
        let later = match random.draw(2) {
            0 => None,
            _ => find(kind, text, at.wrapping_add(1)),
        };
        let byte = kind.new_byte(random.draw(159) as u8);
        Change {
            kind,
            at,
            later,
            byte,
        }
    }

    pub fn make(self, text: &mut [u8]) {
        self.put(text, self.at);
        if let Some(later) = self.later {
            self.put(text, later);
        }
    }

    fn put(self, text: &mut [u8], i: usize) {
        if let Some(b) = text.get_mut(i) {
            *b = self.byte;
        }
    }
}

fn draw_index(kind: Kind, text: &[u8], random: &mut Random) -> usize {
    let line = text.iter().position(|b| *b == b'\n').unwrap_or(text.len());
    let (header, below) = text.split_at(line);
    if kind.is_in_header() {
        return find_round(kind, header, random);
    }
    line.wrapping_add(find_round(kind, below, random))
}

// From a place drawn on, or from the start where there is none behind it; the end where there is none at all.
fn find_round(kind: Kind, s: &[u8], random: &mut Random) -> usize {
    let from = random.draw(s.len() as u64) as usize;
    find(kind, s, from)
        .or_else(|| find(kind, s, 0))
        .unwrap_or(s.len())
}

// The first byte from an index on that this kind changes.
fn find(kind: Kind, s: &[u8], from: usize) -> Option<usize> {
    (from..s.len()).find(|i| kind.suits(s, *i))
}
