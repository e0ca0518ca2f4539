// Settings of a case: items joined by commas, each a letter and what it sets. A letter with a number says how many numbers of a buffer are
// lent, or a count; a letter with a place, `=` and a number says that this place of a buffer is set to the number. Which letter means
// what is the program's.
#![tactic(auto)]

ghost use Rattle.std.specs.Prelude.{◌≤◌};

#[derive(Clone, Copy)]
pub struct Settings<'a> {
    items: &'a str,
}

impl<'a> Settings<'a> {
    pub fn new(items: &'a str) -> Settings<'a> {
        Settings { items }
    }

    // The number of the first item with this letter.
    pub fn value(self, letter: char) -> Option<u16> {
        self.items
            .split(',')
            .find_map(|item| item.strip_prefix(letter)?.parse().ok())
    }

    // The same, or the most where that is less or there is no such item.
    pub fn at_most(self, letter: char, most: usize) -> usize
        ensures { result ≤ most }
    {
        match self.value(letter) {
            Some(n) => usize::from(n).min(most),
            None => most,
        }
    }

    // As many numbers of the buffer as the settings say.
    pub fn lent<'b>(self, letter: char, buffer: &'b [u16]) -> &'b [u16] {
        let n = self.at_most(letter, buffer.len());
        &buffer[..n]
    }

    // Sets the place of each item with this letter.
    pub fn damage(self, letter: char, buffer: &mut [u16]) {
        for item in self.items.split(',') {
            if let Some((place, number)) = read_place(item, letter) {
                trial::put(buffer, place, number);
            }
        }
    }
}

// The place that the item sets, if it has this letter, and the number.
fn read_place(item: &str, letter: char) -> Option<(usize, u16)> {
    let (place, number) = item.strip_prefix(letter)?.split_once('=')?;
    Some((place.parse().ok()?, number.parse().ok()?))
}
