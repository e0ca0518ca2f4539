// Bytes and numbers put one behind the other into a lent room. A byte is put where there is a place
// for it, and the output goes on to the next place anyway: so no method asks for room, and over a
// room without places an output measures its text. `fmt::Write` would not do: it takes a `str`,
// and a header text is any bytes; and it answers a `Result`, where nothing here can fail. That the
// index does not overflow stands in each clause: each text asks a bound of its own, so that it is
// no fact of an `Output`.
#![tactic(auto)]

ghost use Rattle.std.specs.Prelude.{◌+◌, ◌*◌, ◌^◌, ◌≤◌, ◌<◌, ◌≡◌, ◌++◌, ◌∷◌, [], length, ℕ, List};
ghost use Rattle.numbers.specs.Numbers.{spell};
ghost use Rattle.writing.specs.Put.{Adds, listed};
ghost use Rattle.writing.specs.Lay.{Lays, Laid};

// A room, and the index of the next byte, which may lie behind the room's last place.
#[derive(Drop)]
pub struct Output<'a> {
    pub room: &'a mut [u8],
    pub at: usize,
}

#[tactic(auto, using(crate::proofs::PutLaws::kit))]
impl<'a> Output<'a> {
    // From the front of the room.
    pub fn new(room: &'a mut [u8]) -> Output<'a>
        ensures same_room { result.room.ghost_name ≡ room.entry.ghost_name }
        ensures as_it_was { result.room.now ≡ room.old }
        ensures front { result.at ≡ 0 }
    {
        Output { room, at: 0 }
    }

    pub fn put_byte(&mut self, b: u8)
        requires { self.old.at + 1 < 2 ^ 64 }
        ensures { Adds (b ∷ []) self.old self.new }
    {
        if self.at < self.room.len() {
            self.room[self.at] = b;
        }
        self.at += 1;
    }

    // The decimal digits of n: the last one comes out first, and is put last, so this calls itself.
    fn put_digits(&mut self, n: u16)
        requires { self.old.at + length (spell n) < 2 ^ 64 }
        ensures { Adds (spell n) self.old self.new }
    {
        if n >= 10 {
            self.put_digits(n / 10);
        }
        // The cast keeps the digit: it is below 10.
        self.put_byte(b'0' + (n % 10) as u8);
    }

    // The same: a u16 has at most five digits.
    pub fn put_number(&mut self, n: u16)
        requires { self.old.at + 5 < 2 ^ 64 }
        ensures put { Adds (spell n) self.old self.new }
        ensures upper_bound { self.new.at ≤ self.old.at + 5 }
    {
        self.put_digits(n);
    }

    // The number, and a byte behind it.
    pub fn put_ended(&mut self, n: u16, end: u8)
        requires { self.old.at + 6 < 2 ^ 64 }
        ensures put { Adds (spell n ++ (end ∷ [])) self.old self.new }
        ensures upper_bound { self.new.at ≤ self.old.at + 6 }
    {
        self.put_number(n);
        self.put_byte(end);
    }

    pub fn put_bytes(&mut self, bytes: &[u8])
        requires { self.old.at + length bytes.now < 2 ^ 64 }
        ensures { Adds bytes.now self.old self.new }
    {
        for b in bytes {
            self.put_byte(*b);
        }
    }

    // Each number behind the separator.
    pub fn put_listed(&mut self, separator: u8, numbers: &[u16])
        requires { self.old.at + 6 * length numbers.now < 2 ^ 64 }
        ensures put { Adds (listed separator numbers.now) self.old self.new }
        ensures upper_bound { self.new.at ≤ self.old.at + 6 * length numbers.now }
    {
        for n in numbers {
            self.put_byte(separator);
            self.put_number(*n);
        }
    }
}

// Lays a text at the front of a room and answers how long it is; nothing, and the room is as it was,
// where the room is too short. The text is put twice: where there are no places, which measures it,
// and then into the room.
pub fn lay<F: Fn(&mut [u8]) -> usize>(room: &mut [u8], put: F) -> Option<usize>
    requires { F.IsAlwaysCallable put }
    ensures { (text : List ℕ) → Lays (F.post put) text → Laid text room.old result room.new }
{
    let n = put(&mut [0u8; 0]);
    if room.len() < n {
        return None;
    }
    put(room);
    Some(n)
}
