// A text that is made from its end to its beginning, since a division gives a number's last digits first.
ghost use Rattle.std.specs.Prelude.{◌≡◌, ℕ, ◌+◌, ◌<◌, ◌≤◌, List, [], ◌∷◌, ◌++◌, length, drop};
ghost use Rattle.text.specs.Decimal.{decimal};
ghost use Rattle.report.specs.Text.{signed};

use std::marker::Model;

// The longest text of a result: four numbers of 20 digits, a minus sign and a number of 19, and a byte behind each.
const LONGEST: usize = 105;

#[derive(Drop)]
pub(crate) struct Tail {
    bytes: [u8; LONGEST],
    // Where the text begins. It ends with the bytes.
    start: usize,
}

impl Model for Tail {
    ghost Value = { List ℕ };

    ghost view = { λ tail. drop tail.start tail.bytes };

    ghost invariant = { λ tail. tail.start ≤ 105 };
}

impl Tail {
    pub(crate) fn new() -> Tail
        ensures { result ≡ [] }
    {
        Tail {
            bytes: [0; LONGEST],
            start: LONGEST,
        }
    }

    // Puts the number and the separator behind it before the text: 20 digits at most, and a byte.
    pub(crate) fn prepend(&mut self, number: u64, separator: u8)
        requires { length self.old + 21 ≤ 105 }
        ensures text { self.new ≡ decimal number ++ separator ∷ self.old }
        ensures short { length self.new ≤ length self.old + 21 }
    {
        self.prepend_byte(separator);
        self.start = itoa::write_digits(number, &mut self.bytes, self.start);
    }

    // The same of a signed number, with a minus sign where it is negative.
    pub(crate) fn prepend_signed(&mut self, number: i64, separator: u8)
        requires { length self.old + 21 ≤ 105 }
        ensures text { self.new ≡ signed number ++ separator ∷ self.old }
        ensures short { length self.new ≤ length self.old + 21 }
    {
        self.prepend(number.unsigned_abs(), separator);
        if number < 0 {
            self.prepend_byte(b'-');
        }
    }

    fn prepend_byte(&mut self, byte: u8)
        requires { length self.old < 105 }
        ensures { self.new ≡ byte ∷ self.old }
    {
        self.start -= 1;
        self.bytes[self.start] = byte;
    }

    pub(crate) fn as_bytes(&self) -> &[u8]
        ensures { result.now ≡ self.now }
    {
        &self.bytes[self.start..]
    }
}
