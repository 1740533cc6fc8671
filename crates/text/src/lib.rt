// Printing into a lent buffer. Each method puts its bytes after the text so far and leaves every other byte alone, so that printers are put one after
// the other. The library's `write!` is no plainer here: its clauses say what is written where it succeeds, and nothing of when it does, so that it could not
// promise that a text is printed whole.
#![tactic(auto)]

pub mod begun; // the text so far
pub mod numbers; // words and lines of numbers
pub mod parts; // the parts of a text, found one after the other

ghost use Rattle.std.specs.Prelude.{◌≡◌, [], ◌∷◌, ◌++◌, ◌<◌};
ghost use Rattle.text.specs.Decimal.{digit, decimal};
ghost use Rattle.text.specs.Printed.{Printed, Room};

pub use begun::Text;

fn glyph(d: u64) -> u8
    requires { d < 10 }
    ensures { result ≡ digit d }
{
    48 + d as u8
}

impl<'a> Text<'a> {
    // A text of no bytes yet, at the front of a buffer.
    pub fn new(out: &'a mut [u8]) -> Text<'a>
        ensures start { result.at ≡ 0 }
        ensures bytes { result.out.now ≡ out.old }
        ensures buffer { result.out.ghost_name ≡ out.entry.ghost_name }
    {
        Text { out, at: 0 }
    }

    // One byte. Ruled out: a change of the byte after it; the place of the byte itself as the end of the text.
    pub fn byte(&mut self, b: u8)
        requires { Room self.old (b ∷ []) }
        ensures { Printed self.old (b ∷ []) self.new }
    {
        self.out[self.at] = b;
        self.at += 1;
    }

    // Bytes in a row. Ruled out: all but the last byte; the bytes from the front of the buffer on.
    pub fn bytes(&mut self, bytes: &[u8])
        requires { Room self.old bytes.now }
        ensures { Printed self.old bytes.now self.new }
    {
        let end = self.at + bytes.len();
        self.out[self.at..end].copy_from_slice(bytes);
        self.at = end;
    }

    // A number in decimal. The digits before the last are printed first, by a call for a tenth of the number, so that no digit
    // is moved. Ruled out: a leading zero, as 07 for 7; the digits in the order of division, as 21 for 12.
    pub fn decimal(&mut self, n: u64)
        requires { Room self.old (decimal n) }
        ensures { Printed self.old (decimal n) self.new }
    {
        if n < 10 {
            return self.byte(glyph(n));
        }
        self.decimal(n / 10);
        self.byte(glyph(n % 10));
    }

    // A word and a number, with nothing between them.
    pub fn figure(&mut self, word: &[u8], v: u64)
        requires { Room self.old (word.now ++ decimal v) }
        ensures { Printed self.old (word.now ++ decimal v) self.new }
    {
        self.bytes(word);
        self.decimal(v);
    }
}
