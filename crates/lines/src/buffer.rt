// The bytes of a printed line.
ghost use Rattle.std.specs.Prelude.{◌≤◌};

// The first len bytes are what was written, and every line fits. An array of fixed length with a length beside it, since there is no heap.
#[derive(Clone, Copy)]
pub struct Buffer {
    pub bytes: [u8; 64],
    pub len: usize,
    pub ghost fits: { len ≤ 64 },
}

impl Buffer {
    ghost use Rattle.std.specs.Prelude.{◌≡◌, [], ◌∷◌, ◌+◌, ◌<◌, length};
    ghost use Rattle.lines.specs.Decimal.{decimal};
    ghost use Rattle.lines.specs.Text.{field};
    ghost use Rattle.lines.specs.Written.{written, Extends, Appended};

    pub(crate) fn new() -> Self
        ensures { result.len ≡ 0 }
    {
        Buffer {
            bytes: [0; 64],
            len: 0,
        }
    }

    // What was written.
    pub fn as_slice(&self) -> &[u8]
        ensures { result.now ≡ written self.now }
    {
        &self.bytes[..self.len]
    }

    pub(crate) fn byte(mut self, x: u8) -> Self
        requires { self.len < 64 }
        ensures { Extends self result (x ∷ []) }
    {
        self.bytes[self.len] = x;
        self.len += 1;
        self
    }

    pub(crate) fn word(mut self, word: &[u8]) -> Self
        requires { self.len + length word.now ≤ 64 }
        ensures { Extends self result word.now }
    {
        let at = self.len;
        let end = at + word.len();
        self.bytes[at..end].copy_from_slice(word);
        self.len = end;
        self
    }

    // The decimal digits of n.
    pub(crate) fn number(self, n: u32) -> Self
        requires { self.len ≤ 54 }
        ensures extends { Extends self result (decimal n) }
        ensures len_bound { result.len ≤ self.len + 10 }
    {
        if n < 10 {
            self.byte(b'0' + n as u8)
        } else {
            self.number(n / 10).byte(b'0' + (n % 10) as u8)
        }
    }

    // The decimal digits of n and a space.
    pub(crate) fn field(self, n: u32) -> Self
        requires { self.len ≤ 53 }
        ensures extends { Extends self result (field n) }
        ensures len_bound { result.len ≤ self.len + 11 }
    {
        self.number(n).byte(b' ')
    }

    // Puts the text into out at a place, and answers the place behind it.
    pub fn append_to(&self, out: &mut [u8], at: usize) -> usize
        requires { at + self.now.len ≤ length out.old }
        ensures { Appended at self.now result out.old out.new }
    {
        let end = at + self.len;
        out[at..end].copy_from_slice(self.as_slice());
        end
    }
}
