//! Writes bytes and numbers into an output, one behind the other.
//! A number is groups of seven bits, lowest first, the top bit set in all but the last.
ghost use Rattle.std.specs.Prelude.{◌≡◌, ◌≤◌, [], ◌∷◌, length};
ghost use Rattle.turn_file.specs.Spelling.{spell};

/// An output, and the place that the next byte goes to.
#[derive(Drop)]
pub(crate) struct Pen<'a> {
    out: &'a mut [u8],
    at: usize,
    ghost within: { at ≤ length out.now },
}

impl<'a> Pen<'a> {
    ghost use Rattle.turn_writer.specs.Page.{page, blank_page, HasRoom, Wrote};

    pub(crate) fn new(out: &'a mut [u8]) -> Pen<'a>
        ensures { page result ≡ blank_page out.entry }
    {
        Pen { out, at: 0 }
    }

    pub(crate) fn write_bytes(&mut self, bytes: &[u8])
        requires { HasRoom bytes.now self.old }
        ensures { Wrote bytes.now self.old self.new }
    {
        let end = self.at + bytes.len();
        self.out[self.at..end].copy_from_slice(bytes);
        self.at = end;
    }

    fn write_byte(&mut self, byte: u8)
        requires { HasRoom (byte ∷ []) self.old }
        ensures { Wrote (byte ∷ []) self.old self.new }
    {
        self.write_bytes(&[byte]);
    }

    pub(crate) fn write_number(&mut self, value: u32)
        requires { HasRoom (spell value) self.old }
        ensures { Wrote (spell value) self.old self.new }
    {
        let mut high = value;
        while high >= 0x80 {
            self.write_byte(0x80 + (high % 0x80) as u8);
            high /= 0x80;
        }
        self.write_byte(high as u8);
    }
}
