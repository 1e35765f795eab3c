// Writing: texts are put into a lent buffer, one behind the other, as far as the buffer goes.
// The library's write! promises its text only where it returns Ok, and here every text is promised; so nothing is a Display.
#![tactic(auto)]

ghost use Rattle.std.specs.Prelude.{◌≡◌, [], ◌∷◌};
ghost use Rattle.printing.specs.Printed.{field};

use itoa::Buffer;

// A lent buffer, and where the next text goes.
#[derive(Debug, Drop)]
pub struct Printer<'a> {
    pub out: &'a mut [u8],
    pub at: usize,
}

impl<'a> Printer<'a> {
    ghost use Rattle.printing.specs.Printers.{Put};

    // The first text goes to the start of the buffer.
    pub fn new(out: &'a mut [u8]) -> Printer<'a>
        ensures same_buffer { result.out.ghost_name ≡ out.entry.ghost_name }
        ensures unwritten { result.out.now ≡ out.old }
        ensures start { result.at ≡ 0 }
    {
        Printer { out, at: 0 }
    }

    pub fn put_byte(&mut self, byte: u8)
        ensures { Put (byte ∷ []) self.old self.new }
    {
        if self.at < self.out.len() {
            self.out[self.at] = byte;
            self.at += 1;
        }
    }

    pub fn put(&mut self, text: &[u8])
        ensures { Put text.now self.old self.new }
    {
        for &byte in text {
            self.put_byte(byte);
        }
    }

    // A number in decimal, and the byte after it.
    pub fn put_field(&mut self, n: usize, after: u8)
        ensures { Put (field n after) self.old self.new }
    {
        let mut buffer = Buffer::new();
        let digits = buffer.format(n);
        self.put(digits.as_bytes());
        self.put_byte(after);
    }
}
