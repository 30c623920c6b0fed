// Answers, gathered in a buffer that is written to standard output when it is full. An error is that of a write that failed, and of
// nothing else.
ghost use Rattle.std.specs.Prelude.{◌≡◌, ◌≤◌, ◌∷◌, ℕ, List, OnErr, OnOk, [], decimal, take};
ghost use Rattle.text.specs.Output.{and_byte, and_bytes, glyph_of, hex_of};

use std::io;
use std::marker::Model;

// What is gathered: the first `held` bytes of the buffer. A contract sees these bytes.
#[derive(Clone, Drop)]
pub struct Output<const SIZE: usize> {
    bytes: [u8; SIZE],
    held: usize,
}

impl<const SIZE: usize> Model for Output<SIZE> {
    ghost Value = { List ℕ };

    ghost view = { λ o. take o.held o.bytes };

    ghost invariant = { λ o. o.held ≤ SIZE };
}

// The glyph of a hex digit.
pub fn glyph(d: u8) -> u8
    requires { d ≤ 15 }
    ensures { result ≡ glyph_of d }
{
    if d < 10 { b'0' + d } else { b'a' + (d - 10) }
}

impl<const SIZE: usize> Output<SIZE> {
    pub fn new() -> Output<SIZE>
        ensures { result ≡ [] }
    {
        Output {
            bytes: [0; SIZE],
            held: 0,
        }
    }

    // Writes what is gathered; nothing is gathered then. Where the write fails, all stays gathered.
    pub fn flush(&mut self, rt: &impl Print) -> io::Result<()>
        ensures gone { OnOk result (self.new ≡ []) }
        ensures kept { OnErr result (self.new ≡ self.old) }
    {
        rt.write_all(&self.bytes[..self.held])?;
        self.held = 0;
        Ok(())
    }

    // One more byte.
    fn put_byte(&mut self, rt: &impl Print, b: u8) -> io::Result<()>
        ensures { OnOk result (self.new ≡ and_byte SIZE self.old b) }
    {
        if SIZE <= self.held {
            self.flush(rt)?;
        }
        if self.held < SIZE {
            self.bytes[self.held] = b;
            self.held += 1;
        }
        Ok(())
    }

    // A text.
    pub fn put(&mut self, rt: &impl Print, text: &[u8]) -> io::Result<()>
        ensures { OnOk result (self.new ≡ and_bytes SIZE self.old text.now) }
    {
        for b in text {
            self.put_byte(rt, *b)?;
        }
        Ok(())
    }

    // A number in decimal.
    pub fn put_decimal(&mut self, rt: &impl Print, n: u64) -> io::Result<()>
        ensures { OnOk result (self.new ≡ and_bytes SIZE self.old (decimal n)) }
    {
        self.put(rt, itoa::Buffer::new().format(n).as_bytes())
    }

    // A space and a number.
    pub fn put_item(&mut self, rt: &impl Print, n: u64) -> io::Result<()>
        ensures { OnOk result (self.new ≡ and_bytes SIZE self.old (32 ∷ decimal n)) }
    {
        self.put_byte(rt, b' ')?;
        self.put_decimal(rt, n)
    }

    // Bytes in lowercase hex.
    pub fn put_hex(&mut self, rt: &impl Print, bytes: &[u8]) -> io::Result<()>
        ensures { OnOk result (self.new ≡ and_bytes SIZE self.old (hex_of bytes.now)) }
    {
        for b in bytes {
            self.put_byte(rt, glyph(b / 16))?;
            self.put_byte(rt, glyph(b % 16))?;
        }
        Ok(())
    }
}
