// The commands about the compiled plan, and about what is lent to a call.
ghost use Rattle.std.specs.Prelude.{◌≤◌, IfSome, length};

use crate::session::{BYTES, ROOM, SLAB, Session};
use std::io;

// The most bytes that a compiled plan has.
const MOST: u64 = 31920;

// How many bytes a word says, and where it ends in its line.
#[derive(Clone, Copy)]
pub struct Given {
    pub count: usize,
    pub end: usize,
}

// The bytes that the first word of the rest of a line says, put at the start of bytes.
pub fn read_given(rest: &[u8], bytes: &mut [u8]) -> Option<Given>
    ensures { IfSome result (λ g. g.count ≤ length bytes.new) }
{
    if rest.is_empty() {
        return None;
    }
    let end = text::word_end(rest, 1);
    let count = text::read_bytes(&rest[1..end], bytes)?;
    Some(Given { count, end })
}

// The one number that the rest of a line says, at most so large.
pub fn one_number(rest: &[u8], most: u64) -> Option<u64>
    ensures { IfSome result (λ n. n ≤ most) }
{
    let mut words = [0u64; 1];
    let count = text::read_numbers(rest, 0, &mut words)?;
    if count == 1 && words[0] <= most {
        Some(words[0])
    } else {
        None
    }
}

impl Session {
    // The compiled plan in use, in hex.
    fn say_compiled(&mut self, rt: &impl Print) -> io::Result<()> {
        self.out.put(rt, b"compiled")?;
        self.out.put_item(rt, self.size as u64)?;
        self.out.put(rt, b" ")?;
        self.out.put_hex(rt, &self.image[..self.size.min(BYTES)])?;
        self.out.put(rt, b"\n")
    }

    // Compiles the plan of so many bytes into so many bytes of the image.
    fn compiled(&mut self, rt: &impl Print, count: usize, room: u64) -> io::Result<()>
        requires { count ≤ 32800 }
    {
        let limit = room.min(BYTES as u64) as usize;
        let image = &mut self.image[..];
        match image::compile(&self.scratch[..count], &mut image[..limit]) {
            Ok(total) => {
                self.size = total;
                self.say_compiled(rt)
            }
            Err(r) => self.say_refusal(rt, r),
        }
    }

    // plan HEX [ROOM]
    pub fn plan(&mut self, rt: &impl Print, rest: &[u8]) -> io::Result<()> {
        let Some(g) = read_given(rest, &mut self.scratch) else {
            return self.say_error(rt);
        };
        let mut words = [MOST; 1];
        match text::read_numbers(rest, g.end, &mut words) {
            Some(0 | 1) => self.compiled(rt, g.count, words[0]),
            _ => self.say_error(rt),
        }
    }

    // image HEX
    pub fn image(&mut self, rt: &impl Print, rest: &[u8]) -> io::Result<()> {
        match read_given(rest, &mut self.scratch) {
            Some(g) if g.end == rest.len() => {
                let image = &mut self.image[..];
                image[..g.count].copy_from_slice(&self.scratch[..g.count]);
                self.size = g.count;
                self.say(rt, b"image", &[g.count as u64])
            }
            _ => self.say_error(rt),
        }
    }

    // slab WORDS
    pub fn slab(&mut self, rt: &impl Print, rest: &[u8]) -> io::Result<()> {
        let Some(n) = one_number(rest, SLAB as u64) else {
            return self.say_error(rt);
        };
        self.lent = Some(n as usize);
        self.say(rt, b"slab", &[n])
    }

    // room WORDS
    pub fn room(&mut self, rt: &impl Print, rest: &[u8]) -> io::Result<()> {
        let Some(n) = one_number(rest, ROOM as u64) else {
            return self.say_error(rt);
        };
        self.room = Some(n as usize);
        self.say(rt, b"room", &[n])
    }
}
