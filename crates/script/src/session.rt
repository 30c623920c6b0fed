// What a script holds between its lines, and the answers that every command shares.
use plans::Refusal;
use states::State;
use std::io;
use text::Output;

// The most bytes of a compiled plan that a line can say.
pub const BYTES: usize = 32800;

// The bytes of the buffer that answers are gathered in.
pub const OUT: usize = 65536;

// The words of the slab, and of the delivery buffer.
pub const SLAB: usize = 2112;

pub const ROOM: usize = 512;

// The most members, and the slab words of each.
pub const MEMBERS: usize = 32;

pub const WIDTH: usize = 64;

// What a script holds.
#[derive(Clone, Drop)]
pub struct Session {
    // the bytes that a line says
    pub scratch: [u8; BYTES],
    // the compiled plan in use, at the start of the image, and its bytes
    pub image: [u8; BYTES],
    pub size: usize,
    pub slab: [u64; SLAB],
    pub state: State,
    // slab words and delivery words that are lent to a call; where no command said, as many as the compiled plan in use asks for
    pub lent: Option<usize>,
    pub room: Option<usize>,
    // the number of the line, from 1
    pub line: u64,
    pub out: Output<OUT>,
}

// Words, each after a space.
pub fn put_words(out: &mut Output<OUT>, rt: &impl Print, words: &[u64]) -> io::Result<()> {
    for word in words {
        out.put_item(rt, *word)?;
    }
    Ok(())
}

impl Session {
    // Before the first line: no compiled plan, a session of no members, and no command has said how much is lent.
    pub fn new() -> Session {
        Session {
            scratch: [0; BYTES],
            image: [0; BYTES],
            size: 0,
            slab: [0; SLAB],
            state: states::fresh(0, 0),
            lent: None,
            room: None,
            line: 0,
            out: Output::new(),
        }
    }

    // A line: a name, and words after it.
    pub fn say(&mut self, rt: &impl Print, name: &[u8], words: &[u64]) -> io::Result<()> {
        self.out.put(rt, name)?;
        put_words(&mut self.out, rt, words)?;
        self.out.put(rt, b"\n")
    }

    // The line cannot be read.
    pub fn say_error(&mut self, rt: &impl Print) -> io::Result<()> {
        let line = self.line;
        self.say(rt, b"error", &[line])
    }

    // A refusal, with what it gives.
    pub fn say_refusal(&mut self, rt: &impl Print, r: Refusal) -> io::Result<()> {
        self.say(
            rt,
            b"refused",
            &[r.number(), r.mask(), r.first(), r.second()],
        )
    }
}
