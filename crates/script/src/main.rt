// The script language over the entries: commands on standard input, one a line; answers on standard output.
#![tactic(auto)]

mod calling;
mod compiling;
mod holding;
mod routing;
mod session;

use crate::session::Session;
use std::io;
use text::{Line, Lines};

impl Session {
    // Does what a line says.
    fn run(&mut self, rt: &impl Print, line: &[u8]) -> io::Result<()> {
        let end = text::word_end(line, 0);
        let rest = &line[end..];
        match &line[..end] {
            b"plan" => self.plan(rt, rest),
            b"image" => self.image(rt, rest),
            b"slab" => self.slab(rt, rest),
            b"room" => self.room(rt, rest),
            b"open" => self.open(rt, rest),
            b"request" => self.request(rt, rest),
            b"abort" => self.abort(rt, rest),
            b"dump" => self.dump(rt, rest),
            b"state" => self.state(rt, rest),
            b"member" => self.member(rt, rest),
            b"word" => self.word(rt, rest),
            b"witness" => self.witness(rt, rest),
            b"check" => self.check(rt, rest),
            b"path" => self.path(rt, rest),
            _ => self.say_error(rt),
        }
    }

    // Answers a line; empty lines and comments are passed over.
    fn answer(&mut self, rt: &impl Print, line: &[u8]) -> io::Result<()> {
        match line {
            [] | [b'#', ..] => Ok(()),
            _ => self.run(rt, line),
        }
    }
}

fn main(rt: HostRuntime) -> io::Result<()> {
    let mut input = rt.reader();
    let mut lines = Lines::new();
    let mut session = Session::new();
    for _ in 0..u64::MAX {
        // the answers so far are written when the next line has yet to come
        if lines.start == lines.end {
            session.out.flush(&rt)?;
        }
        let line = lines.next_line(&mut input);
        session.line = session.line.saturating_add(1);
        match line {
            Line::Text { start, end } => session.answer(&rt, &lines.buf[start..end])?,
            Line::TooLong => session.say_error(&rt)?,
            Line::Nothing => break,
        }
    }
    session.out.flush(&rt)
}
