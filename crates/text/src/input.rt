// Standard input, or another reader, line by line, in a fixed amount of memory. A read that fails ends the input.
ghost use Rattle.std.specs.Prelude.{◌≡◌, ◌-◌, ◌<◌, ◌≤◌, IfSome, false, length};
ghost use Rattle.text.specs.Lines.{Fits};

use crate::scan;
use std::io::Read;

// The bytes that a line may have.
pub const LINE: usize = 65600;

// The bytes of the buffer that lines are read in: room for a line and for what is read beyond it.
pub const WINDOW: usize = 131200;

// A reader's lines: what has been read and not yet handed out, the bytes from start to end of the buffer; and whether the input
// is over.
#[derive(Clone, Copy)]
pub struct Lines {
    pub buf: [u8; WINDOW],
    pub start: usize,
    pub end: usize,
    pub over: bool,
}

// What there is: a line, which stands from start to end of the buffer, without its newline; one that is too long; or nothing more.
#[derive(Clone, Copy, Debug, PartialEq, Eq)]
pub enum Line {
    Text { start: usize, end: usize },
    TooLong,
    Nothing,
}

// Reads once; how many bytes came, 0 at the input's end and where the read fails.
fn read_some(input: &mut impl Read, part: &mut [u8]) -> usize
    ensures { result ≤ length part.new }
{
    input.read(part).unwrap_or(0)
}

// The text from start to end, unless it is too long for a line.
fn line_of(start: usize, end: usize) -> Line
    requires { (start ≤ end) × (end ≤ 131200) }
    ensures { Fits result }
{
    if LINE < end - start {
        Line::TooLong
    } else {
        Line::Text { start, end }
    }
}

impl Lines {
    // Nothing has been read.
    pub fn new() -> Lines
        ensures start { result.start ≡ 0 }
        ensures end { result.end ≡ 0 }
        ensures over { result.over ≡ false }
    {
        Lines {
            buf: [0; WINDOW],
            start: 0,
            end: 0,
            over: false,
        }
    }

    // Reads once, after what is unread, which moves to the front. Where nothing comes, the input is over.
    fn fill(&mut self, input: &mut impl Read)
        requires { (self.old.start ≤ self.old.end) × (self.old.end ≤ 131200) }
        ensures start { self.new.start ≡ 0 }
        ensures end { self.new.end ≤ 131200 }
        ensures kept { self.old.end - self.old.start ≤ self.new.end }
        ensures more { self.new.over ≡ false → self.old.end - self.old.start < self.new.end }
    {
        let kept = self.end - self.start;
        self.buf.copy_within(self.start..self.end, 0);
        let came = read_some(input, &mut self.buf[kept..]);
        self.start = 0;
        self.end = kept + came;
        self.over = came == 0;
    }

    // Reads on until there is a newline, or more than a line may have, or the input is over. Where the newline stands.
    fn gather(&mut self, input: &mut impl Read) -> Option<usize>
        requires { (self.old.start ≤ self.old.end) × (self.old.end ≤ 131200) }
        ensures unread { (self.new.start ≤ self.new.end) × (self.new.end ≤ 131200) }
        ensures place { IfSome result (λ i. (self.new.start ≤ i) × (i < self.new.end)) }
    {
        let mut newline = scan::find(&self.buf, self.start, self.end, b'\n');
        // a `while`: there are three ways to stop, and no count
        while newline.is_none() && !self.over && self.end - self.start <= LINE {
            let seen = self.end - self.start;
            self.fill(input);
            newline = scan::find(&self.buf, seen, self.end, b'\n');
        }
        newline
    }

    // Forgets what is unread; the input is over.
    fn close(&mut self) {
        self.start = 0;
        self.end = 0;
        self.over = true;
    }

    // Reads on past the next newline, and forgets what stands before it.
    fn skip(&mut self, input: &mut impl Read) {
        for _ in 0..u64::MAX {
            let end = read_some(input, &mut self.buf);
            if end == 0 {
                break;
            }
            if let Some(newline) = scan::find(&self.buf, 0, end, b'\n') {
                self.start = newline + 1;
                self.end = end;
                return;
            }
        }
        self.close();
    }

    // The next line. A line may have LINE bytes; a longer one is too long, and read to its end. The last one may lack its newline.
    pub fn next_line(&mut self, input: &mut impl Read) -> Line
        ensures { Fits result }
    {
        self.end = self.end.min(WINDOW);
        self.start = self.start.min(self.end);
        let newline = self.gather(input);
        let start = self.start;
        let end = self.end;
        match newline {
            Some(newline) => {
                self.start = newline + 1;
                line_of(start, newline)
            }
            None if !self.over => {
                self.skip(input);
                Line::TooLong
            }
            None => {
                self.close();
                if start == end {
                    Line::Nothing
                } else {
                    line_of(start, end)
                }
            }
        }
    }
}
