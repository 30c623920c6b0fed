// A workload as it is read: the script's lines `plan`, `open` and `request`, and `# steady` before the requests that count.
use std::io::Read;
use text::{Line, Lines};

// The words of a request.
pub const REQUEST: usize = 7;

// What a workload says, besides its plan and its requests.
#[derive(Clone, Copy, Debug, Default, PartialEq, Eq)]
pub struct Work {
    // bytes of the plan
    pub size: usize,
    pub identity: u64,
    // words of the requests, and how many of these stand before the steady ones
    pub words: usize,
    pub steady: usize,
    // how often it is timed
    pub passes: u64,
}

// The number that the rest of a line says.
fn number(rest: &[u8]) -> u64 {
    let mut words = [0u64; 1];
    text::read_numbers(rest, 0, &mut words);
    words[0]
}

impl Work {
    // The plan that the rest of a line says.
    fn plan(&mut self, rest: &[u8], bytes: &mut [u8]) {
        if !rest.is_empty() {
            self.size = text::read_bytes(&rest[1..], bytes).unwrap_or(0);
        }
    }

    // One request more, where there is room.
    fn request(&mut self, rest: &[u8], requests: &mut [u64]) {
        if self.words <= requests.len() && REQUEST <= requests.len() - self.words {
            let end = self.words + REQUEST;
            text::read_numbers(rest, 0, &mut requests[self.words..end]);
            self.words = end;
        }
    }

    // What a line adds.
    fn told(&mut self, line: &[u8], bytes: &mut [u8], requests: &mut [u64]) {
        let end = text::word_end(line, 0);
        let rest = &line[end..];
        match &line[..end] {
            b"plan" => self.plan(rest, bytes),
            b"request" => self.request(rest, requests),
            b"open" => self.identity = number(rest),
            b"passes" => self.passes = number(rest),
            b"#" if rest == b" steady".as_slice() => self.steady = self.words,
            _ => {}
        }
    }
}

// Reads the workload on standard input.
pub fn read(input: &mut impl Read, bytes: &mut [u8], requests: &mut [u64]) -> Work {
    let mut lines = Lines::new();
    let mut work = Work::default();
    for _ in 0..u64::MAX {
        match lines.next_line(input) {
            Line::Text { start, end } => work.told(&lines.buf[start..end], bytes, requests),
            Line::TooLong => {}
            Line::Nothing => break,
        }
    }
    work
}
