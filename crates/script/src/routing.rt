// The commands about closed walks without delay, and about paths that attain a minimum delay.
use crate::compiling::read_given;
use crate::session::{Session, put_words};
use plans::Refusal;
use routes::Walk;
use std::io;

// The most edges of a walk, and the words of a check: how many there are, then each.
const EDGES: usize = 32;

const WORDS: usize = 33;

impl Session {
    // A walk that was found, or why not.
    fn say_found(
        &mut self,
        rt: &impl Print,
        name: &[u8],
        found: Result<Walk, Refusal>,
    ) -> io::Result<()> {
        match found {
            Ok(w) => {
                self.out.put(rt, name)?;
                self.out.put_item(rt, w.count as u64)?;
                put_words(&mut self.out, rt, &w.edges[..w.count.min(EDGES)])?;
                self.out.put(rt, b"\n")
            }
            Err(r) => self.say_refusal(rt, r),
        }
    }

    // witness HEX
    pub fn witness(&mut self, rt: &impl Print, rest: &[u8]) -> io::Result<()> {
        match read_given(rest, &mut self.scratch) {
            Some(g) if g.end == rest.len() => {
                let found = routes::witness(&self.scratch[..g.count]);
                self.say_found(rt, b"witness", found)
            }
            _ => self.say_error(rt),
        }
    }

    // check HEX COUNT E..
    pub fn check(&mut self, rt: &impl Print, rest: &[u8]) -> io::Result<()> {
        let Some(g) = read_given(rest, &mut self.scratch) else {
            return self.say_error(rt);
        };
        let mut words = [0u64; WORDS];
        let count = match text::read_numbers(rest, g.end, &mut words) {
            Some(n) if 0 < n && words[0] == (n - 1) as u64 => n - 1,
            _ => return self.say_error(rt),
        };
        let mut edges = [0u64; EDGES];
        edges.copy_from_slice(&words[1..]);
        let walk = Walk { count, edges };
        if routes::check_witness(&self.scratch[..g.count], walk) {
            self.say(rt, b"check yes", &[])
        } else {
            self.say(rt, b"check no", &[])
        }
    }

    // path HEX FROM TO
    pub fn path(&mut self, rt: &impl Print, rest: &[u8]) -> io::Result<()> {
        let Some(g) = read_given(rest, &mut self.scratch) else {
            return self.say_error(rt);
        };
        let mut words = [0u64; 2];
        match text::read_numbers(rest, g.end, &mut words) {
            Some(2) => {
                let found = routes::path(&self.scratch[..g.count], words[0], words[1]);
                self.say_found(rt, b"path", found)
            }
            _ => self.say_error(rt),
        }
    }
}
