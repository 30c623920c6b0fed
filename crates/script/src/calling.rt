// The commands that open a session and call it: what is lent to the entries, and what they answer.
ghost use Rattle.std.specs.Prelude.{◌≤◌};

use crate::compiling::one_number;
use crate::session::{BYTES, MEMBERS, ROOM, SLAB, Session, WIDTH};
use rti::{Answer, Refusal};
use std::io;

// Where a compiled plan says how many members it has.
const MEMBERS_AT: usize = 4;

// The words of a delivery.
const DELIVERY: usize = 7;

// The most words of a request.
const REQUEST: usize = 16;

// How many members a compiled plan says that it has, 32 at most; 0 where it has no header.
fn members(plan: &[u8]) -> usize
    ensures { result ≤ 32 }
{
    if plan.len() < rows::HEADER {
        0
    } else {
        rows::number(plan, MEMBERS_AT).min(MEMBERS)
    }
}

impl Session {
    // How many slab words are lent: 64 for each member where no command said.
    fn lent_slab(&self) -> usize
        ensures { result ≤ 2112 }
    {
        let asked = WIDTH * members(&self.image[..self.size.min(BYTES)]);
        self.lent.unwrap_or(asked).min(SLAB)
    }

    // How many delivery words are lent: those of 2n + 1 deliveries where no command said.
    fn lent_room(&self) -> usize
        ensures { result ≤ 512 }
    {
        let asked = DELIVERY * (2 * members(&self.image[..self.size.min(BYTES)]) + 1);
        self.room.unwrap_or(asked).min(ROOM)
    }

    // A refusal that gives nothing but its number.
    fn say_refused(&mut self, rt: &impl Print, r: Refusal) -> io::Result<()> {
        self.say(rt, b"refused", &[r.number(), 0, 0, 0])
    }

    // What a call answers; its state is the session's from here on. A line for each delivery, then how many are sent, and whether
    // the session is finished.
    fn say_answer(
        &mut self,
        rt: &impl Print,
        deliveries: &[u64; ROOM],
        answer: Result<Answer, Refusal>,
    ) -> io::Result<()> {
        let a = match answer {
            Ok(a) => a,
            Err(r) => return self.say_refused(rt, r),
        };
        self.state = a.state;
        for words in deliveries.chunks_exact(DELIVERY).take(a.count) {
            self.say(rt, b"deliver", words)?;
        }
        let finished = rti::finished(a.state);
        self.say(rt, b"answered", &[a.count as u64, u64::from(finished)])
    }

    // open IDENTITY
    pub fn open(&mut self, rt: &impl Print, rest: &[u8]) -> io::Result<()> {
        let Some(identity) = one_number(rest, u64::MAX) else {
            return self.say_error(rt);
        };
        let words = self.lent_slab();
        let plan = &self.image[..self.size.min(BYTES)];
        let slab = &mut self.slab[..];
        match rti::open(plan, identity, &mut slab[..words]) {
            Ok(a) => {
                self.state = a.state;
                self.say(rt, b"opened", &[])
            }
            Err(r) => self.say_refused(rt, r),
        }
    }

    // request W..
    pub fn request(&mut self, rt: &impl Print, rest: &[u8]) -> io::Result<()> {
        let mut request = [0u64; REQUEST];
        let count = match text::read_numbers(rest, 0, &mut request) {
            Some(count) if count <= REQUEST => count,
            _ => return self.say_error(rt),
        };
        let mut deliveries = [0u64; ROOM];
        let words = self.lent_slab();
        let room = self.lent_room();
        let plan = &self.image[..self.size.min(BYTES)];
        let slab = &mut self.slab[..];
        let a = rti::handle(
            plan,
            self.state,
            &mut slab[..words],
            &request[..count],
            &mut deliveries[..room],
        );
        self.say_answer(rt, &deliveries, a)
    }

    // abort CODE
    pub fn abort(&mut self, rt: &impl Print, rest: &[u8]) -> io::Result<()> {
        let Some(code) = one_number(rest, u64::MAX) else {
            return self.say_error(rt);
        };
        let mut deliveries = [0u64; ROOM];
        let words = self.lent_slab();
        let room = self.lent_room();
        let plan = &self.image[..self.size.min(BYTES)];
        let a = rti::abort(
            plan,
            self.state,
            &self.slab[..words],
            code,
            &mut deliveries[..room],
        );
        self.say_answer(rt, &deliveries, a)
    }
}
