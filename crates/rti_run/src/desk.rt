// A host's desk: the state, the words that it lends, and calls from tables. Each call is printed as a line of a script, and below
// it, two spaces in, what is answered and what it leaves.
use rti::{Answer, Refusal};
use states::{MemberState, State};
use std::io;

// Slab words: 64 for each of two members, and two more. Delivery words: seven for each of five deliveries, and five more.
const SLAB: usize = 130;

const ROOM: usize = 40;

// What each word is before it is lent.
const MARK: u64 = 99;

// Words of a request, and the most that are lent.
const WORDS: usize = 7;

const MOST: usize = 8;

// Kinds of requests, and classes of tags: numbers, as a request's words have them, since some rows are malformed.
pub const HELLO: u64 = 1;

pub const PUBLISH: u64 = 2;

pub const COMPLETE: u64 = 3;

pub const PAYLOAD: u64 = 4;

pub const CONFIRM: u64 = 5;

pub const STOP: u64 = 6;

pub const ABORT: u64 = 7;

pub const NEVER: u64 = 0;

pub const FINITE: u64 = 1;

pub const FOREVER: u64 = 2;

pub const NONE: u64 = 3;

// A row of a table.
#[derive(Clone, Copy)]
pub enum Row {
    // a request
    Ask([u64; 7]),
    // a refusal's number; one, and another that would come after it
    Note(u64),
    Before(u64, u64),
    // an opening by an identity; and Hello from members 0 and 1; and both without event, confirmed at revision 1
    Open(u64),
    Start(u64),
    Rest(u64),
    // the owner's abort with a code
    Owner(u64),
    // how many words are lent: of the slab, of deliveries, of a request
    Lend(usize),
    Take(usize),
    Cut(usize),
    // a word of the slab, by its place
    Word(usize, u64),
    // the state's count of members; its cause and its code
    Count(usize),
    Cause(u64, u64),
    // a member that has joined and is idle at revision 1, and no more, and whether it has stopped
    Idle(usize, bool),
}

// The state, the slab, and how many words are lent of the slab, of deliveries and of a request.
#[derive(Clone, Copy)]
pub struct Desk {
    state: State,
    slab: [u64; SLAB],
    lent: usize,
    room: usize,
    long: usize,
}

// Every word.
fn words(rt: &impl Print, w: &[u64]) -> io::Result<()> {
    for x in w {
        print!(rt; " {x}")?;
    }
    Ok(())
}

// How many words are marked.
fn marked(w: &[u64]) -> usize {
    w.iter().filter(|x| **x == MARK).count()
}

fn refused(rt: &impl Print, r: Refusal) -> io::Result<()> {
    println!(rt; "  refused {} 0 0 0", r.number())
}

impl Desk {
    // A desk before any opening.
    pub fn new() -> Desk {
        Desk {
            state: states::fresh(0, 0),
            slab: [MARK; SLAB],
            lent: SLAB,
            room: ROOM,
            long: WORDS,
        }
    }

    // What a call leaves: what ended the session and its code, whether it is finished, how many delivery words and slab words are
    // as they were before they were lent first, and the other slab words that are not 0, with their places.
    fn left(&self, rt: &impl Print, out: &[u64]) -> io::Result<()> {
        print!(rt;
            "  cause {} {} finished {} left {} slab {}",
            self.state.cause,
            self.state.code,
            rti::finished(self.state) as u64,
            marked(out),
            marked(&self.slab)
        )?;
        for (i, w) in self.slab.iter().enumerate() {
            if *w != 0 && *w != MARK {
                print!(rt; " {i}:{w}")?;
            }
        }
        println!(rt; "")
    }

    // A refusal, or the deliveries, how many, and whether the session is finished; and what is left.
    fn answered(
        &mut self,
        rt: &impl Print,
        answer: Result<Answer, Refusal>,
        out: &[u64],
    ) -> io::Result<()> {
        match answer {
            Ok(a) => {
                for d in out.chunks_exact(WORDS).take(a.count) {
                    print!(rt; "  deliver")?;
                    words(rt, d)?;
                    println!(rt; "")?;
                }
                println!(rt; "  answered {} {}", a.count, rti::finished(a.state) as u64)?;
                self.state = a.state;
            }
            Err(r) => refused(rt, r)?,
        }
        self.left(rt, out)
    }

    // Opens a session. A refused opening leaves the earlier state.
    fn open(&mut self, rt: &impl Print, plan: &[u8], identity: u64) -> io::Result<()> {
        println!(rt; "open {identity}")?;
        let n = self.lent.min(SLAB);
        match rti::open(plan, identity, &mut self.slab[..n]) {
            Ok(a) => {
                println!(rt; "  opened")?;
                self.state = a.state;
            }
            Err(r) => refused(rt, r)?,
        }
        self.left(rt, &[MARK; ROOM])
    }

    // Hands a request to the session, as many words of it as are lent.
    fn ask(&mut self, rt: &impl Print, plan: &[u8], w: [u64; 7]) -> io::Result<()> {
        let eight = [w[0], w[1], w[2], w[3], w[4], w[5], w[6], 0];
        let request = &eight[..self.long.min(MOST)];
        print!(rt; "request")?;
        words(rt, request)?;
        println!(rt; "")?;
        let mut out = [MARK; ROOM];
        let n = self.lent.min(SLAB);
        let k = self.room.min(ROOM);
        let a = rti::handle(
            plan,
            self.state,
            &mut self.slab[..n],
            request,
            &mut out[..k],
        );
        self.answered(rt, a, &out)
    }

    // The owner's abort.
    fn abort(&mut self, rt: &impl Print, plan: &[u8], code: u64) -> io::Result<()> {
        println!(rt; "abort {code}")?;
        let mut out = [MARK; ROOM];
        let n = self.lent.min(SLAB);
        let k = self.room.min(ROOM);
        let a = rti::abort(plan, self.state, &self.slab[..n], code, &mut out[..k]);
        self.answered(rt, a, &out)
    }

    // An opening, and Hello from members 0 and 1.
    fn start(&mut self, rt: &impl Print, plan: &[u8], identity: u64) -> io::Result<()> {
        self.open(rt, plan, identity)?;
        self.ask(rt, plan, [0, HELLO, identity, NONE, 0, 0, 0])?;
        self.ask(rt, plan, [1, HELLO, identity, NONE, 0, 0, 0])
    }

    // The same, and both publish that they have no event, and confirm it.
    fn rest(&mut self, rt: &impl Print, plan: &[u8], identity: u64) -> io::Result<()> {
        self.start(rt, plan, identity)?;
        self.ask(rt, plan, [0, PUBLISH, 1, NONE, 0, 0, 0])?;
        self.ask(rt, plan, [1, PUBLISH, 1, NONE, 0, 0, 0])?;
        self.ask(rt, plan, [0, CONFIRM, 1, NONE, 0, 0, 0])?;
        self.ask(rt, plan, [1, CONFIRM, 1, NONE, 0, 0, 0])
    }

    // Prints a state that was put in place.
    fn changed(&self, rt: &impl Print) -> io::Result<()> {
        let s = self.state;
        println!(rt;
            "state {} {} {} {}\n  state",
            s.count, s.identity, s.cause, s.code
        )
    }

    // Does what a row says.
    fn turn(&mut self, rt: &impl Print, plan: &[u8], row: Row) -> io::Result<()> {
        match row {
            Row::Ask(w) => self.ask(rt, plan, w),
            Row::Note(n) => println!(rt; "# {n}"),
            Row::Before(n, k) => println!(rt; "# {n} before {k}"),
            Row::Open(identity) => self.open(rt, plan, identity),
            Row::Start(identity) => self.start(rt, plan, identity),
            Row::Rest(identity) => self.rest(rt, plan, identity),
            Row::Owner(code) => self.abort(rt, plan, code),
            Row::Lend(n) => {
                self.lent = n;
                println!(rt; "slab {n}\n  slab {n}")
            }
            Row::Take(n) => {
                self.room = n;
                println!(rt; "room {n}\n  room {n}")
            }
            Row::Cut(n) => {
                self.long = n;
                Ok(())
            }
            Row::Word(place, value) => {
                if place < SLAB {
                    self.slab[place] = value;
                }
                println!(rt; "word {place} {value}\n  word")
            }
            Row::Count(n) => {
                self.state.count = n;
                self.changed(rt)
            }
            Row::Cause(cause, code) => {
                self.state.cause = cause;
                self.state.code = code;
                self.changed(rt)
            }
            Row::Idle(member, stopped) => {
                if member < 32 {
                    self.state.members[member] = MemberState {
                        joined: true,
                        idle: Some(1),
                        stopped,
                        ..states::blank()
                    };
                }
                println!(rt;
                    "member {member} 1 0 0 3 0 0 0 0 3 0 0 3 0 0 3 0 0 0 0 1 1 {} 0\n  member",
                    stopped as u64
                )
            }
        }
    }

    // Does what the rows of a table say, one after the other.
    pub fn run(&mut self, rt: &impl Print, plan: &[u8], rows: &[Row]) -> io::Result<()> {
        for row in rows {
            self.turn(rt, plan, *row)?;
        }
        Ok(())
    }
}
