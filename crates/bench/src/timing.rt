// What is timed: the steady requests of a session, compiling its plan, and recognising the compiled plan.
ghost use Rattle.std.specs.Prelude.{◌≤◌};

use crate::workload::REQUEST;
use rti::Answer;
use states::State;
use std::time::CpuClock;

// How often a pass compiles the plan, and how often it recognises the compiled plan.
pub const COMPILES: usize = 100;

pub const LOOKS: usize = 1000;

// The words of the slab and of the delivery buffer.
const SLAB: usize = 2048;

const ROOM: usize = 455;

// The words of a delivery.
const DELIVERY: usize = 7;

// A digest is below this prime; a word more comes in by this factor.
const PRIME: u64 = 2147483647;

const FACTOR: u64 = 1000003;

// What a session is asked: it is opened, and asked the requests that it starts with, then the steady ones.
#[derive(Clone, Copy)]
pub struct Asked<'a> {
    pub identity: u64,
    pub start: &'a [u64],
    pub steady: &'a [u64],
}

// What is lent to a call.
#[derive(Clone, Copy)]
pub struct Lent {
    pub slab: [u64; SLAB],
    pub deliveries: [u64; ROOM],
}

// What requests were answered with: the state, the sum of the refusals, how many deliveries were sent, and the digest of their
// words if it is asked for.
#[derive(Clone, Copy)]
pub struct Heard {
    pub state: State,
    pub refused: u64,
    pub sent: u64,
    pub digest: Option<u64>,
}

// The times that a pass took for the steady requests, for compiling and for recognising.
#[derive(Clone, Copy)]
pub struct Times {
    pub requests: u64,
    pub compiles: u64,
    pub looks: u64,
}

impl Times {
    // The lesser of each.
    fn min(self, other: Times) -> Times {
        Times {
            requests: self.requests.min(other.requests),
            compiles: self.compiles.min(other.compiles),
            looks: self.looks.min(other.looks),
        }
    }
}

// The processor time that the program has taken, in microseconds; 0 where it cannot be told.
fn clock(rt: &impl CpuClock) -> u64 {
    match rt.process_cpu_time() {
        Ok(time) => u64::try_from(time.as_micros()).unwrap_or(u64::MAX),
        Err(_) => 0,
    }
}

// The processor time since then.
fn since(rt: &impl CpuClock, start: u64) -> u64 {
    clock(rt).saturating_sub(start)
}

// A digest with one word more.
fn mixed(digest: u64, word: u64) -> u64 {
    (digest % PRIME * FACTOR + word % PRIME) % PRIME
}

// A digest with the words of so many deliveries more.
fn digest_of(deliveries: &[u64], count: usize, digest: u64) -> u64 {
    deliveries
        .iter()
        .take(count.saturating_mul(DELIVERY))
        .fold(digest, |d, word| mixed(d, *word))
}

impl Heard {
    // One answer more, with its deliveries.
    fn hear(&mut self, a: Answer, deliveries: &[u64]) {
        self.state = a.state;
        self.sent = self.sent.wrapping_add(a.count as u64);
        if let Some(digest) = self.digest {
            self.digest = Some(digest_of(deliveries, a.count, digest));
        }
    }

    // Asks each of the requests.
    fn ask(&mut self, plan: &[u8], requests: &[u64], lent: &mut Lent) {
        for request in requests.chunks_exact(REQUEST) {
            match rti::handle(
                plan,
                self.state,
                &mut lent.slab,
                request,
                &mut lent.deliveries,
            ) {
                Ok(a) => self.hear(a, &lent.deliveries),
                Err(r) => self.refused = self.refused.wrapping_add(r.number()),
            }
        }
    }
}

// One session: what it was answered, with the digest if that is asked for, and the time that the steady requests took.
pub fn session(
    rt: &impl CpuClock,
    plan: &[u8],
    asked: Asked<'_>,
    lent: &mut Lent,
    digest: Option<u64>,
) -> (Heard, u64) {
    let (state, refused) = match rti::open(plan, asked.identity, &mut lent.slab) {
        Ok(a) => (a.state, 0),
        Err(r) => (states::fresh(0, 0), r.number()),
    };
    let mut h = Heard {
        state,
        refused,
        sent: 0,
        digest,
    };
    h.ask(plan, asked.start, lent);
    let begin = clock(rt);
    h.ask(plan, asked.steady, lent);
    (h, since(rt, begin))
}

// The time of compiling so many times.
fn compile(rt: &impl CpuClock, bytes: &[u8], image: &mut [u8]) -> u64 {
    let start = clock(rt);
    for _ in 0..COMPILES {
        let _ = image::compile(bytes, image);
    }
    since(rt, start)
}

// The time of recognising so many times; each turn waits for the answer of the one before, and after a refusal looks at no bytes.
fn look(rt: &impl CpuClock, plan: &[u8]) -> u64 {
    let start = clock(rt);
    let mut size = plan.len();
    for _ in 0..LOOKS {
        if recognised::recognise(&plan[..size]).is_err() {
            size = 0;
        }
    }
    since(rt, start)
}

// One pass: the plan is compiled and recognised, and a session run on it.
fn pass(
    rt: &impl CpuClock,
    bytes: &[u8],
    plan: &mut [u8],
    asked: Asked<'_>,
    lent: &mut Lent,
) -> Times {
    let compiles = compile(rt, bytes, plan);
    let looks = look(rt, plan);
    let (_, requests) = session(rt, plan, asked, lent, None);
    Times {
        requests,
        compiles,
        looks,
    }
}

// The least times of so many passes over a plan, its compiled plan, and what is asked.
pub fn passes(
    rt: &impl CpuClock,
    count: u64,
    bytes: &[u8],
    plan: &mut [u8],
    asked: Asked<'_>,
    lent: &mut Lent,
) -> Times {
    let mut least = Times {
        requests: u64::MAX,
        compiles: u64::MAX,
        looks: u64::MAX,
    };
    for _ in 0..count {
        least = least.min(pass(rt, bytes, plan, asked, lent));
    }
    least
}

impl Lent {
    pub fn new() -> Lent {
        Lent {
            slab: [0; SLAB],
            deliveries: [0; ROOM],
        }
    }
}
