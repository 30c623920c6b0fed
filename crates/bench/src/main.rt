// Times the coordinator on a workload: a plan, an opening and requests on standard input, in the script's words. It says what was
// answered, in numbers that another coordinator can be held to; and, for a line `passes N`, the least times of N passes.
#![tactic(auto)]

mod timing;
mod workload;

use crate::timing::{Asked, COMPILES, Heard, LOOKS, Lent, Times};
use crate::workload::REQUEST;
use std::io;
use std::time::CpuClock;
use text::Output;

// The most bytes of a plan, and the words of all requests.
const PLAN: usize = 8728;

const WORDS: usize = 114688;

// The most bytes of a compiled plan.
const IMAGE: usize = 31920;

// The bytes of the buffer that a line is gathered in.
const OUT: usize = 64;

// A line: a word and numbers.
fn say(rt: &impl Print, word: &[u8], numbers: &[u64]) -> io::Result<()> {
    let mut out: Output<OUT> = Output::new();
    out.put(rt, word)?;
    for n in numbers {
        out.put_item(rt, *n)?;
    }
    out.put(rt, b"\n")?;
    out.flush(rt)
}

// What was answered.
fn say_heard(rt: &impl Print, total: usize, asked: usize, h: Heard) -> io::Result<()> {
    say(rt, b"compiled", &[total as u64])?;
    say(rt, b"steady", &[asked as u64])?;
    say(rt, b"refused", &[h.refused])?;
    say(rt, b"cause", &[h.state.cause])?;
    say(rt, b"deliveries", &[h.sent])?;
    say(rt, b"digest", &[h.digest.unwrap_or(0)])
}

// The times: what was timed, how often, and the microseconds.
fn say_times(rt: &impl Print, asked: usize, t: Times) -> io::Result<()> {
    say(rt, b"time request", &[asked as u64, t.requests])?;
    say(rt, b"time compile", &[COMPILES as u64, t.compiles])?;
    say(rt, b"time recognise", &[LOOKS as u64, t.looks])
}

// Answers a workload: plan bytes, and what a session is asked.
fn bench(
    rt: &(impl Print + CpuClock),
    bytes: &[u8],
    asked: Asked<'_>,
    passes: u64,
) -> io::Result<()> {
    let mut image = [0u8; IMAGE];
    let mut lent = Lent::new();
    let total = image::compile(bytes, &mut image).unwrap_or(0).min(IMAGE);
    let requests = asked.steady.len() / REQUEST;
    let (h, _) = timing::session(rt, &image[..total], asked, &mut lent, Some(0));
    say_heard(rt, total, requests, h)?;
    if passes == 0 {
        return Ok(());
    }
    let t = timing::passes(rt, passes, bytes, &mut image[..total], asked, &mut lent);
    say_times(rt, requests, t)
}

fn main(rt: HostRuntime) -> io::Result<()> {
    let mut bytes = [0u8; PLAN];
    let mut requests = [0u64; WORDS];
    let w = workload::read(&mut rt.reader(), &mut bytes, &mut requests);
    let words = w.words.min(WORDS);
    let first = w.steady.min(words);
    let asked = Asked {
        identity: w.identity,
        start: &requests[..first],
        steady: &requests[first..words],
    };
    bench(&rt, &bytes[..w.size.min(PLAN)], asked, w.passes)
}
