// Plans compiled, case by case: the refusal and what it gives, the total, the sum of the bytes written, how many bytes of the
// output are as they were, and for small plans every u32 of the image.
#![tactic(auto)]

ghost use Rattle.std.specs.Prelude.{◌+◌, ◌*◌, ◌<◌, ◌≤◌, length};

use plans::Refusal;
use std::io;

// The most that plan bytes can be, and the bytes of the output.
const MOST: usize = 8728;

const OUT: usize = 32000;

// What each byte of the output is before.
const MARK: u8 = 170;

// An output, and how many bytes of it are written.
#[derive(Clone, Copy)]
struct Written {
    out: [u8; OUT],
    total: usize,
}

// Plan bytes as they are put together, for so many members.
#[derive(Clone, Copy)]
struct Draft {
    bytes: [u8; MOST],
    members: usize,
    ghost few: { members ≤ 1000 },
}

// A u32 at a place, where it has room.
fn put32(b: &mut [u8; MOST], at: usize, v: u32) {
    if at <= 8724 {
        basis::write_u32(b, at, v);
    }
}

// A u64 at a place, where it has room.
fn put64(b: &mut [u8; MOST], at: usize, v: u64) {
    if at <= 8720 {
        basis::write_u64(b, at, v);
    }
}

impl Draft {
    // The header of n members and e edges.
    fn new(n: u32, e: u32) -> Draft
        requires { (n ≤ 1000) × (e ≤ 1000) }
    {
        let mut bytes = [0u8; MOST];
        put32(&mut bytes, 0, 1);
        put32(&mut bytes, 4, n);
        put32(&mut bytes, 8, e);
        put32(&mut bytes, 12, 24);
        put32(&mut bytes, 16, 24 + 16 * n);
        put32(&mut bytes, 20, 24 + 16 * n + 32 * e);
        Draft {
            bytes,
            members: n as usize,
        }
    }

    // Member row k.
    fn member(mut self, k: usize, id: u64, capacity: u32) -> Draft
        requires { k ≤ 1000 }
    {
        let at = 24 + 16 * k;
        put64(&mut self.bytes, at, id);
        put32(&mut self.bytes, at + 8, capacity);
        self
    }

    // Edge row k.
    fn edge(mut self, k: usize, id: u64, source: u64, target: u64, delay: u64) -> Draft
        requires { k ≤ 1000 }
    {
        let at = 24 + 16 * self.members + 32 * k;
        put64(&mut self.bytes, at, id);
        put64(&mut self.bytes, at + 8, source);
        put64(&mut self.bytes, at + 16, target);
        put64(&mut self.bytes, at + 24, delay);
        self
    }
}

// A sum that sees the order of bytes.
fn digest(b: &[u8]) -> u64 {
    let mut sum: u64 = 0;
    for x in b {
        sum = (sum * 31 + u64::from(*x)) % 1000003;
    }
    sum
}

// How many bytes are marked.
fn marked(b: &[u8]) -> usize {
    b.iter().filter(|x| **x == MARK).count()
}

// Every u32 of the bytes.
fn words(rt: &impl Print, b: &[u8]) -> io::Result<()> {
    for k in 0..b.len() / 4 {
        let word = basis::read_u32(b, 4 * k);
        print!(rt; " {word}")?;
    }
    println!(rt; "")
}

// The refusal and what it gives, and the total.
fn answer(rt: &impl Print, c: Result<usize, Refusal>) -> io::Result<()> {
    let (number, mask, first, second, total) = match c {
        Ok(total) => (0, 0, 0, 0, total),
        Err(r) => (r.number(), r.mask(), r.first(), r.second(), 0),
    };
    print!(rt; "refusal {number} {mask} {first} {second} total {total}")
}

// The sum of the bytes written, and how many are as they were.
fn bytes(rt: &impl Print, out: &[u8], total: usize) -> io::Result<()> {
    if total <= out.len() {
        let sum = digest(&out[..total]);
        let left = marked(&out[total..]);
        print!(rt; " sum {sum} left {left}")?;
    }
    println!(rt; "")
}

// P: members 100 and 200 with capacity 1, edge 7 from 100 to 200, delay 10.
fn plan_p() -> Draft {
    Draft::new(2, 1)
        .member(0, 100, 1)
        .member(1, 200, 1)
        .edge(0, 7, 100, 200, 10)
}

// Members 1, 2, 3; a direct delay of 9 from 1 to 3 beside the path of 2 and 3. Rows are not in order.
fn detour() -> Draft {
    Draft::new(3, 3)
        .member(0, 3, 30)
        .member(1, 1, 10)
        .member(2, 2, 20)
        .edge(0, 12, 1, 3, 9)
        .edge(1, 11, 2, 3, 3)
        .edge(2, 10, 1, 2, 2)
}

// Two edges of one delay in a row.
fn chain(delay: u64) -> Draft {
    Draft::new(3, 2)
        .member(0, 1, 0)
        .member(1, 2, 0)
        .member(2, 3, 0)
        .edge(0, 1, 1, 2, delay)
        .edge(1, 2, 2, 3, delay)
}

// A member with an edge of no delay to itself.
fn self_loop() -> Draft {
    Draft::new(1, 1).member(0, 9, 1).edge(0, 1, 9, 9, 0)
}

// The largest image: 32 members, 256 edges, a path for every pair. There are eight edges from each member, to the eight
// after it.
fn largest() -> Draft {
    let mut d = Draft::new(32, 256);
    for i in 0..32usize {
        d = d.member(i, 1000 - 10 * (i as u64), i as u32);
    }
    for k in 0..256usize {
        let s = k / 8;
        let t = (s + 1 + k % 8) % 32;
        let source = 1000 - 10 * (s as u64);
        let target = 1000 - 10 * (t as u64);
        d = d.edge(k, 9000 - k as u64, source, target, k as u64 + 1);
    }
    d
}

// A case: its name, what is answered for the first `given` bytes of a plan and `room` bytes of output, and what is written.
fn told(rt: &impl Print, name: &str, plan: &Draft, given: usize, room: usize) -> io::Result<Written>
    requires { (given ≤ 8728) × (room ≤ 32000) }
{
    println!(rt; "{name}")?;
    let mut out = [MARK; OUT];
    let c = image::compile(&plan.bytes[..given], &mut out[..room]);
    answer(rt, c)?;
    let total = c.unwrap_or(0);
    bytes(rt, &out, total)?;
    Ok(Written { out, total })
}

// The same, with every u32 of the image.
fn shown(rt: &impl Print, name: &str, plan: &Draft, given: usize, room: usize) -> io::Result<()>
    requires { (given ≤ 8728) × (room ≤ 32000) }
{
    let w = told(rt, name, plan, given, room)?;
    if w.total <= OUT {
        words(rt, &w.out[..w.total])?;
    }
    Ok(())
}

fn main(rt: HostRuntime) -> io::Result<()> {
    let p = plan_p();
    shown(&rt, "P", &p, 88, 188)?;
    told(&rt, "P, one byte short", &p, 88, 187)?;
    told(&rt, "P, longer", &p, 88, 200)?;
    told(&rt, "P, no output", &p, 88, 0)?;
    told(&rt, "P without its last byte", &p, 87, 188)?;
    let none = Draft::new(0, 0);
    shown(&rt, "no members", &none, 24, 48)?;
    told(&rt, "no members, one byte short", &none, 24, 47)?;
    shown(&rt, "direct 9, path 2 and 3", &detour(), 168, 348)?;
    told(&rt, "2^62 twice", &chain(1 << 62), 136, 32000)?;
    told(&rt, "2^63 twice", &chain(1 << 63), 136, 32000)?;
    told(&rt, "zero self-loop", &self_loop(), 72, 32000)?;
    let m = largest();
    told(&rt, "largest", &m, MOST, 31920)?;
    told(&rt, "largest, one byte short", &m, MOST, 31919)?;
    told(&rt, "largest, longer", &m, MOST, 32000)?;
    Ok(())
}
