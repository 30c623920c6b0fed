// Plan bytes read, case by case: what is answered, written out.
#![tactic(auto)]

ghost use Rattle.std.specs.Prelude.{◌≤◌};

use plans::Plan;
use std::fmt::Display;
use std::io;

// The most that plan bytes can be: 24 + 16 * 32 + 32 * 256.
const MOST: usize = 8728;

// Bytes of a plan, with room for the most.
#[derive(Clone, Copy)]
struct Case {
    bytes: [u8; MOST],
}

impl Case {
    fn new() -> Case {
        Case { bytes: [0; MOST] }
    }

    // With a u32 at a place, where it has room.
    fn put32(mut self, at: usize, v: u32) -> Case {
        if at <= 8724 {
            basis::write_u32(&mut self.bytes, at, v);
        }
        self
    }

    // With a u64 at a place, where it has room.
    fn put64(mut self, at: usize, v: u64) -> Case {
        if at <= 8720 {
            basis::write_u64(&mut self.bytes, at, v);
        }
        self
    }

    // With the header of n members and e edges.
    fn header(self, n: u32, e: u32) -> Case
        requires n_bound { n ≤ 1000 }
        requires e_bound { e ≤ 1000 }
    {
        self.put32(0, 1)
            .put32(4, n)
            .put32(8, e)
            .put32(12, 24)
            .put32(16, 24 + 16 * n)
            .put32(20, 24 + 16 * n + 32 * e)
    }

    // With member row k.
    fn member(self, k: usize, id: u64, capacity: u32, zero: u32) -> Case
        requires { k ≤ 1000 }
    {
        self.put64(24 + 16 * k, id)
            .put32(32 + 16 * k, capacity)
            .put32(36 + 16 * k, zero)
    }

    // With edge row k, after n members.
    fn edge(self, n: usize, k: usize, id: u64, source: u64, target: u64, delay: u64) -> Case
        requires n_bound { n ≤ 1000 }
        requires k_bound { k ≤ 1000 }
    {
        let at = 24 + 16 * n + 32 * k;
        self.put64(at, id)
            .put64(at + 8, source)
            .put64(at + 16, target)
            .put64(at + 24, delay)
    }

    // With n member rows, from the rank `first` on in steps of `step`.
    fn ranked_members(mut self, n: usize, first: usize, step: usize) -> Case {
        let mut rank = first;
        for k in 0..n.min(32) {
            self = self.member(k, id_of(rank), (rank % 32) as u32, 0);
            rank = left(rank % 1000 + step % 1000, n);
        }
        self
    }

    // With e edge rows after n members, from the rank `first` on in steps of `step`.
    fn ranked_edges(mut self, n: usize, e: usize, first: usize, step: usize) -> Case
        requires { n ≤ 1000 }
    {
        let mut rank = first;
        for k in 0..e.min(256) {
            let r = rank % 256;
            let source = id_of(left(r, n));
            let target = id_of(left(5 * r + 1, n));
            self = self.edge(n, k, 3 * (r as u64), source, target, 7 * (r as u64));
            rank = left(rank % 1000 + step % 1000, e);
        }
        self
    }
}

// A line: a word and the first n numbers.
fn line<T: Display>(rt: &impl Print, word: &str, xs: &[T], n: usize) -> io::Result<()> {
    print!(rt; "{word}")?;
    for x in xs.iter().take(n) {
        print!(rt; " {x}")?;
    }
    println!(rt; "")
}

fn show_plan(rt: &impl Print, p: Plan) -> io::Result<()> {
    line(rt, "  members", &p.ids, p.members)?;
    line(rt, "  capacities", &p.capacities, p.members)?;
    line(rt, "  edges", &p.routes, p.edges)?;
    line(rt, "  delays", &p.delays, p.edges)?;
    line(rt, "  sources", &p.sources, p.edges)?;
    line(rt, "  targets", &p.targets, p.edges)
}

// What is answered for plan bytes.
fn answer(rt: &impl Print, bytes: &[u8]) -> io::Result<()> {
    match plans::read(bytes) {
        Ok(p) => show_plan(rt, p),
        Err(r) => {
            let said = [r.number(), r.mask(), r.first(), r.second()];
            line(rt, "  refused", &said, 4)
        }
    }
}

// A case: its name, and what is answered for the first `length` of the bytes.
fn show(rt: &impl Print, name: &str, case: Case, length: usize) -> io::Result<()> {
    println!(rt; "{name}")?;
    if let Some(part) = case.bytes.get(..length) {
        answer(rt, part)?;
    }
    Ok(())
}

// Members 100 and 200, edge 7 from the first to the second and edge 8 back: 120 bytes.
fn two() -> Case {
    Case::new()
        .header(2, 2)
        .member(0, 100, 1, 0)
        .member(1, 200, 1, 0)
        .edge(2, 0, 7, 100, 200, 10)
        .edge(2, 1, 8, 200, 100, 20)
}

// The whole case P: members 100 and 200, edge 7: 88 bytes.
fn case_p() -> Case {
    two().header(2, 1)
}

// What is left of x by n; 0 where n is 0.
fn left(x: usize, n: usize) -> usize {
    x.checked_rem(n).unwrap_or(0)
}

// The id of the member of a rank.
fn id_of(rank: usize) -> u64 {
    100 + 10 * ((rank % 32) as u64)
}

// n members and e edges, the rows from the rank `first` on in steps of `step`.
fn ranked(n: u32, e: u32, first: usize, step: usize) -> Case
    requires n_bound { n ≤ 1000 }
    requires e_bound { e ≤ 1000 }
{
    Case::new()
        .header(n, e)
        .ranked_members(n as usize, first, step)
        .ranked_edges(n as usize, e as usize, first, step)
}

// The plans that are taken.
fn taken(rt: &impl Print) -> io::Result<()> {
    show(rt, "the whole case P", case_p(), 88)?;
    show(rt, "no members, no edges", Case::new().header(0, 0), 24)?;
    show(rt, "two members, no edges", two().header(2, 0), 56)?;
    show(rt, "capacity 32", two().put32(32, 32), 120)?;
    show(
        rt,
        "capacity 0, delay 0",
        two().put32(32, 0).put64(80, 0),
        120,
    )?;
    show(
        rt,
        "an edge from a member to itself",
        two().put64(72, 100),
        120,
    )?;
    show(
        rt,
        "parallel edges",
        two().put64(96, 100).put64(104, 200),
        120,
    )?;
    show(
        rt,
        "ids 0 and 2^64-1, members",
        two()
            .put64(24, u64::MAX)
            .put64(40, 0)
            .put64(64, u64::MAX)
            .put64(72, 0)
            .put64(96, 0)
            .put64(104, u64::MAX),
        120,
    )?;
    show(
        rt,
        "ids 2^64-1 and 0, edges; delay 2^64-1",
        two().put64(56, u64::MAX).put64(88, 0).put64(80, u64::MAX),
        120,
    )?;
    show(
        rt,
        "a member and an edge of one id",
        two().put64(56, 100),
        120,
    )
}

// The same rows in other orders.
fn orders(rt: &impl Print) -> io::Result<()> {
    show(rt, "three rows, order 0 1 2", ranked(3, 3, 0, 1), 168)?;
    show(rt, "three rows, order 1 2 0", ranked(3, 3, 1, 1), 168)?;
    show(rt, "three rows, order 2 0 1", ranked(3, 3, 2, 1), 168)?;
    show(rt, "three rows, order 0 2 1", ranked(3, 3, 0, 2), 168)?;
    show(rt, "three rows, order 1 0 2", ranked(3, 3, 1, 2), 168)?;
    show(rt, "three rows, order 2 1 0", ranked(3, 3, 2, 2), 168)?;
    show(
        rt,
        "32 members and 256 edges, ascending",
        ranked(32, 256, 0, 1),
        8728,
    )?;
    show(
        rt,
        "32 members and 256 edges, steps of 11 from 5",
        ranked(32, 256, 5, 11),
        8728,
    )
}

// Each refusal met alone.
fn alone(rt: &impl Print) -> io::Result<()> {
    show(rt, "1: no bytes", two(), 0)?;
    show(rt, "1: 23 bytes", two(), 23)?;
    show(rt, "1: version 0", two().put32(0, 0), 120)?;
    show(rt, "1: version 2", two().put32(0, 2), 120)?;
    show(rt, "2: 33 members", two().header(33, 0), 552)?;
    show(rt, "2: 2^32-1 members", two().put32(4, 4294967295), 120)?;
    show(rt, "3: 257 edges", two().header(0, 257), 8248)?;
    show(rt, "3: 2^32-1 edges", two().put32(8, 4294967295), 120)?;
    show(rt, "1: member offset 25", two().put32(12, 25), 120)?;
    show(rt, "1: edge offset 72", two().put32(16, 72), 120)?;
    show(rt, "1: total 121", two().put32(20, 121), 120)?;
    show(rt, "1: a byte short", two(), 119)?;
    show(rt, "1: a byte over", two(), 121)?;
    show(
        rt,
        "1: zero field of the first row",
        two().put32(36, 1),
        120,
    )?;
    show(
        rt,
        "1: zero field of the second row",
        two().put32(52, 2147483648),
        120,
    )?;
    show(rt, "4: capacity 33", two().put32(48, 33), 120)?;
    show(rt, "5: the second member again", two().put64(40, 100), 120)?;
    show(
        rt,
        "5: the last of 32 is the first",
        ranked(32, 256, 0, 1).put64(520, 100),
        8728,
    )?;
    show(rt, "6: the second edge again", two().put64(88, 7), 120)?;
    show(
        rt,
        "6: the last of 256 is the first",
        ranked(32, 256, 7, 1).put64(8696, 21),
        8728,
    )?;
    show(rt, "7: source", two().put64(64, 300), 120)?;
    show(rt, "7: target", two().put64(72, 400), 120)?;
    show(
        rt,
        "7: target of the last of 256",
        ranked(32, 256, 0, 1).put64(8712, 99),
        8728,
    )?;
    show(rt, "7: an edge without members", two().header(0, 1), 56)
}

// Neighbouring refusals together: the earlier of the table is answered.
fn together(rt: &impl Print) -> io::Result<()> {
    show(
        rt,
        "1 before 2: version 2, 33 members",
        two().header(33, 2).put32(0, 2),
        616,
    )?;
    show(
        rt,
        "2 before 3: 33 members, 257 edges",
        two().header(33, 257),
        120,
    )?;
    show(
        rt,
        "2 before 1: 33 members, offsets wrong",
        two().put32(4, 33),
        120,
    )?;
    show(
        rt,
        "3 before 1: 257 edges, offsets wrong",
        two().put32(8, 257),
        120,
    )?;
    show(
        rt,
        "1 before 4: total wrong, capacity 33",
        two().put32(20, 121).put32(32, 33),
        120,
    )?;
    show(
        rt,
        "1 before 4: zero field and capacity of one row",
        two().put32(36, 1).put32(32, 33),
        120,
    )?;
    show(
        rt,
        "4 before 1: capacity of the first row, zero field of the second",
        two().put32(32, 33).put32(52, 1),
        120,
    )?;
    show(
        rt,
        "1 before 5: zero field of the second row, its id again",
        two().put64(40, 100).put32(52, 1),
        120,
    )?;
    show(
        rt,
        "4 before 5: capacity of the second row, its id again",
        two().put64(40, 100).put32(48, 33),
        120,
    )?;
    show(
        rt,
        "5 before 6: a member and an edge again",
        two().put64(40, 100).put64(88, 7),
        120,
    )?;
    show(
        rt,
        "5 before 7: a member again, source undeclared",
        two().put64(40, 100).put64(64, 300),
        120,
    )?;
    show(
        rt,
        "6 before 7: one edge again and its source undeclared",
        two().put64(88, 7).put64(96, 300),
        120,
    )?;
    show(
        rt,
        "7 before 6: first edge's target undeclared, second edge again",
        two().put64(88, 7).put64(72, 400),
        120,
    )?;
    show(
        rt,
        "7, source before target",
        two().put64(64, 300).put64(72, 400),
        120,
    )?;
    show(
        rt,
        "7, first edge's target before second edge's source",
        two().put64(72, 400).put64(96, 300),
        120,
    )
}

fn main(rt: HostRuntime) -> io::Result<()> {
    taken(&rt)?;
    orders(&rt)?;
    alone(&rt)?;
    together(&rt)
}
