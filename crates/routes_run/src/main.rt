// Plans at work: of those with a closed walk without delay a witness, the check of it, and of three damaged ones; of the
// others paths, with the sum of their delays.
#![tactic(auto)]

ghost use Rattle.std.specs.Prelude.{◌<◌, ◌≤◌};

use plans::Refusal;
use routes::Walk;
use std::io;

// Room for 32 members and 32 edges.
const ROOM: usize = 1560;

// No walk.
const NOWHERE: Walk = Walk {
    count: 0,
    edges: [0; 32],
};

fn yes_or_no(b: bool) -> &'static str {
    if b { "yes" } else { "no" }
}

// The header of a plan of n members and e edges.
fn header(b: &mut [u8; ROOM], n: u32, e: u32)
    requires { (n ≤ 32) × (e ≤ 32) }
{
    basis::write_u32(b, 0, 1);
    basis::write_u32(b, 4, n);
    basis::write_u32(b, 8, e);
    basis::write_u32(b, 12, 24);
    basis::write_u32(b, 16, 24 + 16 * n);
    basis::write_u32(b, 20, 24 + 16 * n + 32 * e);
}

// Member i, with id 10 more than the one before it and capacity 1.
fn member(b: &mut [u8; ROOM], i: usize)
    requires { i < 32 }
{
    let at = 24 + 16 * i;
    basis::write_u64(b, at, 10 * i as u64);
    basis::write_u32(b, at + 8, 1);
    basis::write_u32(b, at + 12, 0);
}

// Edge k of a plan of n members, between the members at two positions.
fn edge(b: &mut [u8; ROOM], n: usize, k: usize, s: u64, t: u64, d: u64)
    requires { (n ≤ 32) × (k < 32) × (s ≤ 32) × (t ≤ 32) }
{
    let at = 24 + 16 * n + 32 * k;
    basis::write_u64(b, at, k as u64);
    basis::write_u64(b, at + 8, 10 * s);
    basis::write_u64(b, at + 16, 10 * t);
    basis::write_u64(b, at + 24, d);
}

// A plan of n members and e edges that are still to be written.
fn begin(b: &mut [u8; ROOM], n: usize, e: usize)
    requires { (n ≤ 32) × (e ≤ 32) }
{
    header(b, n as u32, e as u32);
    for i in 0..n {
        member(b, i);
    }
}

// The refusal's number, or 0 and the walk.
fn outcome(found: Result<Walk, Refusal>) -> (u64, Walk) {
    match found {
        Ok(w) => (0, w),
        Err(r) => (r.number(), NOWHERE),
    }
}

// The first position changed.
fn changed(mut w: Walk, edge: u64) -> Walk {
    w.edges[0] = edge;
    w
}

// A step left out.
fn shorter(w: Walk) -> Walk {
    Walk {
        count: w.count.saturating_sub(1),
        ..w
    }
}

// The positions that a walk lists.
fn show(rt: &impl Print, w: Walk) -> io::Result<()> {
    for edge in w.edges.iter().take(w.count) {
        print!(rt; " {edge}")?;
    }
    Ok(())
}

// The witness of a plan, and whether the check takes it; then it with the first position changed to `other`, with a step
// left out, and with the first position changed to `late`, an edge with a delay or none of the plan's.
fn show_witness(rt: &impl Print, name: &str, plan: &[u8], other: u64, late: u64) -> io::Result<()> {
    let (refusal, walk) = outcome(routes::witness(plan));
    print!(rt; "{name}: refusal {refusal} count {} edges", walk.count)?;
    show(rt, walk)?;
    let takes = |w: Walk| yes_or_no(routes::check_witness(plan, w));
    println!(rt;
        "; taken {}, changed {}, a step less {}, delayed {}",
        takes(walk),
        takes(changed(walk, other)),
        takes(shorter(walk)),
        takes(changed(walk, late))
    )
}

// The delays of the edges that a walk lists, together; 0 where the plan is refused.
fn sum(plan: &[u8], w: Walk) -> u64 {
    let Ok(p) = plans::read(plan) else {
        return 0;
    };
    let mut total: u64 = 0;
    for edge in w.edges.iter().take(w.count) {
        if let Some(d) = p.delays.get(*edge as usize) {
            total = total.wrapping_add(*d);
        }
    }
    total
}

// A path, and the sum of its delays.
fn show_path(rt: &impl Print, plan: &[u8], from: u64, to: u64) -> io::Result<()> {
    let (refusal, walk) = outcome(routes::path(plan, from, to));
    print!(rt; "path {from} to {to}: refusal {refusal} edges")?;
    show(rt, walk)?;
    println!(rt; " sum {}", sum(plan, walk))
}

// A member that has an edge without delay to itself.
fn itself(b: &mut [u8; ROOM]) {
    begin(b, 2, 2);
    edge(b, 2, 0, 0, 1, 5);
    edge(b, 2, 1, 1, 1, 0);
}

// Two that reach each other, and one that hangs on them.
fn pair(b: &mut [u8; ROOM]) {
    begin(b, 3, 4);
    edge(b, 3, 0, 1, 0, 0);
    edge(b, 3, 1, 0, 2, 0);
    edge(b, 3, 2, 0, 1, 3);
    edge(b, 3, 3, 0, 1, 0);
}

// Three in a ring, one that leads to them, and a way back with a delay.
fn tail(b: &mut [u8; ROOM]) {
    begin(b, 4, 5);
    edge(b, 4, 0, 0, 1, 0);
    edge(b, 4, 1, 3, 1, 0);
    edge(b, 4, 2, 2, 0, 7);
    edge(b, 4, 3, 1, 2, 0);
    edge(b, 4, 4, 2, 3, 0);
}

// All 32 in a ring.
fn ring(b: &mut [u8; ROOM]) {
    begin(b, 32, 32);
    edge(b, 32, 31, 31, 0, 0);
    for i in 0..31 {
        edge(b, 32, i, i as u64, i as u64 + 1, 0);
    }
}

// No closed walk without delay: 9 directly, 2 and 3 on the way.
fn clear(b: &mut [u8; ROOM]) {
    begin(b, 5, 5);
    edge(b, 5, 0, 0, 2, 9);
    edge(b, 5, 1, 0, 1, 2);
    edge(b, 5, 2, 1, 2, 3);
    edge(b, 5, 3, 2, 3, 0);
    edge(b, 5, 4, 3, 0, 1);
}

fn small_witnesses(rt: &impl Print, b: &mut [u8; ROOM]) -> io::Result<()> {
    itself(b);
    show_witness(rt, "itself", &b[0..120], 0, 0)?;
    pair(b);
    show_witness(rt, "pair", &b[0..200], 1, 2)?;
    tail(b);
    show_witness(rt, "tail", &b[0..248], 0, 2)
}

fn other_witnesses(rt: &impl Print, b: &mut [u8; ROOM]) -> io::Result<()> {
    ring(b);
    show_witness(rt, "ring", &b[..], 5, 32)?;
    clear(b);
    show_witness(rt, "clear", &b[0..264], 1, 2)?;
    show_witness(rt, "cut short", &b[0..263], 1, 2)
}

fn clear_paths(rt: &impl Print, b: &mut [u8; ROOM]) -> io::Result<()> {
    clear(b);
    let plan = &b[0..264];
    show_path(rt, plan, 0, 2)?;
    show_path(rt, plan, 0, 3)?;
    show_path(rt, plan, 0, 0)?;
    show_path(rt, plan, 1, 1)?;
    show_path(rt, plan, 3, 2)?;
    show_path(rt, plan, 0, 4)?;
    show_path(rt, plan, 5, 0)?;
    show_path(rt, plan, 0, 18446744073709551615)
}

fn ring_paths(rt: &impl Print, b: &mut [u8; ROOM]) -> io::Result<()> {
    ring(b);
    show_path(rt, &b[..], 0, 1)?;
    edge(b, 32, 31, 31, 0, 6);
    show_path(rt, &b[..], 0, 31)?;
    show_path(rt, &b[..], 4, 4)?;
    show_path(rt, &b[..], 9, 8)
}

fn main(rt: HostRuntime) -> io::Result<()> {
    let mut b = [0u8; ROOM];
    small_witnesses(&rt, &mut b)?;
    other_witnesses(&rt, &mut b)?;
    clear_paths(&rt, &mut b)?;
    ring_paths(&rt, &mut b)
}
