// The compiled plan, written.
#![tactic(auto)]

ghost use Rattle.std.specs.Prelude.{◌≡◌, Bool, ℕ, ◌+◌, ◌*◌, ◌<◌, ◌≤◌, List, [], ◌∷◌, ◌++◌, get_or, length};
ghost use Rattle.basis.specs.Choice.{pick};
ghost use Rattle.basis.specs.Numbers.{bytes};
ghost use Rattle.plans.specs.Values.{Fits};
ghost use Rattle.plans.specs.Reading.{reading_of};
ghost use Rattle.image.specs.Image.{gathered, words, source_row, target_row, header_of, end_at};
ghost use Rattle.delays.specs.Graph.{direct_of, minimum_of};
ghost use Rattle.delays.specs.Cells.{Held};
ghost use Rattle.image.specs.Compiling.{compiled, fitted, outcome_of, compiled_of, Outcome};
ghost use Rattle.image.specs.Writing.{listed_bytes, counted, Put, Room, Small, held, onward, summed, source_count, target_count, source_bytes, sources_bytes, source_table, target_bytes, targets_bytes, target_table, member_bytes, members_bytes, edge_bytes, edges_bytes, front_bytes, back_bytes};

use basis::{write_u32, write_u64};
use delays::{Matrix, analyse};
use plans::{Plan, Refusal, read};

// The version, and the bytes of the header, of a member row, of an edge, of a direct or transitive row, of a downstream row.
const VERSION: usize = 1;

const HEADER: usize = 48;

const MEMBER: usize = 40;

const EDGE: usize = 24;

const SOURCE: usize = 16;

const TARGET: usize = 4;

// Entries of a row of a matrix of delays.
const ROW: usize = 32;

// How many rows of each kind: direct, transitive and downstream.
#[derive(Clone, Copy)]
struct Tally {
    direct: usize,
    transitive: usize,
    downstream: usize,
    ghost few: { (direct ≤ 1024) × (transitive ≤ 1024) × (downstream ≤ 1024) },
}

// What a table lists for each member, by a matrix of delays: which positions, and the row of each.
trait Listing {
    // whether member t's list has s, and s's row in it
    ghost listed: { List ℕ → ℕ → ℕ → Bool };

    ghost bytes: { List ℕ → List ℕ → ℕ → ℕ → List ℕ };

    fn lists(m: &Matrix, t: usize, s: usize) -> bool
        requires { (t < 32) × (s < 32) }
        ensures { result ≡ listed m.now.kinds t s };

    // Puts s's row from `at` on. Like every writer here, it answers the place after what it wrote.
    fn put(out: &mut [u8], at: usize, m: &Matrix, t: usize, s: usize) -> usize
        requires { (t < 32) × (s < 32) × Room at (bytes m.now.kinds m.now.values t s) out.old }
        ensures { Put at (bytes m.now.kinds m.now.values t s) out.old out.new result };
}

// The sources of a target, with their delays.
struct Sources;

impl Listing for Sources {
    ghost listed = { λ ks t s. held ks s t };

    ghost bytes = { λ ks vs t s. source_row (record { source = s; delay = get_or vs (s * 32 + t) 0 }) };

    fn lists(m: &Matrix, t: usize, s: usize) -> bool {
        m.kinds[s * ROW + t] == 0
    }

    fn put(out: &mut [u8], at: usize, m: &Matrix, t: usize, s: usize) -> usize {
        put_source(out, at, s, m.values[s * ROW + t])
    }
}

// The members downstream of a source.
struct Targets;

impl Listing for Targets {
    ghost listed = { onward };

    ghost bytes = { λ ks vs s. target_row };

    fn lists(m: &Matrix, s: usize, t: usize) -> bool {
        t != s && m.kinds[s * ROW + t] == 0
    }

    fn put(out: &mut [u8], at: usize, m: &Matrix, s: usize, t: usize) -> usize {
        put_u32(out, at, t)
    }
}

// How many of n members are in member t's list.
fn count<L: Listing>(m: &Matrix, n: usize, t: usize) -> usize
    requires { (n ≤ 32) × (t < 32) }
    ensures { result ≡ counted (L.listed m.now.kinds t) n }
{
    (0..n).filter(|s| L::lists(m, t, *s)).count()
}

// How many rows the lists of n members are.
fn total<L: Listing>(m: &Matrix, n: usize) -> usize
    requires { n ≤ 32 }
    ensures { result ≡ summed (λ (t : ℕ). counted (L.listed m.now.kinds t) n) n }
{
    (0..n).map(|t| count::<L>(m, n, t)).sum()
}

// Puts v into four bytes from `at` on.
fn put_u32(out: &mut [u8], at: usize, v: usize) -> usize
    requires { (at + 4 ≤ length out.old) × (v < 4294967296) }
    ensures { Put at (bytes 4 v) out.old out.new result }
{
    write_u32(out, at, v as u32);
    at + 4
}

// Puts v into eight bytes.
fn put_u64(out: &mut [u8], at: usize, v: u64) -> usize
    requires { at + 8 ≤ length out.old }
    ensures { Put at (bytes 8 v) out.old out.new result }
{
    write_u64(out, at, v);
    at + 8
}

// Puts numbers one after another, each into four bytes.
fn put_words(out: &mut [u8], at: usize, ws: &[usize]) -> usize
    requires { Room at (words ws.now) out.old × Small ws.now }
    ensures { Put at (words ws.now) out.old out.new result }
{
    let mut next = at;
    for w in ws {
        next = put_u32(out, next, *w);
    }
    next
}

// Puts the direct or transitive row of a source.
fn put_source(out: &mut [u8], at: usize, source: usize, delay: u64) -> usize
    requires { (at + 16 ≤ length out.old) × (source < 32) }
    ensures { Put at (source_row (record { source = source; delay = delay })) out.old out.new result }
{
    let ws = [source, 0];
    let next = put_words(out, at, &ws);
    put_u64(out, next, delay)
}

// Puts s's row of member t's list, if it is in the list.
fn put_listed<L: Listing>(out: &mut [u8], at: usize, m: &Matrix, t: usize, s: usize) -> usize
    requires { (t < 32) × (s < 32) × Room at (listed_bytes (L.listed m.now.kinds t) (L.bytes m.now.kinds m.now.values t) s) out.old }
    ensures { Put at (listed_bytes (L.listed m.now.kinds t) (L.bytes m.now.kinds m.now.values t) s) out.old out.new result }
{
    if L::lists(m, t, s) {
        L::put(out, at, m, t, s)
    } else {
        at
    }
}

// Puts the rows of member t's list, among n members.
fn put_list<L: Listing>(out: &mut [u8], at: usize, m: &Matrix, n: usize, t: usize) -> usize
    requires { (n ≤ 32) × (t < 32) × Room at (gathered (listed_bytes (L.listed m.now.kinds t) (L.bytes m.now.kinds m.now.values t)) n) out.old }
    ensures { Put at (gathered (listed_bytes (L.listed m.now.kinds t) (L.bytes m.now.kinds m.now.values t)) n) out.old out.new result }
{
    let mut next = at;
    for s in 0..n {
        next = put_listed::<L>(out, next, m, t, s);
    }
    next
}

// Puts the rows of the lists of n members, member by member.
fn put_table<L: Listing>(out: &mut [u8], at: usize, m: &Matrix, n: usize) -> usize
    requires { (n ≤ 32) × Room at (gathered (λ (t : ℕ). gathered (listed_bytes (L.listed m.now.kinds t) (L.bytes m.now.kinds m.now.values t)) n) n) out.old }
    ensures { Put at (gathered (λ (t : ℕ). gathered (listed_bytes (L.listed m.now.kinds t) (L.bytes m.now.kinds m.now.values t)) n) n) out.old out.new result }
{
    let mut next = at;
    for t in 0..n {
        next = put_list::<L>(out, next, m, n, t);
    }
    next
}

// Puts an edge's row.
fn put_edge(out: &mut [u8], at: usize, id: u64, source: u8, target: u8, delay: u64) -> usize
    requires { at + 24 ≤ length out.old }
    ensures { Put at (edge_bytes id source target delay) out.old out.new result }
{
    let ws = [usize::from(source), usize::from(target)];
    let ends = put_u64(out, at, id);
    let next = put_words(out, ends, &ws);
    put_u64(out, next, delay)
}

// Puts the rows of the plan's edges.
fn put_edges(out: &mut [u8], at: usize, p: &Plan) -> usize
    requires { Fits p.now × Room at (edges_bytes p.now.routes p.now.sources p.now.targets p.now.delays p.now.edges) out.old }
    ensures { Put at (edges_bytes p.now.routes p.now.sources p.now.targets p.now.delays p.now.edges) out.old out.new result }
{
    let mut next = at;
    for k in 0..p.edges {
        next = put_edge(
            out,
            next,
            p.routes[k],
            p.sources[k],
            p.targets[k],
            p.delays[k],
        );
    }
    next
}

// Puts a member's row: its id and capacity, then first row and row count of each table.
fn put_member(
    out: &mut [u8],
    at: usize,
    id: u64,
    capacity: u64,
    first: Tally,
    count: Tally,
) -> usize
    requires { (at + 40 ≤ length out.old) × (capacity ≤ 32) }
    ensures { Put at (member_bytes id capacity first.direct count.direct first.transitive count.transitive first.downstream count.downstream) out.old out.new result }
{
    let ws = [
        capacity as usize,
        first.direct,
        count.direct,
        first.transitive,
        count.transitive,
        first.downstream,
        count.downstream,
        0,
    ];
    let next = put_u64(out, at, id);
    put_words(out, next, &ws)
}

// Puts the rows of the plan's members; `directs` and `minima` are its direct and minimum delays.
fn put_members(out: &mut [u8], at: usize, p: &Plan, directs: &Matrix, minima: &Matrix) -> usize
    requires { Fits p.now × Room at (members_bytes p.now.ids p.now.capacities directs.now.kinds minima.now.kinds p.now.members) out.old }
    ensures { Put at (members_bytes p.now.ids p.now.capacities directs.now.kinds minima.now.kinds p.now.members) out.old out.new result }
{
    let n = p.members;
    let mut next = at;
    let mut first = Tally {
        direct: 0,
        transitive: 0,
        downstream: 0,
    };
    for i in 0..n {
        let rows = Tally {
            direct: count::<Sources>(directs, n, i),
            transitive: count::<Sources>(minima, n, i),
            downstream: count::<Targets>(minima, n, i),
        };
        next = put_member(out, next, p.ids[i], p.capacities[i], first, rows);
        first = Tally {
            direct: first.direct + rows.direct,
            transitive: first.transitive + rows.transitive,
            downstream: first.downstream + rows.downstream,
        };
    }
    next
}

// Puts the header of n members, e edges and so many rows: the counts, and the offsets that follow from them.
fn put_header(out: &mut [u8], n: usize, e: usize, rows: Tally) -> usize
    requires { (48 ≤ length out.old) × (n ≤ 32) × (e ≤ 256) }
    ensures { Put 0 (header_of n e rows.direct rows.transitive rows.downstream) out.old out.new result }
{
    let edges = HEADER + MEMBER * n;
    let direct = edges + EDGE * e;
    let transitive = direct + SOURCE * rows.direct;
    let downstream = transitive + SOURCE * rows.transitive;
    let end = downstream + TARGET * rows.downstream;
    let ws = [
        VERSION,
        n,
        e,
        rows.direct,
        rows.transitive,
        rows.downstream,
        HEADER,
        edges,
        direct,
        transitive,
        downstream,
        end,
    ];
    put_words(out, 0, &ws)
}

// Puts the header and the tables of members and edges.
fn put_front(out: &mut [u8], p: &Plan, directs: &Matrix, minima: &Matrix, rows: Tally) -> usize
    requires { Fits p.now × Room 0 (front_bytes p.now directs.now.kinds minima.now.kinds rows.direct rows.transitive rows.downstream) out.old }
    ensures { Put 0 (front_bytes p.now directs.now.kinds minima.now.kinds rows.direct rows.transitive rows.downstream) out.old out.new result }
{
    let members = put_header(out, p.members, p.edges, rows);
    let edges = put_members(out, members, p, directs, minima);
    put_edges(out, edges, p)
}

// Puts the tables of direct, transitive and downstream rows.
fn put_back(out: &mut [u8], at: usize, directs: &Matrix, minima: &Matrix, n: usize) -> usize
    requires { (n ≤ 32) × Room at (back_bytes directs.now.kinds directs.now.values minima.now.kinds minima.now.values n) out.old }
    ensures { Put at (back_bytes directs.now.kinds directs.now.values minima.now.kinds minima.now.values n) out.old out.new result }
{
    let transitive = put_table::<Sources>(out, at, directs, n);
    let downstream = put_table::<Sources>(out, transitive, minima, n);
    put_table::<Targets>(out, downstream, minima, n)
}

// Puts the whole image, of so many rows.
fn put_image(out: &mut [u8], p: &Plan, directs: &Matrix, minima: &Matrix, rows: Tally) -> usize
    requires { Fits p.now × Room 0 (front_bytes p.now directs.now.kinds minima.now.kinds rows.direct rows.transitive rows.downstream ++ back_bytes directs.now.kinds directs.now.values minima.now.kinds minima.now.values p.now.members) out.old }
    ensures { Put 0 (front_bytes p.now directs.now.kinds minima.now.kinds rows.direct rows.transitive rows.downstream ++ back_bytes directs.now.kinds directs.now.values minima.now.kinds minima.now.values p.now.members) out.old out.new result }
{
    let next = put_front(out, p, directs, minima, rows);
    put_back(out, next, directs, minima, p.members)
}

// The bytes of an image of n members, e edges and so many rows.
fn end_of(n: usize, e: usize, rows: Tally) -> usize
    requires { (n ≤ 32) × (e ≤ 256) }
    ensures { result ≡ end_at n e rows.direct rows.transitive rows.downstream }
{
    HEADER
        + MEMBER * n
        + EDGE * e
        + SOURCE * rows.direct
        + SOURCE * rows.transitive
        + TARGET * rows.downstream
}

// Puts the image of a plan whose delays the matrices hold, where it fits: how many bytes it is.
fn fit(out: &mut [u8], p: &Plan, directs: &Matrix, minima: &Matrix) -> Result<usize, Refusal>
    requires { Fits p.now × Held directs.now.kinds directs.now.values (direct_of p.now) × Held minima.now.kinds minima.now.values (minimum_of p.now) }
    ensures { Outcome (fitted p.now (length out.old)) p.now out.old out.new (compiled result) }
{
    let n = p.members;
    let rows = Tally {
        direct: total::<Sources>(directs, n),
        transitive: total::<Sources>(minima, n),
        downstream: total::<Targets>(minima, n),
    };
    let end = end_of(n, p.edges, rows);
    if out.len() < end {
        return Err(Refusal::TooShort);
    }
    put_image(out, p, directs, minima, rows);
    Ok(end)
}

// Compiles a plan by value: refusals 8, 9 and 10, or its image.
pub fn compile_plan(p: Plan, out: &mut [u8]) -> Result<usize, Refusal>
    requires { Fits p }
    ensures { Outcome (outcome_of p (length out.old)) p out.old out.new (compiled result) }
{
    // zeros, since `analyse` writes every entry: they are set in place, where a matrix that a call answers is copied
    let mut directs = Matrix {
        kinds: [0; 1024],
        values: [0; 1024],
    };
    let mut minima = directs;
    analyse(p, &mut directs, &mut minima)?;
    fit(out, &p, &directs, &minima)
}

// Compiles plan bytes of any length and content: the first refusal of 1 to 10 and `out` as it was, or the total, with the
// compiled plan in the first `total` bytes of `out` and every later byte as it was.
pub fn compile(plan: &[u8], out: &mut [u8]) -> Result<usize, Refusal>
    ensures { Outcome (compiled_of plan.now (length out.old)) (reading_of plan.now).plan out.old out.new (compiled result) }
{
    compile_plan(read(plan)?, out)
}
