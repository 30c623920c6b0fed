// Walks by edge positions: a witness of a closed walk without delay, its check, and a path that attains a minimum.
#![tactic(auto)]

ghost use Rattle.std.specs.Prelude.{◌≡◌, ◌-◌, ◌<◌, ◌≤◌, get_or, replicate};
ghost use Rattle.plans.specs.Values.{Fits};
ghost use Rattle.routes.specs.Closed.{accepts};
ghost use Rattle.routes.specs.Paths.{found, marks_of, Answered, Sought, Attained, Back, Written};
ghost use Rattle.routes.specs.Trails.{kept_of, seen_of, Witness, Closing, Witnessed, Leaves, Onward, Trail, Standing, Stretch, Moved};
ghost use Rattle.delays.specs.Graph.{minimum_of};
ghost use Rattle.delays.specs.Cells.{Held};
ghost use Rattle.delays.specs.Refusals.{refusal_of};

mod circle;
mod keeping;
mod marking;

use crate::circle::closes;
use crate::keeping::{keep, leaving};
use crate::marking::{Mark, entering, mark_all};
use delays::Matrix;
use plans::{Plan, Refusal};
use std::ops::Range;

// The most edges that a walk lists.
const MOST: usize = 32;

// A walk by the positions of its edges; only the first `count` places are read. Fixed memory: no heap.
#[derive(Clone, Copy)]
pub struct Walk {
    pub count: usize,
    pub edges: [u64; 32],
}

// No walk.
const NOWHERE: Walk = Walk {
    count: 0,
    edges: [0; MOST],
};

// Whether the walk is one of 1 to 32 edges without delay, of the plan in these bytes, that ends where it starts. None is
// for bytes that are refused with 1 to 7.
pub fn check_witness(bytes: &[u8], walk: Walk) -> bool
    ensures { result ≡ accepts bytes.now walk }
{
    match plans::read(bytes) {
        Ok(plan) => walk.count <= MOST && closes(&plan, walk),
        Err(_) => false,
    }
}

// Goes back from `at` by marked edges to one that attains its minimum alone, and writes the edges from there on to the
// front of `out`: how many, `left` at most. It writes on its way back, so it is a recursion and not a loop.
fn trace(plan: &Plan, marks: &[Mark; 256], out: &mut [u64; 32], at: usize, left: usize) -> usize
    requires { (left ≤ 32) × Back plan.now.sources plan.now.targets (marks_of marks.now) at left }
    ensures { Written plan.now.sources plan.now.targets (marks_of marks.now) out.old out.new at left result }
{
    let e = entering(plan, marks, at).unwrap();
    if marks[e] == Mark::Alone {
        out[0] = e as u64;
        return 1;
    }
    let k = trace(plan, marks, out, usize::from(plan.sources[e]), left - 1);
    out[k] = e as u64;
    k + 1
}

// A path from one member to another that attains the minimum delay, count 0 where there is none; of the plan's minimum
// delays, where it is not refused.
fn route(plan: Plan, minima: &Matrix, from: usize, to: usize) -> Walk
    requires { Fits plan × Held minima.now.kinds minima.now.values (minimum_of plan) × ((refusal_of plan).number ≡ 0) × (from < plan.members) × (to < plan.members) }
    ensures { Answered plan from to result }
{
    let marks = mark_all(&plan, minima, from);
    match entering(&plan, &marks, to) {
        Some(_) => {
            let mut edges = [0; MOST];
            let count = trace(&plan, &marks, &mut edges, to, MOST);
            Walk { count, edges }
        }
        None => NOWHERE,
    }
}

// The path, or refusal 8 or 9 of the plan.
fn path_in(plan: Plan, from: usize, to: usize) -> Result<Walk, Refusal>
    requires { Fits plan }
    ensures { Sought plan from to (refusal_of plan) (found result) }
{
    let mut directs = Matrix::new();
    let mut minima = Matrix::new();
    delays::analyse(plan, &mut directs, &mut minima)?;
    if plan.members <= from || plan.members <= to {
        return Ok(NOWHERE);
    }
    Ok(route(plan, &minima, from, to))
}

// A path of the plan in these bytes, from one member's position to another's, whose delays sum to the minimum; count 0
// where there is no path, or a position is not a member's. Refusals 1 to 9 come first.
pub fn path(bytes: &[u8], from: u64, to: u64) -> Result<Walk, Refusal>
    ensures { Attained bytes.now from to (found result) }
{
    let plan = plans::read(bytes)?;
    path_in(plan, from as usize, to as usize)
}

// Visits a member, `depth` edges on, and goes along kept edges until a member repeats: the places of `out` between.
#[cycle(scan_visit)]
fn visit(
    plan: &Plan,
    kept: &[bool; 256],
    seen: &mut [Option<usize>; 32],
    out: &mut [u64; 32],
    member: usize,
    depth: usize,
) -> Range<usize>
    requires { Onward plan.now.sources plan.now.targets (kept_of kept.now) × (member < 32) × (get_or (seen_of seen.old) member 0 ≡ 0) × Leaves plan.now.sources (kept_of kept.now) member 0 × Trail plan.now.sources plan.now.targets (kept_of kept.now) (seen_of seen.old) out.old member depth }
    ensures { Stretch plan.now.sources plan.now.targets (kept_of kept.now) out.new result.start result.end }
{
    seen[member] = Some(depth);
    scan(plan, kept, seen, out, member, depth, 0)
}

// Looks, from place `edge` on, for a kept edge that leaves the member, and follows it.
#[cycle(scan_visit)]
fn scan(
    plan: &Plan,
    kept: &[bool; 256],
    seen: &mut [Option<usize>; 32],
    out: &mut [u64; 32],
    member: usize,
    depth: usize,
    edge: usize,
) -> Range<usize>
    requires { Onward plan.now.sources plan.now.targets (kept_of kept.now) × Leaves plan.now.sources (kept_of kept.now) member edge × Standing plan.now.sources plan.now.targets (kept_of kept.now) (seen_of seen.old) out.old member depth }
    ensures { Stretch plan.now.sources plan.now.targets (kept_of kept.now) out.new result.start result.end }
{
    if !leaving(plan, kept, member, edge) {
        return scan(plan, kept, seen, out, member, depth, edge + 1);
    }
    out[depth] = edge as u64;
    let t = usize::from(plan.targets[edge]);
    match seen[t] {
        Some(start) => start..depth + 1,
        None => visit(plan, kept, seen, out, t, depth + 1),
    }
}

// The walk of the places of `out` from `start` up to `end`.
fn cut(out: &[u64; 32], start: usize, end: usize) -> Walk
    requires { (start < end) × (end ≤ 32) }
    ensures count { result.count ≡ end - start }
    ensures moved { Moved out.now (replicate 32 0) result.edges start result.count }
{
    let count = end - start;
    let mut edges = [0; MOST];
    edges[..count].copy_from_slice(&out[start..end]);
    Walk { count, edges }
}

// A closed walk without delay near `home`, a member that has a minimum of 0 to itself.
fn walk_from(plan: Plan, minima: &Matrix, home: usize) -> Walk
    requires { Fits plan × Held minima.now.kinds minima.now.values (minimum_of plan) × (home < plan.members) × (minimum_of plan home home ≡ 0) }
    ensures { Closing plan result }
{
    let kept = keep(&plan, minima, home);
    let mut seen = [None; 32];
    let mut out = [0; MOST];
    let span = visit(&plan, &kept, &mut seen, &mut out, home, 0);
    cut(&out, span.start, span.end)
}

// A closed walk without delay of the plan, count 0 where there is none.
fn walk_in(plan: Plan) -> Walk
    requires { Fits plan }
    ensures { Witness plan result }
{
    let mut minima = Matrix::new();
    delays::minimum_delays(plan, &mut minima);
    match minima.first_loop(plan.members) {
        Some(home) => walk_from(plan, &minima, home),
        None => NOWHERE,
    }
}

// One closed walk of edges without delay, of the plan in these bytes: count 1 to 32, or 0 where there is none. Refusals 1
// to 7 come first.
pub fn witness(bytes: &[u8]) -> Result<Walk, Refusal>
    ensures { Witnessed bytes.now (found result) }
{
    Ok(walk_in(plans::read(bytes)?))
}
