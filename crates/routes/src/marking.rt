// The edges that attain a minimum delay from a member: marked, and found by their target.
ghost use Rattle.std.specs.Prelude.{◌≡◌, ◌<◌, replicate};
ghost use Rattle.plans.specs.Values.{Fits};
ghost use Rattle.routes.specs.Paths.{mark_no, marks_of, mark_of, Marked, enters};
ghost use Rattle.delays.specs.Cells.{grid};
ghost use Rattle.delays.specs.Search.{first, Finds};

use delays::{Matrix, Reach};
use plans::Plan;

// The places of a table of edges.
const EDGES: usize = 256;

// How an edge stands to the minimum delays from a member: it doesn't attain its target's, does so after another edge, or
// alone.
#[derive(Clone, Copy, Debug, PartialEq, Eq)]
pub enum Mark {
    Not,
    After,
    Alone,
}

// The mark of an edge from s to t with delay d.
fn mark_of(minima: &Matrix, from: usize, s: usize, t: usize, d: u64) -> Mark
    requires { (from < 32) × (s < 32) × (t < 32) }
    ensures { mark_no result ≡ mark_of (grid minima.now.kinds minima.now.values from) from s t d }
{
    match minima.reach(from, t) {
        Reach::At(v) => {
            if s == from && d == v {
                Mark::Alone
            } else if delays::sum(minima.reach(from, s), Reach::At(d)) == Reach::At(v) {
                Mark::After
            } else {
                Mark::Not
            }
        }
        _ => Mark::Not,
    }
}

// The mark of each edge by the minimum delays from `from`; places past the edges are not marked.
pub fn mark_all(plan: &Plan, minima: &Matrix, from: usize) -> [Mark; 256]
    requires { Fits plan.now × (from < 32) }
    ensures { Marked plan.now.sources plan.now.targets plan.now.delays plan.now.edges (grid minima.now.kinds minima.now.values from) from (replicate 256 0) (marks_of result) }
{
    let mut marks = [Mark::Not; EDGES];
    for i in 0..plan.edges {
        let s = usize::from(plan.sources[i]);
        let t = usize::from(plan.targets[i]);
        marks[i] = mark_of(minima, from, s, t, plan.delays[i]);
    }
    marks
}

// Whether edge e is marked and leads to `at`.
fn enters(plan: &Plan, marks: &[Mark; 256], at: usize, e: usize) -> bool
    requires { e < 256 }
    ensures { result ≡ enters plan.now.targets (marks_of marks.now) at e }
{
    usize::from(plan.targets[e]) == at && marks[e] != Mark::Not
}

// The first marked edge that leads to `at`.
pub fn entering(plan: &Plan, marks: &[Mark; 256], at: usize) -> Option<usize>
    ensures { Finds 256 (first (enters plan.now.targets (marks_of marks.now) at) 0 256) result }
{
    (0..EDGES).find(|e| enters(plan, marks, at, *e))
}
