// The edges that a search for a witness may follow: kept, and found by their source.
ghost use Rattle.std.specs.Prelude.{◌≡◌, ◌<◌, replicate};
ghost use Rattle.plans.specs.Values.{Fits};
ghost use Rattle.routes.specs.Trails.{keep_of, kept_no, kept_of, Keeping, leaving};
ghost use Rattle.delays.specs.Cells.{grid};

use delays::Matrix;
use plans::Plan;

// Whether an edge to t with delay d has none, and t has a minimum of 0 to the member `home`.
fn keeps(minima: &Matrix, home: usize, t: usize, d: u64) -> bool
    requires { (home < 32) × (t < 32) }
    ensures { kept_no result ≡ keep_of (grid minima.now.kinds minima.now.values) home t d }
{
    d == 0 && minima.no_delay(t, home)
}

// Which edges are kept: those without delay that lead to a member with a minimum of 0 to the member `home`.
pub fn keep(plan: &Plan, minima: &Matrix, home: usize) -> [bool; 256]
    requires { Fits plan.now × (home < 32) }
    ensures { Keeping plan.now.targets plan.now.delays plan.now.edges (grid minima.now.kinds minima.now.values) home (replicate 256 0) (kept_of result) }
{
    let mut kept = [false; 256];
    for i in 0..plan.edges {
        kept[i] = keeps(minima, home, usize::from(plan.targets[i]), plan.delays[i]);
    }
    kept
}

// Whether edge e is kept and leaves the member.
pub fn leaving(plan: &Plan, kept: &[bool; 256], member: usize, e: usize) -> bool
    requires { e < 256 }
    ensures { result ≡ leaving plan.now.sources (kept_of kept.now) member e }
{
    usize::from(plan.sources[e]) == member && kept[e]
}
