// Whether a walk closes, edge by edge, with no delay.
ghost use Rattle.std.specs.Prelude.{◌≡◌, ◌<◌, ◌≤◌};
ghost use Rattle.plans.specs.Values.{Fits};
ghost use Rattle.routes.specs.Closed.{after, goes_on, closing, closes_zero, listed};

use crate::Walk;
use plans::Plan;

// The place after i of n, the first after the last.
fn after(n: usize, i: usize) -> usize
    requires { i < n }
    ensures place { result ≡ after n i }
    ensures below { result < n }
{
    let k = i + 1;
    if k == n { 0 } else { k }
}

// Whether x and y are edges, and x has no delay and leads to where y leaves.
fn goes_on(plan: &Plan, x: u64, y: u64) -> bool
    requires { plan.now.edges ≤ 256 }
    ensures { result ≡ goes_on plan.now.sources plan.now.targets plan.now.delays plan.now.edges x y }
{
    let i = x as usize;
    let j = y as usize;
    i < plan.edges && j < plan.edges && plan.delays[i] == 0 && plan.targets[i] == plan.sources[j]
}

// Whether each of the walk's places goes on to the one after it, the last to the first.
fn closing(plan: &Plan, walk: Walk) -> bool
    requires { (plan.now.edges ≤ 256) × (walk.count ≤ 32) }
    ensures { result ≡ closing plan.now.sources plan.now.targets plan.now.delays plan.now.edges walk.count walk.edges }
{
    let n = walk.count;
    (0..n).all(
        |i|
            requires { (i < n) × (n ≤ 32) × (plan.now.edges ≤ 256) }
        { goes_on(plan, walk.edges[i], walk.edges[after(n, i)]) },
    )
}

// Whether the walk is a closed one without delay of the plan.
pub fn closes(plan: &Plan, walk: Walk) -> bool
    requires { Fits plan.now × (walk.count ≤ 32) }
    ensures { result ≡ closes_zero plan.now (listed walk) }
{
    walk.count != 0 && closing(plan, walk)
}
