// Whether bytes are the compiled plan of their own members and edges. Every call of a session asks it, so the minimum
// delays are not worked out again: the claimed ones are checked against one step along each edge.
#![tactic(auto)]

ghost use Rattle.std.specs.Prelude.{◌≡◌, ℕ, ◌<◌};
ghost use Rattle.rows.specs.Rows.{members, edges};
ghost use Rattle.recognised.specs.Facts.{MemberRight, Routed};
ghost use Rattle.recognised.specs.Recognised.{refusal_in};
ghost use Rattle.recognised.specs.Faults.{fault_no, verdict};

mod claims;
mod frame;
mod lists;
mod pairs;
mod plain;

use crate::claims::{claim, minima_right, short_edges, short_rows};
use crate::frame::{edges_right, header, members_right};
use crate::lists::directs_right;
use crate::plain::{LOST, briefly};
use delays::Matrix;

// Why bytes are refused.
#[derive(Clone, Copy, Debug, PartialEq, Eq)]
pub enum Fault {
    // they are no compiled plan
    NoImage,
    // an edge or a minimum delay is above 2^63-1
    TooLong,
}

impl Fault {
    // The number of the refusal.
    pub fn number(self) -> u64
        ensures { result ≡ fault_no self }
    {
        match self {
            Fault::NoImage => 11,
            Fault::TooLong => 12,
        }
    }
}

// The refusal of bytes whose header, members and edges are right.
fn judge(plan: &[u8], n: usize, e: usize) -> Result<(), Fault>
    requires { Routed plan.now × ((i : ℕ) → i < n → MemberRight plan.now i) × (n ≡ members plan.now) × (e ≡ edges plan.now) }
    ensures { verdict result ≡ refusal_in plan.now }
{
    // one matrix for both, filled in place: a second one and its copy took a fifth of the time with 2 members
    let mut m = Matrix {
        kinds: [2; 1024],
        values: [0; 1024],
    };
    if !directs_right(plan, &mut m, n, e) {
        return Err(Fault::NoImage);
    }
    m.kinds.fill(2);
    m.values.fill(LOST);
    if !claim(plan, n, &mut m) {
        return Err(Fault::NoImage);
    }
    let short = briefly(plan, e);
    if !minima_right(plan, &m, n, e, short) {
        return Err(Fault::NoImage);
    }
    if short {
        return Ok(());
    }
    if !short_edges(plan, e) || !short_rows(&m, n) {
        return Err(Fault::TooLong);
    }
    Ok(())
}

// Ok where the bytes are the compiled plan of their own members and edges, with no edge or minimum delay above 2^63-1.
pub fn recognise(plan: &[u8]) -> Result<(), Fault>
    ensures { verdict result ≡ refusal_in plan.now }
{
    if !header(plan) {
        return Err(Fault::NoImage);
    }
    let n = rows::number(plan, 4);
    let e = rows::number(plan, 8);
    if !members_right(plan, n) || !edges_right(plan, n, e) {
        return Err(Fault::NoImage);
    }
    judge(plan, n, e)
}
