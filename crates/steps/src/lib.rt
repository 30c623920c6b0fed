// One step of a session, and the owner's abort: the state, the slab and the delivery words as the session's step leaves them.
#![tactic(auto)]

ghost use Rattle.std.specs.Prelude.{◌≡◌, ◌+◌, ◌*◌, ◌<◌, ◌≤◌, length};
ghost use Rattle.states.specs.Formed.{FitsRequest};
ghost use Rattle.states.specs.Causes.{cause_no};
ghost use Rattle.states.specs.Steps.{code_of, refusal_of, accepted, answered, step as step_of, abandon as abandonOf};
ghost use Rattle.rows.specs.Rows.{Laid, members};
ghost use Rattle.rows.specs.Nets.{net_in};
ghost use Rattle.members.specs.Codes.{session_of};
ghost use Rattle.kinds.specs.Effects.{Routed, firstly, sent_first};
ghost use Rattle.passes.specs.Pages.{on, Ready};
ghost use Rattle.steps.specs.Steps.{Runs, Stands, Leaves, unsent, welcome_in, ended_state, failed_in, opened_by, is_hello, after_in, code_said, over_in, aborted_state};

use passes::Progress;
use states::{Cause, Delivery, Request, State};

// Started to all n members, if all have joined.
fn welcome(p: Progress, out: &mut [u64], n: usize) -> Progress
    requires { (n ≤ 32) × (7 * (p.sent + n) ≤ length out.old) }
    ensures { on result out.new ≡ welcome_in n (on p out.old) }
{
    if states::all_joined(&p.state, n) {
        return passes::start_all(p, out, n);
    }
    p
}

// The state with what ended its session.
fn end(s: State, cause: u64, code: u64) -> State
    ensures { result ≡ ended_state s cause code }
{
    State { cause, code, ..s }
}

// A refusal that ends the session: Failed to all n members.
fn fail(s: State, out: &mut [u64], c: Cause, code: u64, n: usize) -> Progress
    requires { (n ≤ 32) × (7 * n ≤ length out.old) }
    ensures { on result out.new ≡ failed_in s out.old (cause_no c) code n }
{
    let p = Progress {
        state: end(s, c.number(), code),
        sent: 0,
    };
    passes::fail_all(p, out, c.number(), code, n)
}

// What an accepted request sends first.
fn first(s: State, out: &mut [u64], f: Option<Delivery>) -> Progress
    requires { 7 ≤ length out.old }
    ensures { on result out.new ≡ opened_by f s out.old }
{
    let p = Progress { state: s, sent: 0 };
    match f {
        Some(d) => passes::post(p, out, d),
        None => p,
    }
}

// Whether a request is a Hello.
fn is_hello(q: Request) -> bool
    ensures { result ≡ is_hello q }
{
    matches!(q, Request::Hello(_))
}

// What follows a request of member i: Started, or grants, Idle and bounds.
fn after(plan: &[u8], p: Progress, slab: &[u64], out: &mut [u64], i: usize, q: Request) -> Progress
    requires { Runs plan.now × (i < members plan.now) × Ready p.state slab.now (members plan.now) × (7 * (p.sent + members plan.now + members plan.now) ≤ length out.old) }
    ensures { on result out.new ≡ after_in plan.now slab.now (on p out.old) i q }
{
    if is_hello(q) {
        return welcome(p, out, rows::members(plan));
    }
    passes::follow(plan, p, slab, out, i)
}

// A request of member i that nothing refuses.
fn accept(
    plan: &[u8],
    s: State,
    slab: &mut [u64],
    out: &mut [u64],
    i: usize,
    q: Request,
) -> Progress
    requires { Runs plan.now × Stands plan.now s slab.old × (i < members plan.now) × (refusal_of (net_in plan.now) (session_of s slab.old) i q ≡ 0) × FitsRequest q × (7 * (1 + members plan.now + members plan.now) ≤ length out.old) }
    ensures { Leaves (accepted (net_in plan.now) (session_of s slab.old) i q) result slab.new out.new slab.old out.old }
{
    let f = kinds::first_delivery(plan, i, q);
    let t = kinds::effect(plan, s, slab, i, q);
    let p = first(t, out, f);
    after(plan, p, slab, out, i, q)
}

// The code that a request carries, 0 unless it is an abort.
fn code(q: Request) -> u64
    ensures { result ≡ code_of q }
{
    match q {
        Request::Abort(c) => c,
        _ => 0,
    }
}

// A request in a session that has not ended: refused, or accepted.
fn answer(
    plan: &[u8],
    s: State,
    slab: &mut [u64],
    out: &mut [u64],
    member: u64,
    q: Request,
) -> Progress
    requires { Runs plan.now × Stands plan.now s slab.old × FitsRequest q × (7 * (1 + members plan.now + members plan.now) ≤ length out.old) }
    ensures { Leaves (answered (net_in plan.now) (session_of s slab.old) member q (refusal_of (net_in plan.now) (session_of s slab.old) member q)) result slab.new out.new slab.old out.old }
{
    match kinds::refusal(plan, s, slab, member, q) {
        Ok(()) => accept(plan, s, slab, out, member as usize, q),
        Err(c) => fail(s, out, c, code(q), rows::members(plan)),
    }
}

// The code that Failed gives of an ended session.
fn code_said(s: State) -> u64
    ensures { result ≡ code_said s }
{
    if s.cause == Cause::Aborted.number() {
        s.code
    } else {
        0
    }
}

// A request in an ended session: one Failed to the member word given.
fn over(s: State, out: &mut [u64], member: u64) -> Progress
    requires { 7 ≤ length out.old }
    ensures { on result out.new ≡ over_in s out.old member }
{
    let p = Progress { state: s, sent: 0 };
    passes::post(p, out, Delivery::Failed(member, s.cause, code_said(s)))
}

// A request: what it does to the session, and what is sent.
pub fn step(
    plan: &[u8],
    s: State,
    slab: &mut [u64],
    out: &mut [u64],
    member: u64,
    q: Request,
) -> Progress
    requires { Runs plan.now × Stands plan.now s slab.old × FitsRequest q × (7 * (1 + members plan.now + members plan.now) ≤ length out.old) }
    ensures { Leaves (step_of (net_in plan.now) (session_of s slab.old) member q) result slab.new out.new slab.old out.old }
{
    if s.cause > 0 {
        return over(s, out, member);
    }
    answer(plan, s, slab, out, member, q)
}

// The state that the owner's abort leaves.
fn aborted(s: State, code: u64) -> State
    ensures { result ≡ aborted_state s code }
{
    if s.cause > 0 {
        return s;
    }
    end(s, Cause::Aborted.number(), code)
}

// The owner's abort: Failed to all members.
pub fn abandon(plan: &[u8], s: State, slab: &[u64], out: &mut [u64], code: u64) -> Progress
    requires { Runs plan.now × Stands plan.now s slab.now × (7 * members plan.now ≤ length out.old) }
    ensures { Leaves (abandonOf (net_in plan.now) (session_of s slab.now) code) result slab.now out.new slab.now out.old }
{
    let t = aborted(s, code);
    let p = Progress { state: t, sent: 0 };
    passes::fail_all(p, out, t.cause, code_said(t), rows::members(plan))
}
