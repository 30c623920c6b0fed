// The passes over members that end a step: grants, Idle, bounds; and what goes to all.
#![tactic(auto)]

ghost use Rattle.std.specs.Prelude.{◌≡◌, ℕ, Option, ◌+◌, ◌*◌, ◌<◌, ◌≤◌, length};
ghost use Rattle.states.specs.declared.Delivery.{Delivery};
ghost use Rattle.states.specs.declared.MemberState.{MemberState};
ghost use Rattle.states.specs.Records.{record_at};
ghost use Rattle.states.specs.Steps.{every};
ghost use Rattle.rows.specs.Rows.{Laid, members, downstream_first, downstream_count};
ghost use Rattle.rows.specs.Loops.{over_rows, over_all};
ghost use Rattle.members.specs.Rules.{Mild, AllLow};
ghost use Rattle.passes.specs.declared.Told.{Told};
ghost use Rattle.passes.specs.Pages.{Page, on, told, posting, grant_to, grant_at, grant_by, grants_in, settled_in, follow_in, Ready, resting, rest_at, stopped_at, idle_to, idle_at, bound_to, bound_at, start_at, fail_at};

use members::Times;
use states::{Delivery, MemberState, State};
use tags::Tag;

// A step so far: the state, and how many deliveries are sent.
#[derive(Clone, Copy)]
pub struct Progress {
    pub state: State,
    pub sent: usize,
}

// What one member is told: its record after it, and what is sent to it.
#[derive(Clone, Copy)]
pub struct Told {
    pub member: MemberState,
    pub delivery: Delivery,
}

impl Progress {
    // Sends one delivery more.
    fn send(&mut self, out: &mut [u64], d: Delivery)
        requires { 7 * self.old.sent + 7 ≤ length out.old }
        ensures { on self.new out.new ≡ posting (on self.old out.old) d }
    {
        requests::send(out, self.sent, d);
        self.sent += 1;
    }

    // Tells member j what it is told, if anything.
    fn tell(&mut self, out: &mut [u64], j: usize, t: Option<Told>)
        requires { (j < 32) × (7 * self.old.sent + 7 ≤ length out.old) }
        ensures page { on self.new out.new ≡ told (on self.old out.old) j t }
        ensures sent { self.new.sent ≤ self.old.sent + 1 }
    {
        if let Some(x) = t {
            self.state.members[j] = x.member;
            self.send(out, x.delivery);
        }
    }
}

// One delivery more.
pub fn post(mut p: Progress, out: &mut [u64], d: Delivery) -> Progress
    requires { 7 * p.sent + 7 ≤ length out.old }
    ensures { on result out.new ≡ posting (on p out.old) d }
{
    p.send(out, d);
    p
}

// The grant of a horizon to member j with record m, if it is due.
fn grant_to(m: MemberState, h: Tag, j: usize) -> Option<Told>
    ensures { (g : Page) → told g j result ≡ grant_to g j m h }
{
    if !records::is_due(m, h) {
        return None;
    }
    let revision = records::revision(m.publication);
    Some(Told {
        member: records::granted(m, revision, h),
        delivery: Delivery::Grant(j as u64, revision, h),
    })
}

// Idle to member j with record m, if it is due.
fn idle_to(m: MemberState, j: usize) -> Option<Told>
    ensures { (g : Page) → told g j result ≡ idle_to g j m }
{
    if !records::idle_due(m) {
        return None;
    }
    let revision = records::revision(m.publication);
    Some(Told {
        member: records::rested(m, revision),
        delivery: Delivery::Idle(j as u64, revision),
    })
}

// A bound to member j with record m, if it is due.
fn bound_to(m: MemberState, t: Tag, j: usize) -> Option<Told>
    ensures { (g : Page) → told g j result ≡ bound_to g j m t }
{
    if !records::bound_due(m, t) {
        return None;
    }
    Some(Told {
        member: records::bounded(m, t),
        delivery: Delivery::Suppress(j as u64, t),
    })
}

// The grant to member j with record m, if it is due: `times` are the tags of all members.
fn grant_due(plan: &[u8], times: &Times, m: MemberState, j: usize) -> Option<Told>
    requires { Laid plan.now × Mild plan.now × AllLow times.now.earliest × AllLow times.now.completed × (j < members plan.now) }
    ensures { (g : Page) → record_at g.progress.state j ≡ m → told g j result ≡ grant_at plan.now times.now.earliest times.now.completed g j }
{
    let h = members::horizon(plan, times, m.granted.unwrap_or(Tag::NEVER), j);
    grant_to(m, h, j)
}

// The grants to the members downstream of i, in order: `times` are the tags of all members.
#[tactic(auto, unfolding(rows::specs::Loops::over_rows, crate::specs::Pages::grant_by))]
pub fn grant_below(plan: &[u8], times: &Times, p: &mut Progress, out: &mut [u64], i: usize)
    requires { Laid plan.now × Mild plan.now × AllLow times.now.earliest × AllLow times.now.completed × (i < members plan.now) × (7 * (p.old.sent + downstream_count plan.now i) ≤ length out.old) }
    ensures page { on p.new out.new ≡ over_rows (grant_by plan.now times.now.earliest times.now.completed) (downstream_first plan.now i) (downstream_count plan.now i) (on p.old out.old) }
    ensures sent { p.new.sent ≤ p.old.sent + downstream_count plan.now i }
{
    let first = rows::downstream_first(plan, i);
    for c in 0..rows::downstream_count(plan, i) {
        let j = views::downstream(plan, first + c);
        let t = grant_due(plan, times, p.state.members[j], j);
        p.tell(out, j, t);
    }
}

// The turns of n members, ascending; `turn`: what a member with its record is told.
#[tactic(auto, unfolding(rows::specs::Loops::over_all))]
fn in_turn<F: Fn(MemberState, usize) -> Option<Told>>(
    p: &mut Progress,
    out: &mut [u64],
    n: usize,
    turn: F,
)
    requires callable { (m : MemberState) (j : ℕ) → j < n → F.pre turn m j }
    requires room { (n ≤ 32) × (7 * (p.old.sent + n) ≤ length out.old) }
    ensures page { (f : Page → ℕ → Page) → ((g : Page) (j : ℕ) (t : Option Told) → j < n → F.post turn (record_at g.progress.state j) j t → told g j t ≡ f g j) → on p.new out.new ≡ over_all f n (on p.old out.old) }
    ensures sent { p.new.sent ≤ p.old.sent + n }
{
    for j in 0..n {
        let t = turn(p.state.members[j], j);
        p.tell(out, j, t);
    }
}

// Idle to each of n members to whom it is due, ascending.
pub fn idle_all(p: &mut Progress, out: &mut [u64], n: usize)
    requires { (n ≤ 32) × (7 * (p.old.sent + n) ≤ length out.old) }
    ensures page { on p.new out.new ≡ over_all idle_at n (on p.old out.old) }
    ensures sent { p.new.sent ≤ p.old.sent + n }
{
    in_turn(p, out, n, idle_to);
}

// A bound to each of n members to whom it is due, ascending.
pub fn bound_all(bounds: &[Tag; 32], p: &mut Progress, out: &mut [u64], n: usize)
    requires { (n ≤ 32) × (7 * (p.old.sent + n) ≤ length out.old) }
    ensures page { on p.new out.new ≡ over_all (bound_at bounds.now) n (on p.old out.old) }
    ensures sent { p.new.sent ≤ p.old.sent + n }
{
    in_turn(p, out, n, |m, j| bound_to(m, bounds[j], j));
}

// One delivery to each of n members, ascending.
#[tactic(auto, unfolding(rows::specs::Loops::over_all))]
fn send_all<F: Fn(usize) -> Delivery>(p: &mut Progress, out: &mut [u64], n: usize, delivery: F)
    requires callable { F.IsAlwaysCallable delivery }
    requires room { (n ≤ 32) × (7 * (p.old.sent + n) ≤ length out.old) }
    ensures page { (f : Page → ℕ → Page) → ((g : Page) (k : ℕ) (d : Delivery) → k < n → F.post delivery k d → posting g d ≡ f g k) → on p.new out.new ≡ over_all f n (on p.old out.old) }
    ensures sent { p.new.sent ≡ p.old.sent + n }
{
    for k in 0..n {
        p.send(out, delivery(k));
    }
}

// Started to n members, ascending.
pub fn start_all(mut p: Progress, out: &mut [u64], n: usize) -> Progress
    requires { (n ≤ 32) × (7 * (p.sent + n) ≤ length out.old) }
    ensures page { on result out.new ≡ over_all start_at n (on p out.old) }
    ensures sent { result.sent ≡ p.sent + n }
{
    send_all(&mut p, out, n, |k| Delivery::Started(k as u64));
    p
}

// Failed to n members, ascending.
pub fn fail_all(mut p: Progress, out: &mut [u64], cause: u64, code: u64, n: usize) -> Progress
    requires { (n ≤ 32) × (7 * (p.sent + n) ≤ length out.old) }
    ensures page { on result out.new ≡ over_all (fail_at cause code) n (on p out.old) }
    ensures sent { result.sent ≡ p.sent + n }
{
    send_all(&mut p, out, n, |k| Delivery::Failed(k as u64, cause, code));
    p
}

// Whether a member has no event, confirmed that revision and holds no tag.
pub fn rests(m: MemberState) -> bool
    ensures { result ≡ resting m }
{
    records::is_confirmed(m.publication, m.asked) && m.held == 0
}

// Whether each of the first n members is at rest.
pub fn all_rest(s: &State, n: usize) -> bool
    requires { n ≤ 32 }
    ensures { result ≡ every (rest_at s.now) n }
{
    s.members[..n].iter().all(|m| rests(*m))
}

// Whether each of the first n members has stopped.
pub fn all_stopped(s: &State, n: usize) -> bool
    requires { n ≤ 32 }
    ensures { result ≡ every (stopped_at s.now) n }
{
    s.members[..n].iter().all(|m| m.stopped)
}

// The grants that a request of member i brings: to it, then to the members downstream of it.
#[tactic(auto, unfolding(crate::specs::Pages::grants_in))]
pub fn grants(plan: &[u8], times: &Times, p: &mut Progress, out: &mut [u64], i: usize)
    requires { Laid plan.now × Mild plan.now × AllLow times.now.earliest × AllLow times.now.completed × (i < members plan.now) × (7 * (p.old.sent + 1 + downstream_count plan.now i) ≤ length out.old) }
    ensures page { on p.new out.new ≡ grants_in plan.now times.now.earliest times.now.completed (on p.old out.old) i }
    ensures sent { p.new.sent ≤ p.old.sent + 1 + downstream_count plan.now i }
{
    let t = grant_due(plan, times, p.state.members[i], i);
    p.tell(out, i, t);
    grant_below(plan, times, p, out, i);
}

// Idle where all n members are at rest, else the bounds.
#[tactic(auto, unfolding(crate::specs::Pages::settled_in))]
pub fn settle(bounds: &[Tag; 32], p: &mut Progress, out: &mut [u64], n: usize)
    requires { (n ≤ 32) × (7 * (p.old.sent + n) ≤ length out.old) }
    ensures page { on p.new out.new ≡ settled_in bounds.now n (on p.old out.old) }
    ensures sent { p.new.sent ≤ p.old.sent + n }
{
    if all_rest(&p.state, n) {
        idle_all(p, out, n);
    } else {
        bound_all(bounds, p, out, n);
    }
}

// What follows a request of member i: grants, then Idle, then bounds.
#[tactic(auto, unfolding(crate::specs::Pages::follow_in, crate::specs::Pages::earliests_in, crate::specs::Pages::completeds_in))]
pub fn follow(plan: &[u8], mut p: Progress, slab: &[u64], out: &mut [u64], i: usize) -> Progress
    requires { Laid plan.now × Mild plan.now × (i < members plan.now) × (downstream_count plan.now i < members plan.now) × Ready p.state slab.now (members plan.now) × (7 * (p.sent + members plan.now + members plan.now) ≤ length out.old) }
    ensures page { on result out.new ≡ follow_in plan.now slab.now (on p out.old) i }
    ensures sent { result.sent ≤ p.sent + 1 + downstream_count plan.now i + members plan.now }
{
    let n = rows::members(plan);
    let times = Times {
        earliest: members::earliest_all(&p.state, slab, n),
        completed: members::completed_all(&p.state, n),
    };
    let bounds = members::bounds_all(plan, &times.earliest);
    grants(plan, &times, &mut p, out, i);
    settle(&bounds, &mut p, out, n);
    p
}
