// What one request is refused with inside a session, and what each kind does to the state and the slab.
#![tactic(auto)]

ghost use Rattle.std.specs.Prelude.{◌≡◌, true, [], ◌∷◌, ◌+◌, ◌*◌, ◌<◌, ◌≤◌, length};
ghost use Rattle.transit.specs.Tags.{holds};
ghost use Rattle.transit.specs.Words.{tags_of, stretch};
ghost use Rattle.states.specs.Causes.{cause_no, ruling};
ghost use Rattle.states.specs.Records.{record_at, with_record};
ghost use Rattle.states.specs.Steps.{when, or_else, is_abort, lifecycle, phase_of, kind_refusal, refusal_of, effect as effect_of};
ghost use Rattle.rows.specs.Rows.{Laid, members, edges, capacity, edge_target};
ghost use Rattle.rows.specs.Nets.{net_in};
ghost use Rattle.members.specs.Codes.{session_of, state_of, slab_of};
ghost use Rattle.members.specs.Formed.{formed};
ghost use Rattle.kinds.specs.Fits.{Fits};
ghost use Rattle.kinds.specs.Phases.{phase_by, phase_in};
ghost use Rattle.kinds.specs.Refusals.{full_at, target_refusal, route_refusal, payload_in, kind_in};
ghost use Rattle.kinds.specs.Effects.{changed_record, Completes, Carries, firstly, Routed, sent_first};

use requests::Phase;
use states::{Cause, Delivery, MemberState, Request, State};
use tags::Tag;

// The words of one member's stretch.
const WIDTH: usize = 64;

// The phase of a member; `all`: whether all have joined.
fn phase_of(m: MemberState, all: bool) -> Phase
    ensures { result ≡ phase_by m all }
{
    if !m.joined {
        Phase::Absent
    } else if !all {
        Phase::Waiting
    } else if m.stopped {
        Phase::Halted
    } else if m.idle.is_some() {
        Phase::Resting
    } else {
        Phase::Running
    }
}

// The phase of member i of n.
pub fn phase(s: &State, n: usize, i: usize) -> Phase
    requires { (i < n) × (n ≤ 32) }
    ensures { result ≡ phase_in s.now n i }
{
    phase_of(s.members[i], states::all_joined(s, n))
}

// Whether t is one of the first `count` tags of a stretch.
fn holds_in(s: &[u64], count: usize, t: Tag) -> bool
    requires { (count ≤ 32) × (length s.now ≡ 64) }
    ensures { result ≡ holds t (tags_of count s.now) }
{
    (0..count).any(|i| Tag::Finite(s[2 * i], s[2 * i + 1]) == t)
}

// Whether member i, that holds `count` tags, holds t.
#[tactic(auto, using(crate::proofs::Searches::lent_holds, transit::proofs::Stretches::lent))]
pub fn holds_for(slab: &[u64], i: usize, count: usize, t: Tag) -> bool
    requires { (i < 32) × (64 * i + 64 ≤ length slab.now) × (count ≤ 32) }
    ensures { result ≡ holds t (tags_of count (stretch i slab.now)) }
{
    let a = WIDTH * i;
    holds_in(&slab[a..a + WIDTH], count, t)
}

// Whether member i has no room for t, which it does not hold.
pub fn is_full(slab: &[u64], i: usize, count: usize, capacity: usize, t: Tag) -> bool
    requires { (i < 32) × (64 * i + 64 ≤ length slab.now) × (count ≤ 32) }
    ensures { result ≡ full_at capacity t count (stretch i slab.now) }
{
    !holds_for(slab, i, count, t) && capacity <= count
}

// The refusal, if a test says so.
fn refused(bad: bool, cause: Cause) -> Result<(), Cause>
    ensures { ruling result ≡ when bad (cause_no cause) }
{
    if bad { Err(cause) } else { Ok(()) }
}

// What a payload is refused with by its destination j.
fn target_refusal(
    m: MemberState,
    slab: &[u64],
    j: usize,
    capacity: usize,
    t: Tag,
) -> Result<(), Cause>
    requires { (j < 32) × (64 * j + 64 ≤ length slab.now) × (m.held ≤ 32) }
    ensures { ruling result ≡ target_refusal m (stretch j slab.now) capacity t }
{
    if records::bad_target(m, t) {
        return Err(Cause::Target);
    }
    refused(is_full(slab, j, m.held, capacity, t), Cause::Full)
}

// What a request is judged by: a compiled plan, and a state and a slab that are well formed for it.
#[derive(Clone, Copy)]
struct Session<'a> {
    plan: &'a [u8],
    state: &'a State,
    slab: &'a [u64],
    ghost fits: { Fits plan.now state.now slab.now },
}

impl Session<'_> {
    // What a payload of member i is refused with on route k.
    #[tactic(auto, using(crate::proofs::Ties::few))]
    fn route_refusal(self, i: usize, k: usize, t: Tag) -> Result<(), Cause>
        requires { (i < members self.plan.now) × (k < edges self.plan.now) }
        ensures { ruling result ≡ route_refusal self.entry.plan.now self.entry.state.now self.entry.slab.now i k t }
    {
        if rows::edge_source(self.plan, k) != i {
            return Err(Cause::Source);
        }
        if records::bad_payload(self.state.members[i], rows::edge_delay(self.plan, k), t) {
            return Err(Cause::Payload);
        }
        let j = rows::edge_target(self.plan, k);
        target_refusal(
            self.state.members[j],
            self.slab,
            j,
            rows::capacity(self.plan, j),
            t,
        )
    }

    // What a payload of member i is refused with.
    fn payload_refusal(self, i: usize, k: u64, t: Tag) -> Result<(), Cause>
        requires { i < members self.plan.now }
        ensures { ruling result ≡ payload_in self.entry.plan.now self.entry.state.now self.entry.slab.now i k t }
    {
        if rows::edges(self.plan) as u64 <= k {
            return Err(Cause::Route);
        }
        self.route_refusal(i, k as usize, t)
    }

    // What a request of member i is refused with by its kind.
    fn kind_refusal(self, i: usize, q: Request) -> Result<(), Cause>
        requires { i < members self.plan.now }
        ensures { ruling result ≡ kind_in self.entry.plan.now self.entry.state.now self.entry.slab.now i q }
    {
        let m = self.state.members[i];
        match q {
            Request::Hello(d) => refused(d != self.state.identity, Cause::Identity),
            Request::Publish(r, e) => refused(
                records::bad_publication(m, r, e),
                Cause::Publication,
            ),
            Request::Complete(t) => refused(records::bad_completion(m, t), Cause::Completion),
            Request::Payload(k, t, _) => self.payload_refusal(i, k, t),
            Request::ConfirmIdle(r) => refused(
                !records::is_quiet_at(m.publication, r),
                Cause::Confirmation,
            ),
            Request::Stop | Request::Abort(_) => Ok(()),
        }
    }

    // What a request of member i is refused with: by the table, then by its kind.
    fn known_refusal(self, i: usize, q: Request) -> Result<(), Cause>
        requires { i < members self.plan.now }
        ensures { ruling result ≡ or_else (lifecycle q (phase_of (net_in self.entry.plan.now) (session_of self.entry.state.now self.entry.slab.now) i)) (kind_refusal (net_in self.entry.plan.now) (session_of self.entry.state.now self.entry.slab.now) i q) }
    {
        requests::outside(q, phase(self.state, rows::members(self.plan), i))?;
        self.kind_refusal(i, q)
    }
}

// Whether a request is an abort.
fn is_abort(q: Request) -> bool
    ensures { result ≡ is_abort q }
{
    matches!(q, Request::Abort(_))
}

// What a request is refused with. The state and the slab are well formed for the plan.
#[tactic(auto, unfolding(states::specs::Steps::refusal_of, rows::specs::Nets::net_in))]
pub fn refusal(plan: &[u8], s: State, slab: &[u64], member: u64, q: Request) -> Result<(), Cause>
    requires { Laid plan.now × (64 * members plan.now ≤ length slab.now) × (formed (net_in plan.now) s slab.now ≡ true) }
    ensures { ruling result ≡ refusal_of (net_in plan.now) (session_of s slab.now) member q }
{
    if is_abort(q) {
        return Err(Cause::Aborted);
    }
    if rows::members(plan) as u64 <= member {
        return Err(Cause::UnknownMember);
    }
    let session = Session {
        plan,
        state: &s,
        slab,
    };
    session.known_refusal(member as usize, q)
}

// The record that a request of its member leaves; Complete and Payload go by the slab.
pub fn changed(m: MemberState, q: Request) -> MemberState
    ensures { result ≡ changed_record m q }
{
    match q {
        Request::Hello(_) => records::joined(m),
        Request::Publish(r, e) => records::published(m, r, e),
        Request::ConfirmIdle(r) => records::asked(m, r),
        Request::Stop => records::stopped(m),
        _ => m,
    }
}

// Member i's record is changed by a request; the slab stays.
pub fn keep(s: &mut State, i: usize, q: Request)
    requires { i < 32 }
    ensures { s.new ≡ with_record s.old i (changed_record (record_at s.old i) q) }
{
    s.members[i] = changed(s.members[i], q);
}

// Member i has completed t: its tags up to t are removed.
#[tactic(auto, using(crate::proofs::Changes::completing))]
pub fn complete(s: &mut State, slab: &mut [u64], i: usize, t: Tag)
    requires { (i < 32) × (64 * i + 64 ≤ length slab.old) × ((record_at s.old i).held ≤ 32) }
    ensures { Completes s.old slab.old i t s.new slab.new }
{
    let left = transit::remove_for(slab, i, s.members[i].held, t);
    completion::complete(&mut s.members[i], t, left);
}

// A tag in transit to member j is put among those that it holds.
pub fn carry(s: &mut State, slab: &mut [u64], j: usize, room: usize, t: Tag)
    requires { (j < 32) × (64 * j + 64 ≤ length slab.old) × ((record_at s.old j).held ≤ room) × (room ≤ 32) }
    ensures { Carries s.old slab.old j room t s.new slab.new }
{
    let m = s.members[j];
    let w = t.words();
    let stored = transit::insert_for(slab, j, m.held, room, w.offset, w.microstep);
    s.members[j] = records::carrying(m, stored.unwrap_or(m.held));
}

// A payload on route k: its tag is put among those of the route's target.
#[tactic(auto, using(crate::proofs::Changes::at_row, crate::proofs::Ties::room, crate::proofs::Ties::few))]
pub fn deliver(plan: &[u8], s: &mut State, slab: &mut [u64], k: usize, t: Tag)
    requires { Laid plan.now × (64 * members plan.now ≤ length slab.old) × (formed (net_in plan.now) s.old slab.old ≡ true) × (k < edges plan.now) }
    ensures { Carries s.old slab.old (edge_target plan.now k) (capacity plan.now (edge_target plan.now k)) t s.new slab.new }
{
    let j = rows::edge_target(plan, k);
    carry(s, slab, j, rows::capacity(plan, j), t);
}

// What an accepted request of member i does to the state and the slab.
pub fn effect(plan: &[u8], mut s: State, slab: &mut [u64], i: usize, q: Request) -> State
    requires { Laid plan.now × (64 * members plan.now ≤ length slab.old) × (formed (net_in plan.now) s slab.old ≡ true) × (i < members plan.now) × (refusal_of (net_in plan.now) (session_of s slab.old) i q ≡ 0) }
    ensures { (result ≡ state_of (effect_of (net_in plan.now) (session_of s slab.old) i q).session) × (slab.new ≡ slab_of (effect_of (net_in plan.now) (session_of s slab.old) i q).session slab.old) }
{
    match q {
        Request::Complete(t) => complete(&mut s, slab, i, t),
        Request::Payload(k, t, _) => deliver(plan, &mut s, slab, k as usize, t),
        _ => keep(&mut s, i, q),
    }
    s
}

// What an accepted request of member i sends first: the payload, or Stopped.
pub fn first_delivery(plan: &[u8], i: usize, q: Request) -> Option<Delivery>
    requires { Laid plan.now × Routed plan.now q }
    ensures { firstly result ≡ sent_first plan.now i q }
{
    match q {
        Request::Payload(k, t, h) => {
            let j = rows::edge_target(plan, k as usize);
            Some(Delivery::Carried(j as u64, k, t, h))
        }
        Request::Stop => Some(Delivery::Stopped(i as u64)),
        _ => None,
    }
}
