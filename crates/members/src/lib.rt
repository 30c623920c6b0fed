// Well-formed states (refusal 14), and the three rules: earliest, horizon, bound.
#![tactic(auto)]

ghost use Rattle.std.specs.Prelude.{◌≡◌, ℕ, ◌+◌, ◌*◌, ◌-◌, ◌^◌, ◌<◌, ◌≤◌, length};
ghost use Rattle.transit.specs.Tags.{limit};
ghost use Rattle.transit.specs.Words.{stretch};
ghost use Rattle.states.specs.Rules.{awaited, past, earliest as earliestOf};
ghost use Rattle.tags.specs.Tags.{delayed};
ghost use Rattle.rows.specs.Rows.{Laid, members, direct_count, transitive_count};
ghost use Rattle.rows.specs.Nets.{net_in};
ghost use Rattle.tags.specs.declared.Tag.{Tag};
ghost use Rattle.members.specs.Codes.{member_of, Holds, AllHold};
ghost use Rattle.members.specs.Rules.{Low, AllLow, Mild, tags_to, earliest_at, completed_at, least_in, coming_in, done_in, horizon_in, lower, bounds_in};
ghost use Rattle.members.specs.Formed.{event_within, limit_within, orderly, limited, formed_record, is_blank, every, formed_at, blank_at, formed};

use states::{MemberState, Publication, State};
use tags::Tag;

// The tags of all members, by position: the earliest at which each may have work, and what each completed. Arrays of 32 with
// NEVER past the members, since memory is fixed.
#[derive(Clone, Copy)]
pub struct Times {
    pub earliest: [Tag; 32],
    pub completed: [Tag; 32],
}

// Whether the tag, if there is one, is finite with an offset of at most L.
fn limit_in_limit(l: Option<Tag>) -> bool
    ensures { result ≡ limit_within l }
{
    l.is_none_or(transit::within)
}

// The same of the event of a publication.
fn event_in_limit(p: Option<Publication>) -> bool
    ensures { result ≡ event_within p }
{
    p.is_none_or(|q| limit_in_limit(q.next))
}

// Whether publication and completion are finite with offsets of at most L.
#[tactic(auto, unfolding(crate::specs::Formed::limited))]
fn is_limited(m: MemberState) -> bool
    ensures { result ≡ limited m }
{
    event_in_limit(m.publication) && limit_in_limit(m.completed)
}

// Whether completed is not above granted, and the member stopped only if idle.
#[tactic(auto, unfolding(crate::specs::Formed::orderly))]
fn is_orderly(m: MemberState) -> bool
    ensures { result ≡ orderly m }
{
    m.completed.unwrap_or(Tag::NEVER) <= m.granted.unwrap_or(Tag::NEVER)
        && (!m.stopped || m.idle.is_some())
}

// Whether the record of member i and its stretch of the slab are well formed.
#[tactic(auto, unfolding(crate::specs::Formed::formed_record))]
pub fn formed_record(m: MemberState, slab: &[u64], i: usize, capacity: usize) -> bool
    requires { (i < 32) × (64 * i + 64 ≤ length slab.now) × (capacity ≤ 32) }
    ensures { result ≡ formed_record capacity m (stretch i slab.now) }
{
    let completed = m.completed.unwrap_or(Tag::NEVER);
    is_limited(m) && is_orderly(m) && transit::rising_for(slab, i, m.held, capacity, completed)
}

// Whether the record is blank, as opening gives it.
fn is_blank(m: MemberState) -> bool
    ensures { result ≡ is_blank m }
{
    m == states::blank()
}

// Whether the first n records and their stretches are well formed.
fn all_formed(plan: &[u8], s: &State, slab: &[u64], n: usize) -> bool
    requires { Laid plan.now × (n ≤ members plan.now) × (64 * n ≤ length slab.now) }
    ensures { result ≡ every (formed_at (net_in plan.now) s.now slab.now) n }
{
    (0..n).all(|i| formed_record(s.members[i], slab, i, rows::capacity(plan, i)))
}

// Whether the records from n on are blank.
fn all_blank(s: &State, n: usize) -> bool
    requires { n ≤ 32 }
    ensures { result ≡ every (blank_at s.now n) (32 - n) }
{
    s.members[n..].iter().all(|m| is_blank(*m))
}

// Whether the state and the slab are well formed for the plan (refusal 14).
#[tactic(auto, unfolding(crate::specs::Formed::formed, rows::specs::Nets::net_in))]
pub fn well_formed(plan: &[u8], s: &State, slab: &[u64]) -> bool
    requires { Laid plan.now × (64 * members plan.now ≤ length slab.now) }
    ensures { result ≡ formed (net_in plan.now) s.now slab.now }
{
    let n = rows::members(plan);
    s.count == n && all_formed(plan, s, slab, n) && all_blank(s, n)
}

// What a publication awaits: unpublished NEVER, none FOREVER.
fn awaits(p: Option<Publication>) -> Tag
    ensures { result ≡ awaited p }
{
    p.map_or(Tag::NEVER, |q| q.next.unwrap_or(Tag::FOREVER))
}

// The earliest tag at which member i may have work.
#[tactic(auto, unfolding(states::specs::Rules::earliest))]
pub fn earliest(m: MemberState, slab: &[u64], i: usize) -> Tag
    requires { (i < 32) × (64 * i + 64 ≤ length slab.now) }
    ensures { (lo : Tag) → Holds lo m (stretch i slab.now) → result ≡ earliestOf (member_of m (stretch i slab.now)) }
{
    awaits(m.publication).least(transit::first(slab, i, m.held))
}

// What `tag` gives of the first n positions; NEVER after them.
fn tags_of<F: Fn(usize) -> Tag>(n: usize, tag: F) -> [Tag; 32]
    requires few { n ≤ 32 }
    requires each { (k : ℕ) → k < n → F.pre tag k }
    ensures { (f : ℕ → Tag) → ((k : ℕ) (t : Tag) → k < n → F.post tag k t → t ≡ f k) → result ≡ tags_to f n }
{
    let mut all = [Tag::NEVER; 32];
    for i in 0..n {
        all[i] = tag(i);
    }
    all
}

// The earliest tags of the first n members; NEVER after them.
pub fn earliest_all(s: &State, slab: &[u64], n: usize) -> [Tag; 32]
    requires { (n ≤ 32) × (64 * n ≤ length slab.now) × AllHold s.now slab.now n }
    ensures { result ≡ tags_to (earliest_at s.now slab.now) n }
{
    tags_of(n, |i| earliest(s.members[i], slab, i))
}

// What the first n members completed, NEVER where there is nothing; NEVER after them.
pub fn completed_all(s: &State, n: usize) -> [Tag; 32]
    requires { n ≤ 32 }
    ensures { result ≡ tags_to (completed_at s.now) n }
{
    tags_of(n, |i| s.members[i].completed.unwrap_or(Tag::NEVER))
}

// t delayed by d, where the sum cannot pass 2^64-1.
pub fn exactly(t: Tag, d: u64) -> Tag
    requires { Low t × (d ≤ limit) }
    ensures { result ≡ delayed t d }
{
    t.delay(d).unwrap_or(Tag::FOREVER)
}

// t completed over a way of delay d: delayed, its predecessor if the delay is positive.
#[tactic(auto, unfolding(states::specs::Rules::past))]
fn passed(t: Tag, d: u64) -> Tag
    requires { Low t × (d ≤ limit) }
    ensures { result ≡ past d t }
{
    let sum = exactly(t, d);
    if d == 0 { sum } else { sum.predecessor() }
}

// The least of what `count` rows from `first` on give; FOREVER where there are none.
fn least_over<F: Fn(usize) -> Tag>(first: usize, count: usize, row: F) -> Tag
    requires fits { first + count < 2 ^ 64 }
    requires each { (k : ℕ) → first ≤ k → k < first + count → F.pre row k }
    ensures { (f : ℕ → Tag) → ((k : ℕ) (t : Tag) → F.post row k t → t ≡ f k) → result ≡ least_in f first count }
{
    let mut x = Tag::FOREVER;
    for k in first..first + count {
        x = x.least(row(k));
    }
    x
}

// The least earliest-plus-minimum-delay over the transitive sources of j.
#[tactic(auto, unfolding(crate::specs::Rules::coming_in, crate::specs::Rules::least_in))]
fn coming(plan: &[u8], earliest: &[Tag; 32], j: usize) -> Tag
    requires { Laid plan.now × Mild plan.now × AllLow earliest.now × (j < members plan.now) }
    ensures { result ≡ coming_in plan.now earliest.now j (transitive_count plan.now j) }
{
    least_over(
        rows::transitive_first(plan, j),
        rows::transitive_count(plan, j),
        |k| {
            exactly(
                earliest[rows::transitive_source(plan, k)],
                rows::transitive_delay(plan, k),
            )
        },
    )
}

// The least over the direct sources of j of what they completed, delayed.
#[tactic(auto, unfolding(crate::specs::Rules::done_in, crate::specs::Rules::least_in))]
fn done(plan: &[u8], completed: &[Tag; 32], j: usize) -> Tag
    requires { Laid plan.now × Mild plan.now × AllLow completed.now × (j < members plan.now) }
    ensures { result ≡ done_in plan.now completed.now j (direct_count plan.now j) }
{
    least_over(
        rows::direct_first(plan, j),
        rows::direct_count(plan, j),
        |k| {
            passed(
                completed[rows::direct_source(plan, k)],
                rows::direct_delay(plan, k),
            )
        },
    )
}

// How far member j may go: the greatest of what may still come, what its sources completed, and what is granted.
#[tactic(auto, unfolding(crate::specs::Rules::horizon_in))]
pub fn horizon(plan: &[u8], times: &Times, granted: Tag, j: usize) -> Tag
    requires { Laid plan.now × Mild plan.now × AllLow times.now.earliest × AllLow times.now.completed × (j < members plan.now) }
    ensures { result ≡ horizon_in plan.now times.now.earliest times.now.completed granted j }
{
    coming(plan, &times.earliest, j)
        .predecessor()
        .greatest(done(plan, &times.completed, j))
        .greatest(granted)
}

// x, or t less d if that is less; x for a member's own row.
fn lowered(x: Tag, t: Tag, d: u64, own: bool) -> Tag
    ensures { result ≡ lower x t d own }
{
    if own { x } else { x.least(t.subtract(d)) }
}

// The downstream bound of every member: the least, over the members downstream of it, of their earliest tag less the
// minimum delay to them; FOREVER where there are none. One pass over all transitive rows, target by target.
pub fn bounds_all(plan: &[u8], earliest: &[Tag; 32]) -> [Tag; 32]
    requires { Laid plan.now }
    ensures { result ≡ bounds_in plan.now earliest.now (members plan.now) }
{
    let n = rows::members(plan);
    let mut all = [Tag::FOREVER; 32];
    for j in 0..n {
        let t = earliest[j];
        let first = rows::transitive_first(plan, j);
        for k in first..first + rows::transitive_count(plan, j) {
            let i = rows::transitive_source(plan, k);
            all[i] = lowered(all[i], t, rows::transitive_delay(plan, k), i == j);
        }
    }
    all
}
