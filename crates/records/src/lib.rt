// The record of one member: rules that read it, and its changes.
#![tactic(auto)]

ghost use Rattle.std.specs.Prelude.{◌≡◌};
ghost use Rattle.tags.specs.Tags.{tag_le, tag_before, same_tag, delayed};
ghost use Rattle.states.specs.Sessions.{or_never};
ghost use Rattle.states.specs.Rules.{active, due, revision_of, useful};
ghost use Rattle.states.specs.Steps.{finite, older, otherwise, same_publication, bad_publication, bad_completion, or_zero, on_instant, bad_payload, bad_target, confirms, confirmed, of_limit};
ghost use Rattle.records.specs.Records.{plainly, bad_event, off_route, off_grant, news_for, event_due, lets_pass, bound_due, idle_due, joined_record, stated_record, published_record, granted_record, bounded_record, completed_record, carrying_record, asked_record, rested_record, stopped_record};

use states::{MemberState, Publication};
use tags::Tag;

// Whether a tag is finite.
pub fn is_finite(t: Tag) -> bool
    ensures { result ≡ finite t }
{
    matches!(t, Tag::Finite(_, _))
}

// Whether a tag's microstep is 0.
pub fn on_instant(t: Tag) -> bool
    ensures { result ≡ on_instant t }
{
    matches!(t, Tag::Finite(_, 0))
}

// The tag, or NEVER where there is none.
pub fn or_never(l: Option<Tag>) -> Tag
    ensures { result ≡ or_never l }
{
    l.unwrap_or(Tag::NEVER)
}

// The tag, or ZERO where there is none.
pub fn or_zero(l: Option<Tag>) -> Tag
    ensures { result ≡ or_zero l }
{
    l.unwrap_or(Tag::ZERO)
}

// Whether a revision is older than the published one.
pub fn is_older(p: Option<Publication>, revision: u64) -> bool
    ensures { result ≡ older p revision }
{
    matches!(p, Some(q) if revision < q.revision)
}

// Whether this revision was published with this event.
pub fn is_published(p: Option<Publication>, revision: u64, e: Option<Tag>) -> bool
    ensures { result ≡ same_publication p revision e }
{
    matches!(p, Some(q) if q.revision == revision && q.next == e)
}

// Whether this revision was published with another event.
pub fn is_otherwise(p: Option<Publication>, revision: u64, e: Option<Tag>) -> bool
    ensures { result ≡ otherwise p revision e }
{
    matches!(p, Some(q) if q.revision == revision && q.next != e)
}

// Whether an event may not be published: not finite, not after what is completed, or the member is idle.
pub fn bad_event(e: Option<Tag>, completed: Option<Tag>, idle: Option<u64>) -> bool
    ensures { result ≡ bad_event e completed idle }
{
    matches!(e, Some(t) if !is_finite(t) || t <= or_never(completed) || idle.is_some())
}

// 24: whether a member may not publish this.
#[tactic(auto, unfolding(states::specs::Steps::bad_publication, states::specs::Steps::any))]
pub fn bad_publication(m: MemberState, revision: u64, e: Option<Tag>) -> bool
    ensures { result ≡ bad_publication (plainly m) revision e }
{
    is_older(m.publication, revision)
        || is_otherwise(m.publication, revision, e)
        || bad_event(e, m.completed, m.idle)
}

// 25: whether a member may not complete this.
#[tactic(auto, unfolding(states::specs::Steps::bad_completion, states::specs::Steps::any))]
pub fn bad_completion(m: MemberState, t: Tag) -> bool
    ensures { result ≡ bad_completion (plainly m) t }
{
    !is_finite(t) || m.granted.is_none_or(|g| g < t) || t < or_never(m.completed)
}

// 29: whether a member takes no payload at this tag.
#[tactic(auto, unfolding(states::specs::Steps::bad_target, states::specs::Steps::any))]
pub fn bad_target(m: MemberState, t: Tag) -> bool
    ensures { result ≡ bad_target (plainly m) t }
{
    m.idle.is_some() || m.stopped || t <= or_never(m.completed)
}

// 31: whether this revision was published, with no event.
pub fn is_quiet_at(p: Option<Publication>, revision: u64) -> bool
    ensures { result ≡ confirms p revision }
{
    matches!(p, Some(q) if q.revision == revision && q.next.is_none())
}

// The record of a member that has joined.
pub fn joined(m: MemberState) -> MemberState
    ensures { result ≡ joined_record m }
{
    MemberState { joined: true, ..m }
}

// The record with a grant of t for a revision.
pub fn granted(m: MemberState, at: u64, t: Tag) -> MemberState
    ensures { result ≡ granted_record m at t }
{
    MemberState {
        revision: Some(at),
        granted: Some(t),
        ..m
    }
}

// The record with t as the last bound sent.
pub fn bounded(m: MemberState, t: Tag) -> MemberState
    ensures { result ≡ bounded_record m t }
{
    MemberState {
        bound: Some(t),
        ..m
    }
}

// The record completed up to t, with so many tags left.
pub fn completed(m: MemberState, t: Tag, left: usize) -> MemberState
    ensures { result ≡ completed_record m t left }
{
    MemberState {
        completed: Some(t),
        held: left,
        ..m
    }
}

// The record with so many tags in transit.
pub fn carrying(m: MemberState, held: usize) -> MemberState
    ensures { result ≡ carrying_record m held }
{
    MemberState { held, ..m }
}

// The record with idle confirmed for a revision.
pub fn asked(m: MemberState, at: u64) -> MemberState
    ensures { result ≡ asked_record m at }
{
    MemberState {
        asked: Some(at),
        ..m
    }
}

// The record idle at a revision.
pub fn rested(m: MemberState, at: u64) -> MemberState
    ensures { result ≡ rested_record m at }
{
    MemberState {
        idle: Some(at),
        ..m
    }
}

// The record of a member that has stopped.
pub fn stopped(m: MemberState) -> MemberState
    ensures { result ≡ stopped_record m }
{
    MemberState { stopped: true, ..m }
}

// The record with a publication and an idle request.
pub fn stated(m: MemberState, at: u64, e: Option<Tag>, asked: Option<u64>) -> MemberState
    ensures { result ≡ stated_record m at e asked }
{
    MemberState {
        publication: Some(Publication {
            revision: at,
            next: e,
        }),
        asked,
        ..m
    }
}

// The record with a publication; a changed one clears the idle request.
pub fn published(m: MemberState, revision: u64, e: Option<Tag>) -> MemberState
    ensures { result ≡ published_record m revision e }
{
    let asked = if is_published(m.publication, revision, e) {
        m.asked
    } else {
        None
    };
    stated(m, revision, e, asked)
}

// Whether a tag comes before another that is delayed by d, compared exactly.
pub fn before_delayed(t: Tag, x: Tag, d: u64) -> bool
    ensures { result ≡ tag_before t (delayed x d) }
{
    x > t.subtract(d)
}

// Whether a tag delayed by d comes before another, compared exactly.
pub fn delayed_before(x: Tag, d: u64, t: Tag) -> bool
    ensures { result ≡ tag_before (delayed x d) t }
{
    match x.delay(d) {
        Some(z) => z < t,
        None => is_forever(t),
    }
}

// Whether a tag is FOREVER.
pub fn is_forever(t: Tag) -> bool
    ensures { result ≡ tag_le Tag.Forever t }
{
    t == Tag::FOREVER
}

// Whether a tag is the one completed.
pub fn is_completed(l: Option<Tag>, t: Tag) -> bool
    ensures { result ≡ of_limit (same_tag t) l }
{
    l == Some(t)
}

// Whether a payload's tag does not fit its route: with no delay it is the one completed, with one its microstep is not 0.
pub fn off_route(completed: Option<Tag>, d: u64, t: Tag) -> bool
    ensures { result ≡ off_route completed d t }
{
    if d == 0 {
        is_completed(completed, t)
    } else {
        !on_instant(t)
    }
}

// Whether a payload's tag breaks the source's grant: nothing is left of it, there is none, or the tag is after it, delayed.
pub fn off_grant(m: MemberState, d: u64, t: Tag) -> bool
    ensures { result ≡ off_grant (plainly m) d t }
{
    or_never(m.granted) <= or_never(m.completed)
        || m.granted.is_none_or(|g| delayed_before(g, d, t))
}

// 28: whether a payload breaks its route or the source's grant.
#[tactic(auto, unfolding(states::specs::Steps::bad_payload, states::specs::Steps::any))]
pub fn bad_payload(m: MemberState, d: u64, t: Tag) -> bool
    ensures { result ≡ bad_payload (plainly m) d t }
{
    !is_finite(t)
        || m.idle.is_some()
        || before_delayed(t, or_zero(m.completed), d)
        || off_route(m.completed, d, t)
        || off_grant(m, d, t)
}

// Whether a member is neither idle nor stopped.
pub fn is_active(m: MemberState) -> bool
    ensures { result ≡ active (plainly m) }
{
    m.idle.is_none() && !m.stopped
}

// The revision published, 0 where there is none.
pub fn revision(p: Option<Publication>) -> u64
    ensures { result ≡ revision_of p }
{
    p.map_or(0, |q| q.revision)
}

// Whether a horizon is news for an event: it reaches it, and the revision is new or the horizon grows.
pub fn is_news(m: MemberState, at: u64, e: Tag, h: Tag) -> bool
    ensures { result ≡ news_for (plainly m) at e h }
{
    e <= h && (m.revision != Some(at) || or_never(m.granted) < h)
}

// Whether an event that is published is granted at a horizon.
pub fn event_due(m: MemberState, at: u64, e: Option<Tag>, h: Tag) -> bool
    ensures { result ≡ event_due (plainly m) at e h }
{
    matches!(e, Some(t) if is_active(m) && is_news(m, at, t, h))
}

// Whether a member is granted a horizon.
#[tactic(auto, unfolding(states::specs::Rules::due))]
pub fn is_due(m: MemberState, h: Tag) -> bool
    ensures { result ≡ due m.publication (plainly m) h }
{
    matches!(m.publication, Some(q) if event_due(m, q.revision, q.next, h))
}

// Whether a bound that rises lets an event pass.
pub fn lets_pass(e: Option<Tag>, old: Tag, new: Tag) -> bool
    ensures { result ≡ lets_pass e old new }
{
    matches!(e, Some(t) if old < new && t <= new)
}

// Whether a bound is worth sending after the last one.
#[tactic(auto, unfolding(states::specs::Rules::useful))]
pub fn is_useful(p: Option<Publication>, old: Tag, new: Tag) -> bool
    ensures { result ≡ useful p old new }
{
    matches!(p, Some(q) if new < old || lets_pass(q.next, old, new))
}

// Whether a bound is sent to a member.
pub fn bound_due(m: MemberState, new: Tag) -> bool
    ensures { result ≡ bound_due (plainly m) new }
{
    is_active(m) && is_useful(m.publication, or_never(m.bound), new)
}

// Whether a publication has no event, and was confirmed.
pub fn is_confirmed(p: Option<Publication>, asked: Option<u64>) -> bool
    ensures { result ≡ confirmed p asked }
{
    matches!(p, Some(q) if q.next.is_none() && asked == Some(q.revision))
}

// Whether Idle is sent to a member, if all are at rest.
pub fn idle_due(m: MemberState) -> bool
    ensures { result ≡ idle_due (plainly m) }
{
    !m.stopped && m.idle != Some(revision(m.publication))
}
