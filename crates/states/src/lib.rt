// What a session holds: a record for each member, the identity, and what ended it; requests, their refusals and deliveries.
#![tactic(auto)]

ghost use Rattle.std.specs.Prelude.{◌≡◌, ◌≤◌};
ghost use Rattle.states.specs.Causes.{cause_no};
ghost use Rattle.states.specs.Records.{blank_record, fresh_state, joined_at};
ghost use Rattle.states.specs.Steps.{every};

use tags::Tag;

// A publication: its revision, and the next event if there is one.
#[derive(Clone, Copy, Debug, PartialEq, Eq)]
pub struct Publication {
    pub revision: u64,
    pub next: Option<Tag>,
}

// One member's record.
#[derive(Clone, Copy, Debug, PartialEq, Eq)]
pub struct MemberState {
    // whether it passed admission
    pub joined: bool,
    // its latest publication; none means no information yet
    pub publication: Option<Publication>,
    // revision of the last grant sent
    pub revision: Option<u64>,
    // horizon of the last grant sent
    pub granted: Option<Tag>,
    // last downstream bound sent to it
    pub bound: Option<Tag>,
    // greatest completed tag
    pub completed: Option<Tag>,
    // number of tags in transit to it, delivered and not yet covered by a completion
    pub held: usize,
    // revision that it confirmed for idle
    pub asked: Option<u64>,
    // revision at which it may stop
    pub idle: Option<u64>,
    // whether it stopped
    pub stopped: bool,
}

// A session's state: a record for each member, then blank ones; the identity that members have to name; what ended the
// session (0: nothing), and the abort code with it. Fixed memory: the count stands beside the records. The cause and its
// code stay numbers, since a state of any words is answered.
#[derive(Clone, Copy, Debug, PartialEq, Eq)]
pub struct State {
    pub members: [MemberState; 32],
    pub count: usize,
    pub identity: u64,
    pub cause: u64,
    pub code: u64,
}

// What a member asks.
#[derive(Clone, Copy, Debug, PartialEq, Eq)]
pub enum Request {
    Hello(u64),
    Publish(u64, Option<Tag>),
    Complete(Tag),
    Payload(u64, Tag, u64),
    ConfirmIdle(u64),
    Stop,
    Abort(u64),
}

// What is sent; the first number is the member that it goes to.
#[derive(Clone, Copy, Debug, PartialEq, Eq)]
pub enum Delivery {
    Started(u64),
    Grant(u64, u64, Tag),
    Carried(u64, u64, Tag, u64),
    Idle(u64, u64),
    Stopped(u64),
    Suppress(u64, Tag),
    Failed(u64, u64, u64),
}

// Why a request ends the session: an abort, a member that the plan has not, another identity, a request that the member's
// phase excludes, a publication, a completion, a payload's route, its source, its tag, its target, no room for its tag, a
// confirmation of another publication, and a stop before Idle.
#[derive(Clone, Copy, Debug, PartialEq, Eq)]
pub enum Cause {
    Aborted,
    UnknownMember,
    Identity,
    Lifecycle,
    Publication,
    Completion,
    Route,
    Source,
    Payload,
    Target,
    Full,
    Confirmation,
    Unconfirmed,
}

impl Cause {
    // Its number in the state and on the wire.
    pub fn number(self) -> u64
        ensures { result ≡ cause_no self }
    {
        match self {
            Cause::Aborted => 20,
            Cause::UnknownMember => 21,
            Cause::Identity => 22,
            Cause::Lifecycle => 23,
            Cause::Publication => 24,
            Cause::Completion => 25,
            Cause::Route => 26,
            Cause::Source => 27,
            Cause::Payload => 28,
            Cause::Target => 29,
            Cause::Full => 30,
            Cause::Confirmation => 31,
            Cause::Unconfirmed => 32,
        }
    }
}

// What opening gives a member.
pub fn blank() -> MemberState
    ensures { result ≡ blank_record }
{
    MemberState {
        joined: false,
        publication: None,
        revision: None,
        granted: None,
        bound: None,
        completed: None,
        held: 0,
        asked: None,
        idle: None,
        stopped: false,
    }
}

// The state of a session of n members that has just been opened.
pub fn fresh(n: usize, identity: u64) -> State
    ensures { result ≡ fresh_state n identity }
{
    State {
        members: [blank(); 32],
        count: n,
        identity,
        cause: 0,
        code: 0,
    }
}

// Whether the first n members have joined.
pub fn all_joined(s: &State, n: usize) -> bool
    requires { n ≤ 32 }
    ensures { result ≡ every (joined_at s.now) n }
{
    s.members[..n].iter().all(|m| m.joined)
}
