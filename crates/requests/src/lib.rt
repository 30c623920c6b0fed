// Requests and deliveries as seven words, and the table of phases.
#![tactic(auto)]

ghost use Rattle.std.specs.Prelude.{◌≡◌, ◌+◌, ◌*◌, ◌≤◌, length};
ghost use Rattle.basis.specs.Parts.{replaced};
ghost use Rattle.states.specs.Causes.{ruling};
ghost use Rattle.states.specs.Steps.{lifecycle};
ghost use Rattle.requests.specs.Asking.{spoken_by, bare_of, publish_of, complete_of, payload_of, numberless_of, form_of, far_tag, far_next, far_of, judged_by, asked_by, fault_no, heard_as};
ghost use Rattle.requests.specs.Sending.{plain as plainSheet, tagged as taggedSheet, sheet_of, words_of};
ghost use Rattle.requests.specs.Phases.{kind_no, phase_no, phase_said};

use states::{Cause, Delivery, Request};
use tags::Tag;
use transit::LIMIT;

// Words of a request, and of a delivery.
const WORDS: usize = 7;

// Phases, columns of the table.
const PHASES: usize = 5;

// What seven words ask: the member word and the request.
#[derive(Clone, Copy, Debug, PartialEq, Eq)]
pub struct Asked {
    pub member: u64,
    pub request: Request,
}

// Why seven words are refused: they say no request, or its tag has an offset above L.
#[derive(Clone, Copy, Debug, PartialEq, Eq)]
pub enum Fault {
    Malformed,
    Far,
}

impl Fault {
    // Its number among the refusals.
    pub fn number(self) -> u64
        ensures { result ≡ fault_no self }
    {
        match self {
            Fault::Malformed => 16,
            Fault::Far => 17,
        }
    }
}

// What a request's words say beside its member and kind: a number, a tag or that there is none (None: neither), and what
// stands after it.
#[derive(Clone, Copy, Debug, PartialEq, Eq)]
pub struct Body {
    pub number: u64,
    pub said: Option<Option<Tag>>,
    pub extra: u64,
}

// The seven words of a delivery.
#[derive(Clone, Copy, Debug, PartialEq, Eq)]
pub struct Sheet {
    pub member: u64,
    pub kind: u64,
    pub number: u64,
    pub class: u64,
    pub offset: u64,
    pub microstep: u64,
    pub extra: u64,
}

// Where a member stands in a session: not joined, waiting for another, running, idle, stopped.
#[derive(Clone, Copy, Debug, PartialEq, Eq)]
pub enum Phase {
    Absent,
    Waiting,
    Running,
    Resting,
    Halted,
}

// The tag that class, offset and microstep say, if any: class 3 is no tag, and has 0 in both others. None: they say nothing.
#[tactic(auto, unfolding(crate::specs::Asking::spoken_by))]
pub fn hear(class: u64, offset: u64, microstep: u64) -> Option<Option<Tag>>
    ensures { result ≡ spoken_by class offset microstep }
{
    match (class, offset, microstep) {
        (3, 0, 0) => Some(None),
        (3, _, _) => None,
        _ => Some(Some(Tag::told(class, offset, microstep)?)),
    }
}

impl Body {
    // A request that uses neither tag nor extra.
    pub fn bare(self, q: Request) -> Option<Request>
        ensures { result ≡ bare_of self.said self.extra q }
    {
        match self.said {
            Some(None) if self.extra == 0 => Some(q),
            _ => None,
        }
    }

    // Publish: a revision, and the next event or none.
    #[tactic(auto, unfolding(crate::specs::Asking::publish_of))]
    pub fn publish(self) -> Option<Request>
        ensures { result ≡ publish_of self.number self.said self.extra }
    {
        if self.extra != 0 {
            return None;
        }
        Some(Request::Publish(self.number, self.said?))
    }

    // Complete: a tag, and neither number nor extra.
    #[tactic(auto, unfolding(crate::specs::Asking::complete_of))]
    pub fn complete(self) -> Option<Request>
        ensures { result ≡ complete_of self.number self.said self.extra }
    {
        if self.number != 0 || self.extra != 0 {
            return None;
        }
        Some(Request::Complete(self.said??))
    }

    // Payload: a route, a tag and a payload's handle.
    #[tactic(auto, unfolding(crate::specs::Asking::payload_of))]
    pub fn payload(self) -> Option<Request>
        ensures { result ≡ payload_of self.number self.said self.extra }
    {
        Some(Request::Payload(self.number, self.said??, self.extra))
    }

    // Stop: nothing but the kind.
    #[tactic(auto, unfolding(crate::specs::Asking::numberless_of))]
    pub fn stop(self) -> Option<Request>
        ensures { result ≡ numberless_of self.number self.said self.extra }
    {
        if self.number != 0 {
            return None;
        }
        self.bare(Request::Stop)
    }

    // The request of a kind; any other kind is malformed.
    #[tactic(auto, unfolding(crate::specs::Asking::form_of))]
    pub fn formed(self, kind: u64) -> Option<Request>
        ensures { result ≡ form_of kind self.number self.said self.extra }
    {
        match kind {
            1 => self.bare(Request::Hello(self.number)),
            2 => self.publish(),
            3 => self.complete(),
            4 => self.payload(),
            5 => self.bare(Request::ConfirmIdle(self.number)),
            6 => self.stop(),
            7 => self.bare(Request::Abort(self.number)),
            _ => None,
        }
    }
}

// Whether a tag is finite with an offset above L.
pub fn beyond(t: Tag) -> bool
    ensures { result ≡ far_tag t }
{
    matches!(t, Tag::Finite(o, _) if o > LIMIT)
}

// Whether the next event lies beyond L.
pub fn event_beyond(e: Option<Tag>) -> bool
    ensures { result ≡ far_next e }
{
    e.is_some_and(beyond)
}

// Whether a request's tag lies beyond L.
#[tactic(auto, unfolding(crate::specs::Asking::far_of))]
pub fn far(q: Request) -> bool
    ensures { result ≡ far_of q }
{
    match q {
        Request::Publish(_, e) => event_beyond(e),
        Request::Complete(t) | Request::Payload(_, t, _) => beyond(t),
        _ => false,
    }
}

// What a member asks: refused if malformed, then if its tag lies beyond L.
#[tactic(auto, unfolding(crate::specs::Asking::judged_by))]
pub fn judge(member: u64, asks: Option<Request>) -> Result<Asked, Fault>
    ensures { heard_as result ≡ judged_by member asks }
{
    let request = asks.ok_or(Fault::Malformed)?;
    if far(request) {
        return Err(Fault::Far);
    }
    Ok(Asked { member, request })
}

// What words ask: seven of them, or the request is malformed.
#[tactic(auto, unfolding(crate::specs::Asking::asked_by))]
pub fn read(words: &[u64]) -> Result<Asked, Fault>
    ensures { heard_as result ≡ asked_by words.now }
{
    if words.len() != WORDS {
        return Err(Fault::Malformed);
    }
    let body = Body {
        number: words[2],
        said: hear(words[3], words[4], words[5]),
        extra: words[6],
    };
    judge(words[0], body.formed(words[1]))
}

// A delivery without a tag.
pub fn plain(member: u64, kind: u64, number: u64, extra: u64) -> Sheet
    ensures { result ≡ plainSheet member kind number extra }
{
    Sheet {
        member,
        kind,
        number,
        class: 3,
        offset: 0,
        microstep: 0,
        extra,
    }
}

// A delivery with a tag.
pub fn tagged(member: u64, kind: u64, number: u64, t: Tag, extra: u64) -> Sheet
    ensures { result ≡ taggedSheet member kind number t extra }
{
    let w = t.words();
    Sheet {
        class: w.class,
        offset: w.offset,
        microstep: w.microstep,
        ..plain(member, kind, number, extra)
    }
}

// A delivery's seven words.
impl From<Delivery> for Sheet {
    ghost from_gives = { λ d s. s ≡ sheet_of d };

    fn from(d: Delivery) -> Sheet {
        match d {
            Delivery::Started(i) => plain(i, 1, 0, 0),
            Delivery::Grant(i, r, t) => tagged(i, 2, r, t, 0),
            Delivery::Carried(i, k, t, h) => tagged(i, 3, k, t, h),
            Delivery::Idle(i, r) => plain(i, 4, r, 0),
            Delivery::Stopped(i) => plain(i, 5, 0, 0),
            Delivery::Suppress(i, t) => tagged(i, 6, 0, t, 0),
            Delivery::Failed(i, c, x) => plain(i, 7, c, x),
        }
    }
}

// Writes a delivery as the one at place k, and no other word.
pub fn send(out: &mut [u64], k: usize, d: Delivery)
    requires { 7 * k + 7 ≤ length out.old }
    ensures { out.new ≡ replaced (7 * k) (words_of d) out.old }
{
    let w = Sheet::from(d);
    out[WORDS * k..WORDS * k + WORDS].copy_from_slice(&[
        w.member,
        w.kind,
        w.number,
        w.class,
        w.offset,
        w.microstep,
        w.extra,
    ]);
}

// The phase table: seven kinds by five phases, each entry 0 or the first refusal; numbers, as the table is written down.
const LIFECYCLE: [u64; 35] = [
    0, 22, 22, 22, 22, 23, 23, 0, 0, 23, 23, 23, 0, 0, 23, 23, 23, 0, 0, 23, 23, 23, 0, 0, 23, 23,
    23, 32, 0, 23, 20, 20, 20, 20, 20,
];

// A kind's row of the table.
pub fn row(q: Request) -> usize
    ensures { result ≡ kind_no q }
{
    match q {
        Request::Hello(_) => 0,
        Request::Publish(_, _) => 1,
        Request::Complete(_) => 2,
        Request::Payload(_, _, _) => 3,
        Request::ConfirmIdle(_) => 4,
        Request::Stop => 5,
        Request::Abort(_) => 6,
    }
}

// A phase's column of the table.
pub fn column(p: Phase) -> usize
    ensures { result ≡ phase_no p }
{
    p as usize
}

// What a request is refused with in a phase, if it is.
pub fn outside(q: Request, p: Phase) -> Result<(), Cause>
    ensures { ruling result ≡ lifecycle q (phase_said p) }
{
    match LIFECYCLE[row(q) * PHASES + column(p)] {
        0 => Ok(()),
        20 => Err(Cause::Aborted),
        22 => Err(Cause::Identity),
        23 => Err(Cause::Lifecycle),
        _ => Err(Cause::Unconfirmed),
    }
}
