// The coordinator: open a session on a compiled plan, ask it, abort it, and whether it is finished.
#![tactic(auto)]

ghost use Rattle.std.specs.Prelude.{◌≡◌, [], ◌+◌, ◌*◌, ◌≤◌, length};
ghost use Rattle.states.specs.Sessions.{fresh};
ghost use Rattle.members.specs.Codes.{state_of, slab_of};
ghost use Rattle.states.specs.Records.{fresh_state};
ghost use Rattle.rti.specs.Refusals.{refusal_no, unrecognised, misheard, refused};
ghost use Rattle.rti.specs.Entries.{open_refusal, abort_refusal, answered, leaving, opened, handled, aborted, finished_state};

use passes::Progress;
use states::State;

// What an opening or a call is refused with: bytes that are no compiled plan, a delay above L, a slab too short, a state that
// is not well formed, a delivery buffer too short, a malformed request, a request's tag above L.
#[derive(Clone, Copy, Debug, PartialEq, Eq)]
pub enum Refusal {
    NoImage,
    TooLong,
    Slab,
    State,
    Room,
    Malformed,
    Far,
}

impl Refusal {
    // Its number, 11 to 17.
    pub fn number(self) -> u64
        ensures { result ≡ refusal_no self }
    {
        match self {
            Refusal::NoImage => 11,
            Refusal::TooLong => 12,
            Refusal::Slab => 13,
            Refusal::State => 14,
            Refusal::Room => 15,
            Refusal::Malformed => 16,
            Refusal::Far => 17,
        }
    }
}

impl From<recognised::Fault> for Refusal {
    ghost from_gives = { λ f r. r ≡ unrecognised f };

    fn from(f: recognised::Fault) -> Refusal {
        match f {
            recognised::Fault::NoImage => Refusal::NoImage,
            recognised::Fault::TooLong => Refusal::TooLong,
        }
    }
}

impl From<requests::Fault> for Refusal {
    ghost from_gives = { λ f r. r ≡ misheard f };

    fn from(f: requests::Fault) -> Refusal {
        match f {
            requests::Fault::Malformed => Refusal::Malformed,
            requests::Fault::Far => Refusal::Far,
        }
    }
}

// What an opening or a call that is taken answers: how many deliveries are sent, and the state.
#[derive(Clone, Copy)]
pub struct Answer {
    pub count: usize,
    pub state: State,
}

// A step that is done.
fn done(p: Progress) -> Answer
    ensures { result ≡ record { count = p.sent; state = p.state } }
{
    Answer {
        count: p.sent,
        state: p.state,
    }
}

// What opening is refused with on so many slab words: 11 to 13.
fn open_refusal(plan: &[u8], words: usize) -> Result<(), Refusal>
    ensures { refused result ≡ open_refusal plan.now words }
{
    recognised::recognise(plan)?;
    if words < 64 * rows::members(plan) {
        return Err(Refusal::Slab);
    }
    Ok(())
}

// What the owner's abort is refused with: 11 to 15.
fn abort_refusal(plan: &[u8], s: State, slab: &[u64], room: usize) -> Result<(), Refusal>
    ensures { refused result ≡ abort_refusal plan.now s slab.now room }
{
    open_refusal(plan, slab.len())?;
    if !members::well_formed(plan, &s, slab) {
        return Err(Refusal::State);
    }
    if room < 7 * (2 * rows::members(plan) + 1) {
        return Err(Refusal::Room);
    }
    Ok(())
}

// A fresh state of n members, with their stretches of the slab set to 0.
fn begin(slab: &mut [u64], n: usize, identity: u64) -> State
    requires { (n ≤ 32) × (64 * n ≤ length slab.old) }
    ensures { (result ≡ state_of (fresh n identity)) × (slab.new ≡ slab_of (fresh n identity) slab.old) }
{
    transit::clear(slab, n);
    states::fresh(n, identity)
}

// Opens a session: members have to name this identity. Each member's 64 slab words are set to 0.
pub fn open(plan: &[u8], identity: u64, slab: &mut [u64]) -> Result<Answer, Refusal>
    ensures { leaving (answered (fresh_state 0 0) result) slab.new [] ≡ opened plan.now identity slab.old }
{
    open_refusal(plan, slab.len())?;
    Ok(Answer {
        count: 0,
        state: begin(slab, rows::members(plan), identity),
    })
}

// Answers a request of seven words; the deliveries stand at the front of the buffer. Refused, it changes nothing.
pub fn handle(
    plan: &[u8],
    state: State,
    slab: &mut [u64],
    request: &[u64],
    deliveries: &mut [u64],
) -> Result<Answer, Refusal>
    ensures { leaving (answered state result) slab.new deliveries.new ≡ handled plan.now state slab.old request.now deliveries.old }
{
    abort_refusal(plan, state, slab, deliveries.len())?;
    let asked = requests::read(request)?;
    Ok(done(steps::step(plan, state, slab, deliveries, asked.member, asked.request)))
}

// The owner's abort, with its code. Refused, it changes nothing.
pub fn abort(
    plan: &[u8],
    state: State,
    slab: &[u64],
    code: u64,
    deliveries: &mut [u64],
) -> Result<Answer, Refusal>
    ensures { leaving (answered state result) slab.now deliveries.new ≡ aborted plan.now state slab.now code deliveries.old }
{
    abort_refusal(plan, state, slab, deliveries.len())?;
    Ok(done(steps::abandon(plan, state, slab, deliveries, code)))
}

// Whether a session is finished: ended, or every member stopped.
pub fn finished(s: State) -> bool
    ensures { result ≡ finished_state s }
{
    s.cause > 0 || (s.count <= 32 && passes::all_stopped(&s, s.count))
}
