// Sessions at work, by open, handle, abort and finished alone. Each call stands as a line of a script; below it, two spaces in, what
// is answered and what it leaves.
#![tactic(auto)]

mod cases;
mod causes;
mod desk;
mod plan;
mod refusals;

use crate::desk::Desk;
use crate::plan::{Image, on};
use std::io;

// The whole case on P, idle and stop, ended sessions, no members.
fn sessions(rt: &impl Print, p: Image, d: &mut Desk) -> io::Result<()> {
    on(rt, "The whole case on P", p, d, &cases::WHOLE)?;
    on(
        rt,
        "Confirmed and stopped in every order",
        p,
        d,
        &cases::ORDERS,
    )?;
    on(rt, "Idle again", p, d, &cases::AGAIN)?;
    on(rt, "Complete while idle", p, d, &cases::LATE)?;
    on(rt, "Ended sessions", p, d, &cases::ENDED)?;
    on(rt, "Codes", p, d, &cases::CODES)?;
    on(rt, "No members", plan::none(), d, &cases::EMPTY)
}

// 2^63, one more than a session's delays may be.
const BEYOND: u64 = 9223372036854775808;

// 11 to 17 of a session on P, which they leave as it is. 11: another version, another minimum delay, a byte less; 11 before 12.
fn unchanging(rt: &impl Print, p: Image, d: &mut Desk) -> io::Result<()> {
    let beyond = plan::pair(BEYOND);
    on(rt, "11", p.damaged(0, 2), d, &refusals::CALLS)?;
    on(rt, "11", p.damaged(176, 11), d, &refusals::CALLS)?;
    on(rt, "11", p.shorter(), d, &refusals::CALLS)?;
    on(
        rt,
        "11 before 12",
        beyond.damaged(184, 2),
        d,
        &refusals::CALLS,
    )?;
    on(rt, "12", beyond, d, &refusals::FAR)?;
    on(rt, "13 to 15", p, d, &refusals::SHORT)?;
    on(rt, "15 before 16", p, d, &refusals::MALFORMED)?;
    on(rt, "16", p, d, &refusals::UNUSED)
}

// 11 to 17, in a session under way and in one that has ended.
fn refused(rt: &impl Print, p: Image, d: &mut Desk) -> io::Result<()> {
    on(rt, "A session under way", p, d, &refusals::BEGUN)?;
    unchanging(rt, p, d)?;
    on(rt, "It goes on", p, d, &refusals::GOES_ON)?;
    on(rt, "A session that has ended", p, d, &refusals::ABORTED)?;
    unchanging(rt, p, d)?;
    on(rt, "It has ended as it had", p, d, &refusals::ENDED)?;
    on(rt, "An offset of L", p, d, &refusals::LARGEST)
}

// 20 to 24.
fn barred(rt: &impl Print, p: Image, d: &mut Desk) -> io::Result<()> {
    on(rt, "20 and 21", p, d, &causes::ABORTS)?;
    on(rt, "22", p, d, &causes::HELLOS)?;
    on(rt, "23", p, d, &causes::ABSENT)?;
    on(rt, "23, stopped", p, d, &causes::HALTED)?;
    on(rt, "24", p, d, &causes::PUBLISHED)
}

// 25 to 32.
fn failed(rt: &impl Print, p: Image, d: &mut Desk) -> io::Result<()> {
    on(rt, "25", p, d, &causes::COMPLETED)?;
    on(rt, "26 and 27", p, d, &causes::ROUTES)?;
    on(rt, "28", p, d, &causes::PAYLOADS)?;
    on(rt, "28 by a finite grant", plan::ring(), d, &causes::RING)?;
    on(rt, "28 without delay", plan::pair(0), d, &causes::PROMPT)?;
    on(rt, "28 and 29", p, d, &causes::TARGETS)?;
    on(rt, "29 and 30", p, d, &causes::FULL)?;
    on(rt, "31 and 32", p, d, &causes::QUIET)
}

fn main(rt: HostRuntime) -> io::Result<()> {
    let p = plan::pair(10);
    let mut d = Desk::new();
    sessions(&rt, p, &mut d)?;
    refused(&rt, p, &mut d)?;
    barred(&rt, p, &mut d)?;
    failed(&rt, p, &mut d)
}
