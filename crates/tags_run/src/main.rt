// Tags at work: the marked subtractions, delays, predecessors and the order, a line each.
#![tactic(auto)]

use std::{fmt, io};
use tags::Tag;

// M, the largest microstep.
const TOP: u64 = u64::MAX;

// A tag as its three words.
#[derive(Drop)]
struct Shown(Tag);

impl fmt::Display for Shown {
    fn fmt<W: fmt::Write>(&self, f: &mut fmt::Formatter<W>) -> fmt::Result {
        let w = self.0.words();
        write!(f, "{} {} {}", w.class, w.offset, w.microstep)
    }
}

fn less(rt: &impl Print, t: Tag, d: u64) -> io::Result<()> {
    println!(rt; "less {} {d} = {}", Shown(t), Shown(t.subtract(d)))
}

fn later(rt: &impl Print, t: Tag, d: u64) -> io::Result<()> {
    match t.delay(d) {
        Some(x) => println!(rt; "delayed {} {d} = {}", Shown(t), Shown(x)),
        None => println!(rt; "delayed {} {d} = too far", Shown(t)),
    }
}

fn previous(rt: &impl Print, t: Tag) -> io::Result<()> {
    println!(rt; "predecessor {} = {}", Shown(t), Shown(t.predecessor()))
}

// Which of the two comes first, and whether they are the same.
fn order(rt: &impl Print, a: Tag, b: Tag) -> io::Result<()> {
    print!(rt;
        "least {} greatest {}",
        Shown(a.least(b)),
        Shown(a.greatest(b))
    )?;
    if a.at_or_before(b) {
        if a.before(b) {
            print!(rt; " before")?;
        }
        if a.equal(b) {
            print!(rt; " equal")?;
        }
    }
    println!(rt)
}

fn told(rt: &impl Print, class: u64, offset: u64, microstep: u64) -> io::Result<()> {
    match Tag::told(class, offset, microstep) {
        Some(t) => println!(rt; "words {class} say {}", Shown(t)),
        None => println!(rt; "words {class} say none"),
    }
}

fn main(rt: HostRuntime) -> io::Result<()> {
    less(&rt, Tag::Finite(10, 3), 0)?;
    less(&rt, Tag::Finite(10, 3), 10)?;
    less(&rt, Tag::Finite(10, 3), 11)?;
    less(&rt, Tag::NEVER, 5)?;
    less(&rt, Tag::FOREVER, 5)?;
    later(&rt, Tag::Finite(10, 3), 0)?;
    later(&rt, Tag::Finite(10, 3), 5)?;
    later(&rt, Tag::Finite(1, 0), TOP)?;
    later(&rt, Tag::Finite(0, 7), TOP)?;
    later(&rt, Tag::NEVER, 5)?;
    later(&rt, Tag::FOREVER, 5)?;
    previous(&rt, Tag::Finite(10, 3))?;
    previous(&rt, Tag::Finite(10, 0))?;
    previous(&rt, Tag::ZERO)?;
    previous(&rt, Tag::NEVER)?;
    previous(&rt, Tag::FOREVER)?;
    order(&rt, Tag::Finite(1, 9), Tag::Finite(2, 0))?;
    order(&rt, Tag::Finite(2, 1), Tag::Finite(2, 0))?;
    order(&rt, Tag::ZERO, Tag::NEVER)?;
    order(&rt, Tag::FOREVER, Tag::FOREVER)?;
    told(&rt, 0, 0, 0)?;
    told(&rt, 1, 4, 5)?;
    told(&rt, 2, 0, 0)?;
    told(&rt, 3, 0, 0)?;
    told(&rt, 0, 1, 0)?;
    told(&rt, 2, 0, 1)
}
