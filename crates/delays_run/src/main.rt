// Small plans at work: the refusal of each, then its direct and its minimum delays, a row for each source.
#![tactic(auto)]

ghost use Rattle.std.specs.Prelude.{◌≡◌, ◌+◌, ◌<◌, ◌≤◌};
ghost use Rattle.plans.specs.Values.{Fits};
ghost use Rattle.delays_run.specs.Built.{Built};

use delays::{Matrix, Reach};
use plans::{Plan, Refusal};
use std::io;

// 2^63, and the largest delay.
const HALF: u64 = 9223372036854775808;

const LARGEST: u64 = 18446744073709551615;

// A plan of n members with ids 10, 20, 30, 40 and no edges.
fn blank(n: usize) -> Plan
    requires { n ≤ 4 }
    ensures { Built result n 0 }
{
    let mut ids = [0; 32];
    ids[..4].copy_from_slice(&[10, 20, 30, 40]);
    Plan {
        members: n,
        edges: 0,
        ids,
        capacities: [0; 32],
        routes: [0; 256],
        sources: [0; 256],
        targets: [0; 256],
        delays: [0; 256],
    }
}

// The plan with one edge more, from member s to member t.
fn with_edge(mut p: Plan, s: u8, t: u8, d: u64) -> Plan
    requires { Fits p × (p.edges < 256) × (s < p.members) × (t < p.members) }
    ensures { Built result p.members (p.edges + 1) }
{
    let at = p.edges;
    p.routes[at] = at as u64 + 1;
    p.sources[at] = s;
    p.targets[at] = t;
    p.delays[at] = d;
    p.edges = at + 1;
    p
}

// A delay, `far`, or `-` where there is no path.
fn show_entry(rt: &impl Print, m: &Matrix, s: usize, t: usize) -> io::Result<()>
    requires { (s < 32) × (t < 32) }
{
    match m.reach(s, t) {
        Reach::At(d) => print!(rt; " {d}"),
        Reach::TooFar => print!(rt; " far"),
        Reach::None => print!(rt; " -"),
    }
}

// A row for each source.
fn show_matrix(rt: &impl Print, m: &Matrix, n: usize) -> io::Result<()>
    requires { n ≤ 32 }
{
    for s in 0..n {
        for t in 0..n {
            show_entry(rt, m, s, t)?;
        }
        println!(rt;)?;
    }
    Ok(())
}

// The refusal's number and what it gives, 0 where there is none.
fn show_refusal(rt: &impl Print, judged: Result<(), Refusal>) -> io::Result<()> {
    match judged {
        Ok(()) => println!(rt; "refusal 0 mask 0 ids 0 0"),
        Err(r) => {
            let (number, mask) = (r.number(), r.mask());
            let (first, second) = (r.first(), r.second());
            println!(rt; "refusal {number} mask {mask} ids {first} {second}")
        }
    }
}

// The plan analysed and shown.
fn show(rt: &impl Print, name: &str, p: Plan) -> io::Result<()>
    requires { Fits p }
{
    let mut directs = Matrix::new();
    let mut minima = Matrix::new();
    let judged = delays::analyse(p, &mut directs, &mut minima);
    print!(rt; "{name}: ")?;
    show_refusal(rt, judged)?;
    println!(rt; "direct")?;
    show_matrix(rt, &directs, p.members)?;
    println!(rt; "minimum")?;
    show_matrix(rt, &minima, p.members)
}

// Two edges of 2^63 in a row.
fn halves() -> Plan
    ensures { Built result 3 2 }
{
    with_edge(with_edge(blank(3), 0, 1, HALF), 1, 2, HALF)
}

// A direct edge of 9 beside a path of 2 and 3.
fn shorter() -> Plan
    ensures { Built result 3 3 }
{
    let p = with_edge(blank(3), 0, 2, 9);
    with_edge(with_edge(p, 0, 1, 2), 1, 2, 3)
}

// Two cycles of no delay: members 1 and 2, member 3 with itself; member 0 goes to both.
fn tangled() -> Plan
    ensures { Built result 4 5 }
{
    let p = with_edge(with_edge(blank(4), 0, 1, 0), 1, 2, 0);
    let q = with_edge(with_edge(p, 2, 1, 0), 3, 3, 0);
    with_edge(q, 0, 3, 0)
}

// A ring of 1, 2 and 3: each member has a minimum to itself.
fn ring() -> Plan
    ensures { Built result 3 3 }
{
    let p = with_edge(blank(3), 0, 1, 1);
    with_edge(with_edge(p, 1, 2, 2), 2, 0, 3)
}

fn main(rt: HostRuntime) -> io::Result<()> {
    let far = halves();
    show(&rt, "two halves", far)?;
    show(
        &rt,
        "two halves and the largest beside them",
        with_edge(far, 0, 2, LARGEST),
    )?;
    show(&rt, "nine beside two and three", shorter())?;
    show(&rt, "a zero self-loop", with_edge(blank(1), 0, 0, 0))?;
    show(&rt, "two zero cycles", tangled())?;
    show(&rt, "a ring", ring())?;
    show(&rt, "no members", blank(0))
}
