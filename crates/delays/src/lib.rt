// Delays between the members of a plan: direct, and minimum over all paths of one or more edges; refusals 8 and 9.
#![tactic(auto)]

ghost use Rattle.std.specs.Prelude.{◌≡◌, ◌+◌, ◌*◌, ◌<◌, ◌≤◌, min, max, get_or, eqb, ltb, replicate, slice_set};
ghost use Rattle.plans.specs.Values.{Fits};
ghost use Rattle.plans.specs.Numbers.{reason};
ghost use Rattle.delays.specs.Graph.{far, plus, reach_of, direct_of, minimum_of};
ghost use Rattle.delays.specs.Cells.{cell, dist_of, kind_of, word_of, entry, grid, Rowed, Rounded, Closed, Held, Offered, Spread};
ghost use Rattle.delays.specs.Search.{Finds};
ghost use Rattle.delays.specs.Refusals.{first_loop, linked_by, component_of, far_target, cycle_of, far_of, judged, Analysed};

use plans::{Plan, Refusal};

// Entries of a row, and of a matrix.
const ROW: usize = 32;

const ENTRIES: usize = 1024;

// What is known of a pair, the nearest first: the least delay, that it is past the largest number, or that there is no
// path. It has three cases, so it is no Option.
#[derive(Clone, Copy, Debug, PartialEq, Eq, PartialOrd, Ord)]
pub enum Reach {
    At(u64),
    TooFar,
    None,
}

impl Reach {
    // The kind byte and the word by which a matrix holds it.
    fn written(self) -> (u8, u64)
        ensures kind { result.0 ≡ kind_of (dist_of self) }
        ensures word { result.1 ≡ word_of (dist_of self) }
        ensures back { cell result.0 result.1 ≡ dist_of self }
    {
        match self {
            Reach::At(d) => (0, d),
            Reach::TooFar => (1, 0),
            Reach::None => (2, 0),
        }
    }
}

// One after the other.
pub fn sum(a: Reach, b: Reach) -> Reach
    ensures { dist_of result ≡ plus (dist_of a) (dist_of b) }
{
    match (a, b) {
        (Reach::At(x), Reach::At(y)) => match x.checked_add(y) {
            Some(d) => Reach::At(d),
            None => Reach::TooFar,
        },
        _ => farther(a, b),
    }
}

// The nearer of the two.
pub fn lesser(a: Reach, b: Reach) -> Reach
    ensures { dist_of result ≡ min (dist_of a) (dist_of b) }
{
    a.min(b)
}

// Whether a is nearer than b.
fn nearer(a: Reach, b: Reach) -> bool
    ensures { result ≡ ltb (dist_of a) (dist_of b) }
{
    a < b
}

// The farther of the two.
fn farther(a: Reach, b: Reach) -> Reach
    ensures { dist_of result ≡ max (dist_of a) (dist_of b) }
{
    a.max(b)
}

// A delay for each pair of members, 32 entries to a row: a kind byte, and a word. Kind 0 is the word, 1 too far, anything
// else no path. Two arrays and not one of `Reach`: what may not change is that `Held` fixes every byte and word.
#[derive(Clone, Copy)]
pub struct Matrix {
    pub kinds: [u8; 1024],
    pub values: [u64; 1024],
}

impl Matrix {
    // No paths.
    pub fn new() -> Matrix
        ensures kinds { result.kinds ≡ replicate 1024 2 }
        ensures values { result.values ≡ replicate 1024 0 }
    {
        Matrix {
            kinds: [2; ENTRIES],
            values: [0; ENTRIES],
        }
    }

    // Entry p.
    pub fn get(&self, p: usize) -> Reach
        requires { p < 1024 }
        ensures view { result ≡ reach_of (entry self.now.kinds self.now.values p) }
        ensures number { dist_of result ≡ entry self.now.kinds self.now.values p }
    {
        match self.kinds[p] {
            0 => Reach::At(self.values[p]),
            1 => Reach::TooFar,
            _ => Reach::None,
        }
    }

    // Entry p becomes r.
    pub fn set(&mut self, p: usize, r: Reach)
        requires { p < 1024 }
        ensures kinds { self.new.kinds ≡ slice_set self.old.kinds p (kind_of (dist_of r)) }
        ensures values { self.new.values ≡ slice_set self.old.values p (word_of (dist_of r)) }
        ensures number { entry self.new.kinds self.new.values p ≡ dist_of r }
    {
        let (kind, word) = r.written();
        self.kinds[p] = kind;
        self.values[p] = word;
    }

    // Entry p is made the least of itself and r.
    pub fn offer(&mut self, p: usize, r: Reach)
        requires { p < 1024 }
        ensures { Offered self.old.kinds self.old.values self.new.kinds self.new.values p (dist_of r) }
    {
        if nearer(r, self.get(p)) {
            self.set(p, r);
        }
    }

    // Row s of a round: its n entries may now go by member k.
    fn row(&mut self, n: usize, k: usize, s: usize)
        requires { (n ≤ 32) × (k < n) × (s < n) }
        ensures { Rowed self.old.kinds self.old.values self.new.kinds self.new.values k s n }
    {
        let way = self.get(s * ROW + k);
        if let Reach::None = way {
            return;
        }
        for t in 0..n {
            self.offer(s * ROW + t, sum(way, self.get(k * ROW + t)));
        }
    }

    // One round: every entry between n members may now go by member k.
    fn round(&mut self, n: usize, k: usize)
        requires { (n ≤ 32) × (k < n) }
        ensures { Rounded self.old.kinds self.old.values self.new.kinds self.new.values k n n }
    {
        for s in 0..n {
            self.row(n, k, s);
        }
    }

    // Every round: the least over all walks between n members, of the matrix at entry.
    fn close(&mut self, n: usize)
        requires { n ≤ 32 }
        ensures { Closed self.old.kinds self.old.values self.new.kinds self.new.values n n }
    {
        for k in 0..n {
            self.round(n, k);
        }
    }

    // The plan's edge i is offered to its pair.
    fn offer_edge(&mut self, p: &Plan, i: usize)
        requires { Fits p.now × (i < p.now.edges) }
        ensures { Offered self.old.kinds self.old.values self.new.kinds self.new.values (get_or p.now.sources i 0 * 32 + get_or p.now.targets i 0) (get_or p.now.delays i 0) }
    {
        self.offer(
            usize::from(p.sources[i]) * ROW + usize::from(p.targets[i]),
            Reach::At(p.delays[i]),
        );
    }

    // No paths, and then the least delay of the plan's edges, for every pair.
    fn spread(&mut self, p: &Plan)
        requires { Fits p.now }
        ensures { Spread p.now.sources p.now.targets p.now.delays p.now.edges self.new.kinds self.new.values }
    {
        self.kinds = [2; ENTRIES];
        self.values = [0; ENTRIES];
        for i in 0..p.edges {
            self.offer_edge(p, i);
        }
    }

    // What it says of a pair.
    pub fn reach(&self, s: usize, t: usize) -> Reach
        requires { (s < 32) × (t < 32) }
        ensures { result ≡ reach_of (grid self.now.kinds self.now.values s t) }
    {
        self.get(s * ROW + t)
    }

    // Whether the pair has a delay of 0.
    pub fn no_delay(&self, s: usize, t: usize) -> bool
        requires { (s < 32) × (t < 32) }
        ensures { result ≡ eqb (grid self.now.kinds self.now.values s t) 0 }
    {
        match self.reach(s, t) {
            Reach::At(d) => d == 0,
            _ => false,
        }
    }

    // Whether the pair is too far apart.
    fn too_far(&self, s: usize, t: usize) -> bool
        requires { (s < 32) × (t < 32) }
        ensures { result ≡ eqb (grid self.now.kinds self.now.values s t) far }
    {
        matches!(self.reach(s, t), Reach::TooFar)
    }

    // The first of n members with a minimum of 0 to itself.
    pub fn first_loop(&self, n: usize) -> Option<usize>
        requires { n ≤ 32 }
        ensures { Finds n (first_loop (grid self.now.kinds self.now.values) n) result }
    {
        (0..n).find(|i| self.no_delay(*i, *i))
    }

    // Whether i and j have a minimum of 0 each to the other.
    pub fn linked(&self, i: usize, j: usize) -> bool
        requires { (i < 32) × (j < 32) }
        ensures { result ≡ linked_by (grid self.now.kinds self.now.values) i j }
    {
        self.no_delay(i, j) && self.no_delay(j, i)
    }

    // The mask of the n members that are linked with i.
    pub fn component(&self, n: usize, i: usize) -> u64
        requires { (n ≤ 32) × (i < 32) }
        ensures { result ≡ component_of (grid self.now.kinds self.now.values) n i }
    {
        let mut mask = 0;
        for j in 0..n {
            if self.linked(i, j) {
                mask += 1 << j;
            }
        }
        mask
    }

    // The first of n members whose minimum from s is too far.
    fn far_target(&self, n: usize, s: usize) -> Option<usize>
        requires { (n ≤ 32) × (s < 32) }
        ensures { Finds n (far_target (grid self.now.kinds self.now.values) n s) result }
    {
        (0..n).find(|t| self.too_far(s, *t))
    }

    // Refusal 8 of a matrix of minimum delays, with the mask of the component.
    pub fn cycle_refusal(&self, n: usize) -> Result<(), Refusal>
        requires { n ≤ 32 }
        ensures { reason result ≡ cycle_of (grid self.now.kinds self.now.values) n }
    {
        match self.first_loop(n) {
            Some(i) => Err(Refusal::ZeroCycle(self.component(n, i))),
            None => Ok(()),
        }
    }

    // Refusal 9 of a matrix of minimum delays, with the ids of the first source and its first target.
    pub fn far_refusal(&self, ids: &[u64; 32], n: usize) -> Result<(), Refusal>
        requires { n ≤ 32 }
        ensures { reason result ≡ far_of (grid self.now.kinds self.now.values) ids.now n }
    {
        for s in 0..n {
            if let Some(t) = self.far_target(n, s) {
                return Err(Refusal::TooFar(ids[s], ids[t]));
            }
        }
        Ok(())
    }

    // The first of both refusals.
    pub fn judge(&self, ids: &[u64; 32], n: usize) -> Result<(), Refusal>
        requires { n ≤ 32 }
        ensures { reason result ≡ judged (grid self.now.kinds self.now.values) ids.now n }
    {
        self.cycle_refusal(n)?;
        self.far_refusal(ids, n)
    }
}

// The direct delays of the plan's pairs.
pub fn direct_delays(p: Plan, directs: &mut Matrix)
    requires { Fits p }
    ensures { Held directs.new.kinds directs.new.values (direct_of p) }
{
    directs.spread(&p);
}

// The minimum delays of the plan's pairs, over all paths of one or more edges.
pub fn minimum_delays(p: Plan, minima: &mut Matrix)
    requires { Fits p }
    ensures { Held minima.new.kinds minima.new.values (minimum_of p) }
{
    minima.spread(&p);
    minima.close(p.members);
}

// Refusal 8 or 9 of the plan; and its direct and its minimum delays, each in a matrix, on Err too.
pub fn analyse(p: Plan, directs: &mut Matrix, minima: &mut Matrix) -> Result<(), Refusal>
    requires { Fits p }
    ensures { Analysed p (reason result) directs.new.kinds directs.new.values minima.new.kinds minima.new.values }
{
    direct_delays(p, directs);
    minimum_delays(p, minima);
    minima.judge(&p.ids, p.members)
}
