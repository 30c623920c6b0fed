// The tables of rows, compared with what the plan says.
ghost use Rattle.std.specs.Prelude.{◌≡◌, Bool, true, List, ℕ, ◌+◌, ◌*◌, ◌<◌, ◌≤◌, length};
ghost use Rattle.delays.specs.Graph.{direct};
ghost use Rattle.delays.specs.Lists.{passing, direct_sources};
ghost use Rattle.delays.specs.Cells.{grid};
ghost use Rattle.rows.specs.Rows.{members, edges, directs, directs_at, field, edge_source, edge_target, edge_delay, direct_first, direct_count};
ghost use Rattle.rows.specs.Plans.{plan_in};
ghost use Rattle.image.specs.Image.{laid, source_row, target_row};
ghost use Rattle.recognised.specs.Cells.{Tells, Blank, Lowered, Covers};
ghost use Rattle.recognised.specs.Sits.{Sits};
ghost use Rattle.recognised.specs.Walks.{source_of, near, onward, Whole};
ghost use Rattle.recognised.specs.Facts.{Header, Routed, Rowed, Tabled, Listed};
ghost use Rattle.image.proofs.Rows.{length-source, length-target};

use crate::pairs::{ROW, lower};
use delays::{Matrix, Reach};
use rows::{HEADER, MEMBER, SOURCE, TARGET};

// What a table lists for each member, by a matrix of delays: which positions, and the row of each.
pub trait Listing {
    ghost size: { ℕ };

    // whether member t's list has x, and x's row in it
    ghost listed: { (ℕ → ℕ → ℕ) → ℕ → ℕ → Bool };

    ghost bytes: { (ℕ → ℕ → ℕ) → ℕ → ℕ → List ℕ };

    ghost wide: { (g : ℕ → ℕ → ℕ) (t x : ℕ) → length (bytes g t x) ≡ size };

    fn lists(m: &Matrix, t: usize, x: usize) -> bool
        requires { (t < 32) × (x < 32) }
        ensures { result ≡ listed (grid m.now.kinds m.now.values) t x };

    // Whether x's row stands as row k of the table at `place`.
    fn stands(plan: &[u8], place: usize, k: usize, m: &Matrix, t: usize, x: usize) -> bool
        requires { (place + size * k + size ≤ length plan.now) × (t < 32) × (x < 32) × (listed (grid m.now.kinds m.now.values) t x ≡ true) }
        ensures { Tells result (Sits plan.now (place + size * k) (bytes (grid m.now.kinds m.now.values) t x)) };
}

// The sources of a target, with their delays.
pub struct Sources;

impl Listing for Sources {
    ghost size = { 16 };

    ghost listed = { λ g t. near (λ s. g s t) };

    ghost bytes = { λ g t s. source_row (source_of (λ x. g x t) s) };

    ghost wide = { λ g t s. length-source (source_of (λ x. g x t) s) };

    fn lists(m: &Matrix, t: usize, s: usize) -> bool {
        matches!(m.get(s * ROW + t), Reach::At(_))
    }

    fn stands(plan: &[u8], place: usize, k: usize, m: &Matrix, t: usize, s: usize) -> bool {
        source_row(plan, place, k, s, m.values[s * ROW + t])
    }
}

// The members downstream of a source.
pub struct Targets;

impl Listing for Targets {
    ghost size = { 4 };

    ghost listed = { onward };

    ghost bytes = { λ g s. target_row };

    ghost wide = { λ g s. length-target };

    fn lists(m: &Matrix, s: usize, t: usize) -> bool {
        t != s && matches!(m.get(s * ROW + t), Reach::At(_))
    }

    fn stands(plan: &[u8], place: usize, k: usize, m: &Matrix, s: usize, t: usize) -> bool {
        rows::field::<TARGET>(plan, place, k, 0) == t
    }
}

// Whether the row at k is that of source s with delay d.
fn source_row(plan: &[u8], place: usize, k: usize, s: usize, d: u64) -> bool
    requires { (place + 16 * k + 16 ≤ length plan.now) × (s < 32) }
    ensures { Tells result (Sits plan.now (place + 16 * k) (source_row (record { source = s; delay = d }))) }
{
    rows::wide_field::<SOURCE>(plan, place, k, 0) == s as u64
        && rows::wide_field::<SOURCE>(plan, place, k, 8) == d
}

// Whether c rows from k on are those of member t's list, ascending.
fn list_right<L: Listing>(
    plan: &[u8],
    place: usize,
    k: usize,
    c: usize,
    m: &Matrix,
    t: usize,
    n: usize,
) -> bool
    requires { (t < 32) × (n ≤ 32) × (k + c ≤ 1024) × (place + L.size * (k + c) ≤ length plan.now) }
    ensures { Tells result (Whole plan.now (place + L.size * k) (L.bytes (grid m.now.kinds m.now.values) t) (L.listed (grid m.now.kinds m.now.values) t) n c) }
{
    let mut q: usize = 0;
    for x in 0..n {
        if L::lists(m, t, x) {
            if q == c || !L::stands(plan, place, k + q, m, t, x) {
                return false;
            }
            q += 1;
        }
    }
    q == c
}

// Whether member t's rows of a table start at k, number what they say and are those of its list; `offset` is that of
// "first" in a member row.
fn member_right<L: Listing>(
    plan: &[u8],
    place: usize,
    rows: usize,
    offset: usize,
    m: &Matrix,
    n: usize,
    t: usize,
    k: usize,
) -> bool
    requires { Header plan.now × (n ≡ members plan.now) × (t < n) × (offset ≤ 32) × (k ≤ rows) × (rows ≤ 1024) × (place + L.size * rows ≤ length plan.now) }
    ensures { Tells result (Rowed plan.now place L.size k (field 4 48 40 offset t plan.now) (field 4 48 40 (offset + 4) t plan.now) (laid (L.bytes (grid m.now.kinds m.now.values) t) (passing (L.listed (grid m.now.kinds m.now.values) t) n)) (length (passing (L.listed (grid m.now.kinds m.now.values) t) n)) × (k + field 4 48 40 (offset + 4) t plan.now ≤ rows)) }
{
    let first = rows::field::<MEMBER>(plan, HEADER, t, offset);
    let count = rows::field::<MEMBER>(plan, HEADER, t, offset + 4);
    first == k && count <= rows - k && list_right::<L>(plan, place, k, count, m, t, n)
}

// Whether a table is that of all members' lists.
pub fn table_right<L: Listing>(
    plan: &[u8],
    place: usize,
    rows: usize,
    offset: usize,
    m: &Matrix,
    n: usize,
) -> bool
    requires { Header plan.now × (n ≡ members plan.now) × (offset ≤ 32) × (rows ≤ 1024) × (place + L.size * rows ≤ length plan.now) }
    ensures { Tells result (Listed plan.now L.size L.bytes L.listed place rows offset (grid m.now.kinds m.now.values) n) }
{
    let mut k: usize = 0;
    for t in 0..n {
        if !member_right::<L>(plan, place, rows, offset, m, n, t, k) {
            return false;
        }
        k += rows::field::<MEMBER>(plan, HEADER, t, offset + 4);
    }
    k == rows
}

// Edge k is offered to its pair.
fn direct_edge(plan: &[u8], m: &mut Matrix, k: usize)
    requires { Routed plan.now × (k < edges plan.now) }
    ensures { Lowered m.old.kinds m.old.values m.new.kinds m.new.values (edge_source plan.now k * 32 + edge_target plan.now k) (edge_delay plan.now k) }
{
    let p = rows::edge_source(plan, k) * ROW + rows::edge_target(plan, k);
    lower(m, p, Reach::At(rows::edge_delay(plan, k)));
}

// The least delay of the edges of each pair, in a matrix without paths.
fn direct_delays(plan: &[u8], m: &mut Matrix, e: usize)
    requires { Routed plan.now × (e ≡ edges plan.now) × Blank m.old.kinds m.old.values }
    ensures { Covers m.new.kinds m.new.values 32 (direct (plan_in plan.now).sources (plan_in plan.now).targets (plan_in plan.now).delays e) }
{
    for k in 0..e {
        direct_edge(plan, m, k);
    }
}

// Whether the direct rows are those of the edges, worked out in a matrix without paths.
pub fn directs_right(plan: &[u8], m: &mut Matrix, n: usize, e: usize) -> bool
    requires { Routed plan.now × (n ≡ members plan.now) × (e ≡ edges plan.now) × Blank m.old.kinds m.old.values }
    ensures { Tells result (Tabled plan.now source_row (directs_at plan.now) 16 (directs plan.now) (direct_first plan.now) (direct_count plan.now) (direct_sources (plan_in plan.now)) n) }
{
    direct_delays(plan, m, e);
    table_right::<Sources>(
        plan,
        rows::number(plan, 32),
        rows::number(plan, 12),
        12,
        m,
        n,
    )
}
