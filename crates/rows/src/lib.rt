// The compiled plan, read by rows: each reader answers one field, by plain offsets. The bytes are laid out as a compiled
// plan (`Laid`); positions and rows are those that exist.
#![tactic(auto)]

ghost use Rattle.std.specs.Prelude.{◌≡◌, ◌+◌, ◌*◌, ◌<◌, ◌≤◌, length};
ghost use Rattle.basis.specs.Numbers.{number_at};
ghost use Rattle.rows.specs.Rows.{header_size, member_size, edge_size, source_size, target_size, field, Laid, Edged, members, edges, directs, transitives, downstreams, edges_at, directs_at, transitives_at, downstreams_at, member_id, capacity, direct_first, direct_count, transitive_first, transitive_count, downstream_first, downstream_count, member_zero, edge_id, edge_source, edge_target, edge_delay, direct_source, direct_zero, direct_delay, transitive_source, transitive_zero, transitive_delay, downstream_target};

// The size of the header and of a row of each table.
pub const HEADER: usize = 48;

pub const MEMBER: usize = 40;

pub const EDGE: usize = 24;

pub const SOURCE: usize = 16;

pub const TARGET: usize = 4;

// The u32 at a place of the bytes.
pub fn number(plan: &[u8], at: usize) -> usize
    requires { at + 4 ≤ length plan.now }
    ensures { result ≡ number_at 4 at plan.now }
{
    basis::read_u32(plan, at) as usize
}

// The u32 at an offset of row k of the table at `place`, whose rows have SIZE bytes.
#[tactic(auto, unfolding(crate::specs::Rows::field))]
pub fn field<const SIZE: usize>(plan: &[u8], place: usize, k: usize, offset: usize) -> usize
    requires { place + SIZE * k + offset + 4 ≤ length plan.now }
    ensures { result ≡ field 4 place SIZE offset k plan.now }
{
    number(plan, place + SIZE * k + offset)
}

// The u64 at an offset of row k of such a table.
#[tactic(auto, unfolding(crate::specs::Rows::field))]
pub fn wide_field<const SIZE: usize>(plan: &[u8], place: usize, k: usize, offset: usize) -> u64
    requires { place + SIZE * k + offset + 8 ≤ length plan.now }
    ensures { result ≡ field 8 place SIZE offset k plan.now }
{
    basis::read_u64(plan, place + SIZE * k + offset)
}

// The readers below stay one a field, since their names are the fields: each is one call of a reader above, and a place and
// an offset as parameters would be no plainer.

// How many members the plan has.
pub fn members(plan: &[u8]) -> usize
    requires { Laid plan.now }
    ensures { result ≡ members plan.now }
{
    number(plan, 4)
}

// How many edges the plan has.
pub fn edges(plan: &[u8]) -> usize
    requires { Laid plan.now }
    ensures { result ≡ edges plan.now }
{
    number(plan, 8)
}

// How many tags may be in transit to member i.
pub fn capacity(plan: &[u8], i: usize) -> usize
    requires { Laid plan.now × (i < members plan.now) }
    ensures { result ≡ capacity plan.now i }
{
    field::<MEMBER>(plan, HEADER, i, 8)
}

// The first direct row of member i.
pub fn direct_first(plan: &[u8], i: usize) -> usize
    requires { Laid plan.now × (i < members plan.now) }
    ensures { result ≡ direct_first plan.now i }
{
    field::<MEMBER>(plan, HEADER, i, 12)
}

// How many direct rows member i has.
pub fn direct_count(plan: &[u8], i: usize) -> usize
    requires { Laid plan.now × (i < members plan.now) }
    ensures { result ≡ direct_count plan.now i }
{
    field::<MEMBER>(plan, HEADER, i, 16)
}

// The first transitive row of member i.
pub fn transitive_first(plan: &[u8], i: usize) -> usize
    requires { Laid plan.now × (i < members plan.now) }
    ensures { result ≡ transitive_first plan.now i }
{
    field::<MEMBER>(plan, HEADER, i, 20)
}

// How many transitive rows member i has.
pub fn transitive_count(plan: &[u8], i: usize) -> usize
    requires { Laid plan.now × (i < members plan.now) }
    ensures { result ≡ transitive_count plan.now i }
{
    field::<MEMBER>(plan, HEADER, i, 24)
}

// The first downstream row of member i.
pub fn downstream_first(plan: &[u8], i: usize) -> usize
    requires { Laid plan.now × (i < members plan.now) }
    ensures { result ≡ downstream_first plan.now i }
{
    field::<MEMBER>(plan, HEADER, i, 28)
}

// How many downstream rows member i has.
pub fn downstream_count(plan: &[u8], i: usize) -> usize
    requires { Laid plan.now × (i < members plan.now) }
    ensures { result ≡ downstream_count plan.now i }
{
    field::<MEMBER>(plan, HEADER, i, 32)
}

// The id of edge k.
pub fn edge_id(plan: &[u8], k: usize) -> u64
    requires { Edged plan.now × (k < edges plan.now) }
    ensures { result ≡ edge_id plan.now k }
{
    wide_field::<EDGE>(plan, number(plan, 28), k, 0)
}

// The source of edge k.
pub fn edge_source(plan: &[u8], k: usize) -> usize
    requires { Edged plan.now × (k < edges plan.now) }
    ensures { result ≡ edge_source plan.now k }
{
    field::<EDGE>(plan, number(plan, 28), k, 8)
}

// The target of edge k.
pub fn edge_target(plan: &[u8], k: usize) -> usize
    requires { Edged plan.now × (k < edges plan.now) }
    ensures { result ≡ edge_target plan.now k }
{
    field::<EDGE>(plan, number(plan, 28), k, 12)
}

// The delay of edge k.
pub fn edge_delay(plan: &[u8], k: usize) -> u64
    requires { Edged plan.now × (k < edges plan.now) }
    ensures { result ≡ edge_delay plan.now k }
{
    wide_field::<EDGE>(plan, number(plan, 28), k, 16)
}

// The source of direct row k.
pub fn direct_source(plan: &[u8], k: usize) -> usize
    requires { Laid plan.now × (k < directs plan.now) }
    ensures { result ≡ direct_source plan.now k }
{
    field::<SOURCE>(plan, number(plan, 32), k, 0)
}

// The delay of direct row k.
pub fn direct_delay(plan: &[u8], k: usize) -> u64
    requires { Laid plan.now × (k < directs plan.now) }
    ensures { result ≡ direct_delay plan.now k }
{
    wide_field::<SOURCE>(plan, number(plan, 32), k, 8)
}

// The source of transitive row k.
pub fn transitive_source(plan: &[u8], k: usize) -> usize
    requires { Laid plan.now × (k < transitives plan.now) }
    ensures { result ≡ transitive_source plan.now k }
{
    field::<SOURCE>(plan, number(plan, 36), k, 0)
}

// The delay of transitive row k.
pub fn transitive_delay(plan: &[u8], k: usize) -> u64
    requires { Laid plan.now × (k < transitives plan.now) }
    ensures { result ≡ transitive_delay plan.now k }
{
    wide_field::<SOURCE>(plan, number(plan, 36), k, 8)
}

// The member that downstream row k names.
pub fn downstream(plan: &[u8], k: usize) -> usize
    requires { Laid plan.now × (k < downstreams plan.now) }
    ensures { result ≡ downstream_target plan.now k }
{
    field::<TARGET>(plan, number(plan, 40), k, 0)
}
