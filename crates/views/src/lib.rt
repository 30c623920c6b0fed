// A view over the loaded compiled plan: its bytes and its counts, with readers of its direct, transitive and downstream rows.
// Each reader calls a function on plain offsets.
#![tactic(auto)]

ghost use Rattle.std.specs.Prelude.{◌≡◌, ◌<◌};
ghost use Rattle.rows.specs.Rows.{Laid, directs, transitives, downstreams, downstream_target};
ghost use Rattle.views.specs.Views.{counts_of, view_of, direct_row, transitive_row, Shows};

// How many members, edges and rows a compiled plan has.
#[derive(Clone, Copy)]
pub struct Counts {
    pub members: usize,
    pub edges: usize,
    pub directs: usize,
    pub transitives: usize,
    pub downstreams: usize,
}

// A direct or transitive row: the position of a source, and the delay from it.
#[derive(Clone, Copy)]
pub struct Row {
    pub source: usize,
    pub delay: u64,
}

// A compiled plan that is loaded.
#[derive(Clone, Copy)]
pub struct View<'a> {
    pub plan: &'a [u8],
    pub counts: Counts,
}

// The counts that the plan's header gives.
pub fn counted(plan: &[u8]) -> Counts
    requires { Laid plan.now }
    ensures { result ≡ counts_of plan.now }
{
    Counts {
        members: rows::members(plan),
        edges: rows::edges(plan),
        directs: rows::number(plan, 12),
        transitives: rows::number(plan, 16),
        downstreams: rows::number(plan, 20),
    }
}

// Direct row k, by plain offsets. One function a table, as the readers of rows have one a field: a flag would be no plainer.
pub fn direct_row(plan: &[u8], k: usize) -> Row
    requires { Laid plan.now × (k < directs plan.now) }
    ensures { result ≡ direct_row plan.now k }
{
    Row {
        source: rows::direct_source(plan, k),
        delay: rows::direct_delay(plan, k),
    }
}

// Transitive row k, by plain offsets.
pub fn transitive_row(plan: &[u8], k: usize) -> Row
    requires { Laid plan.now × (k < transitives plan.now) }
    ensures { result ≡ transitive_row plan.now k }
{
    Row {
        source: rows::transitive_source(plan, k),
        delay: rows::transitive_delay(plan, k),
    }
}

impl<'a> View<'a> {
    // The view over a plan.
    pub fn new(plan: &'a [u8]) -> View<'a>
        requires { Laid plan.now }
        ensures { result ≡ view_of plan.entry }
    {
        View {
            plan,
            counts: counted(plan),
        }
    }

    // Direct row k.
    pub fn direct(self, k: usize) -> Row
        requires { Shows self × (k < self.counts.directs) }
        ensures { result ≡ direct_row self.entry.plan.now k }
    {
        direct_row(self.plan, k)
    }

    // Transitive row k.
    pub fn transitive(self, k: usize) -> Row
        requires { Shows self × (k < self.counts.transitives) }
        ensures { result ≡ transitive_row self.entry.plan.now k }
    {
        transitive_row(self.plan, k)
    }

    // The member that downstream row k names.
    pub fn downstream(self, k: usize) -> usize
        requires { Shows self × (k < self.counts.downstreams) }
        ensures { result ≡ downstream_target self.entry.plan.now k }
    {
        rows::downstream(self.plan, k)
    }
}

// The member that downstream row k of a plan names, by a view over the plan: whoever calls this needs no view.
pub fn downstream(plan: &[u8], k: usize) -> usize
    requires { Laid plan.now × (k < downstreams plan.now) }
    ensures { result ≡ downstream_target plan.now k }
{
    View::new(plan).downstream(k)
}
