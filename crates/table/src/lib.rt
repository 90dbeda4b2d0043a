// Edges looked up by state and label: a row for each state, with the set of the labels that it has and 64 targets of a byte. Only
// the sets are looked at for whether there is an edge, so that a fresh row's targets may be anything. They are 0, so that a table is
// cleared in one go.
#![tactic(auto)]

ghost use Rattle.std.specs.Prelude.{◌≡◌, ◌+◌, ◌<◌, length, map, replicate};
ghost use Rattle.meaning.specs.Search.{at};
ghost use Rattle.table.specs.Table.{Rows, row, blank, marked, Put, Gave};

// The edges of one state.
#[derive(Clone, Copy)]
pub struct Row {
    pub labels: u64,
    pub targets: [u8; 64],
}

// A table without edges for N states: a small filter is not to wait until a large table is cleared.
pub fn empty<const N: usize>() -> [Row; N]
    ensures { (result ≡ replicate N blank) × (length result ≡ N) }
{
    [Row {
        labels: 0,
        targets: [0; 64],
    }; N]
}

// Sets all targets of a table without edges to 255, which few filters have as a state: code that forgets to ask the sets then goes
// wrong where it is seen, and is not right by chance where state 0 would be.
pub fn mark_missing(rows: &mut [Row])
    ensures { rows.new ≡ map marked rows.old }
{
    for row in rows.iter_mut() {
        row.targets = [255; 64];
    }
}

// The target of a state at a label.
pub fn target(rows: &[Row], state: usize, label: usize) -> usize
    requires { (label < 64) × Rows rows.now (state + 1) }
    ensures { (result ≡ at (row rows.now state).targets label) × (result < 256) }
{
    usize::from(rows[state].targets[label])
}

// Puts an edge into the table.
pub fn put(rows: &mut [Row], state: usize, label: usize, target: u8)
    requires { (label < 64) × Rows rows.old (state + 1) }
    ensures { Put rows.old rows.new state label target }
{
    let row = &mut rows[state];
    row.targets[label] = target;
    row.labels = sets::with(row.labels, label);
}

// Gives state `to` the edges of another state at the labels where it has none itself.
pub fn give(rows: &mut [Row], from: usize, to: usize)
    requires fact { from ≡ to → ⊥ }
    requires rows { Rows rows.old (from + 1) × Rows rows.old (to + 1) }
    ensures { Gave rows.old rows.new from to }
{
    let other = rows[from];
    let own = &mut rows[to];
    for y in sets::each(sets::less(other.labels, own.labels)) {
        own.targets[y] = other.targets[y];
    }
    own.labels = sets::joined(own.labels, other.labels);
}
