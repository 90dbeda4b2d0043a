// A file checked and put into a table in one pass over its edges, and the colours of its states.
#![tactic(auto)]

ghost use Rattle.std.specs.Prelude.{◌≡◌};
ghost use Rattle.layout.specs.Contents.{states_in};
ghost use Rattle.loading.specs.Loading.{Loadable, Loaded, Coloured};

use layout::{Profile, Reading};
use refusals::Refusal;
use table::Row;

// Checks a file and puts its edges into a table without edges: of an accepted file the table has every edge. The table is lent,
// so that a call has it on its stack once.
#[inline(always)]
pub fn load(p: Profile, rows: &mut [Row], file: &[u8]) -> Result<Reading, Refusal>
    requires { Loadable p file.now rows.old }
    ensures { Loaded p file.now result rows.old rows.new }
{
    let r = checking::headed(p, file)?;
    let n = r.states;
    let m = r.labels;
    let e = r.edges;
    let mut last = 0;
    for placed in layout::edge::each(p, file, layout::edges_begin(p, n), e) {
        edges::test(n, m, last, placed)?;
        let edge = layout::edge::bare(placed);
        table::put(rows, edge.source, edge.label, edge.target as u8);
        last = edges::rank(edge);
    }
    if let Some(colour) = p.fault {
        leaving::first(p, colour, file, n, e)?;
    }
    Ok(r)
}

// The colour of each of the n states of a file, one byte a state.
pub fn colours_of(p: Profile, file: &[u8], n: usize) -> [u8; 256]
    requires { n ≡ states_in p file.now }
    ensures { Coloured p file.now result }
{
    let mut hues = [0; 256]; // made here, and not by `filled`, whose array would be copied
    pen::get_run(file, layout::header_bits(p), p.colour, n, &mut hues);
    hues
}
