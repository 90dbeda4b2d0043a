// The classes of the states, as a search reads them.
ghost use Rattle.members.specs.Members.{Searched};

use table::Row;

// The classes of n states, looked at: each state's edges, the name of its class, and the next state in it. Links are made anew from
// round to round, and so they are lent for a time of their own.
#[derive(Clone, Copy)]
pub struct Classes<'a, 'b> {
    pub rows: &'a [Row],
    pub names: &'a [u16; 256],
    pub next: &'b [u16; 256],
    pub n: usize,
    pub ghost searched: { Searched rows.now names.now next.now n },
}
