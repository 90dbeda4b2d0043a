// The classes of a filter's states, split round by round until no class has a conflicting pair.
#![tactic(auto)]

ghost use Rattle.std.specs.Prelude.{◌≡◌, ◌<◌, length};
ghost use Rattle.meaning.specs.Reach.{among, reached};
ghost use Rattle.meaning.specs.Classes.{groups};
ghost use Rattle.table.specs.Table.{look};
ghost use Rattle.rounds.specs.Rounds.{Reducible, Somebody, task_of, Settled};

use members::Classes;
use table::Row;

// The classes at the end, and how many there were at the beginning: one a colour.
#[derive(Drop)]
pub struct Ending {
    pub colours: usize,
    pub last: partition::Partition,
}

// Rounds until no class has a conflicting pair, of the states that `live` lists. The room for links is lent, and may hold anything.
fn settle(
    rows: &[Row],
    colours: &[u8; 256],
    live: &[u16],
    n: usize,
    next: &mut [u16; 256],
) -> Ending
    requires { Reducible rows.now colours.now n × Somebody live.now n
        × (length next.old ≡ 256) }
    ensures { Settled result (task_of (among live.now) groups rows.now
        colours.now n) }
{
    let mut p = partition::initial(colours, live);
    let distinct = members::count(&p.names, n); // counted here, so that the first classes need not be kept
    members::follow(&p.names, live, n, next);
    while let Some(c) = pairs::first_parted(
        Classes {
            rows,
            names: &p.names,
            next,
            n,
        },
        live,
    ) {
        p = p.split(rows, next, n, c);
        members::relink(&p.names, n, c, next);
    }
    Ending {
        colours: distinct,
        last: p,
    }
}

// The same of the states that the start can reach, which are listed once.
pub fn settled(rows: &[Row], colours: &[u8; 256], n: usize, start: usize) -> Ending
    requires { Reducible rows.now colours.now n × (start < n) }
    ensures { Settled result (task_of (reached (look rows.now) 64 n start) groups
        rows.now colours.now n) }
{
    // The walk is over before members are linked, so that its queue is lent the links' room.
    let mut next = arrays::filled(65535);
    let mut list = arrays::filled(65535);
    let count = reach::live(rows, n, start, &mut next, &mut list);
    settle(rows, colours, &list[..count], n, &mut next)
}
