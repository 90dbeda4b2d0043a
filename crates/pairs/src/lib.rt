// The search for a conflicting pair, and for the class that a round takes.
#![tactic(auto)]

ghost use Rattle.std.specs.Prelude.{◌≡◌, take};
ghost use Rattle.meaning.specs.ClassesLaws.{Named};
ghost use Rattle.members.specs.Members.{Heads, Seated};
ghost use Rattle.conflicts.specs.Conflicts.{clash};
ghost use Rattle.pairs.specs.Pairs.{found_of, Parted};

use members::Classes;

// A conflicting pair of the class named c, whose members follow each other from c on.
fn pair_in(classes: Classes, c: usize) -> Option<(usize, usize)>
    requires { Heads classes.names.now classes.n c }
    ensures { result
        ≡ found_of classes.entry.n (clash classes.entry.rows.now classes.entry.names.now) classes.entry.names.now c }
{
    let Classes {
        rows,
        names,
        next,
        n,
    } = classes;
    let mut found = None;
    let mut a = c;
    'search: while a < n {
        let mut b = usize::from(next[a]);
        while b < n {
            for y in sets::each(sets::shared(rows[a].labels, rows[b].labels)) {
                if names[table::target(rows, a, y)] != names[table::target(rows, b, y)] {
                    found = Some((a, b));
                    break 'search;
                }
            }
            b = usize::from(next[b]);
        }
        a = usize::from(next[a]);
    }
    found
}

// The class with the smallest name that has a conflicting pair. `live` lists the states that take part.
pub fn first_parted(classes: Classes, live: &[u16]) -> Option<usize>
    requires { Named classes.n (take classes.n classes.names.now)
        × Seated classes.names.now live.now classes.n }
    ensures { Parted classes.entry.n (clash classes.entry.rows.now classes.entry.names.now)
        classes.entry.names.now result }
{
    for state in live {
        let c = usize::from(*state);
        // A class is named by one of its members, so what is not its own name has no members to look at.
        if classes.names[c] == c as u16 {
            // That there is a pair is enough here: a round takes the class, and grouping judges every pair of it by itself.
            if pair_in(classes, c).is_some() {
                return Some(c);
            }
        }
    }
    None
}
