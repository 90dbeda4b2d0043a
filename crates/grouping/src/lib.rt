// The groups of a class: each member gets the smallest group that no earlier conflicting member has.
#![tactic(auto)]

ghost use Rattle.std.specs.Prelude.{◌≡◌, not, ◌≤◌, ◌<◌, length, replicate};
ghost use Rattle.sets.specs.Sets.{contains};
ghost use Rattle.conflicts.specs.Conflicts.{clash};
ghost use Rattle.members.specs.Members.{Heads};
ghost use Rattle.grouping.specs.Grouping.{Marking, Below, Marks, Grouped};

use members::Classes;
use sets::Four;

// Whether a group is not marked. From `top` on none is marked, which spares the look into the words for most.
fn unmarked(words: &[u64; 4], top: usize, group: usize) -> bool
    requires { Below words.now top × (group < 256) × (length words.now ≡ 4) }
    ensures { result ≡ not (contains words.now group) }
{
    if top <= group {
        return true;
    }
    !sets::holds(words[group / 64], group % 64)
}

// The groups of the members of class c before s that conflict with s.
fn mark(classes: Classes, groups: &[u8; 256], c: usize, s: usize) -> Four
    requires { Heads classes.names.now classes.n c
        × Marking classes.names.now groups.now classes.n c s }
    ensures { Marks (clash classes.entry.rows.now classes.entry.names.now)
        classes.entry.names.now groups.now c s result.words s }
{
    let mut words: [u64; 4] = [0; 4];
    let mut top: usize = 0;
    let mut t = c;
    while t < s {
        let group = usize::from(groups[t]);
        if unmarked(&words, top, group) {
            if conflicts::conflict(classes.rows, classes.names, t, s) {
                let w = group / 64;
                words[w] = sets::with(words[w], group % 64);
                top = top.max(group + 1);
            }
        }
        t = usize::from(classes.next[t]);
    }
    Four { words }
}

// The group of each member of class c, members taken in ascending order; other states keep 0.
pub fn group(classes: Classes, c: usize, into: &mut [u8; 256])
    requires { Heads classes.names.now classes.n c × (into.old ≡ replicate 256 0) }
    ensures { Grouped (clash classes.entry.rows.now classes.entry.names.now)
        classes.entry.names.now c into.new classes.entry.n }
{
    let mut s = c;
    while s < classes.n {
        let marks = mark(classes, into, c, s);
        into[s] = marks.smallest_missing() as u8;
        s = usize::from(classes.next[s]);
    }
}
