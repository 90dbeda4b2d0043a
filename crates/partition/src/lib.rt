// The classes of the states, as they travel from round to round: their beginning, and one split.
#![tactic(auto)]

ghost use Rattle.std.specs.Prelude.{◌≡◌, ℕ, ◌+◌, ◌<◌, ◌≤◌, length};
ghost use Rattle.meaning.specs.Search.{tab, at};
ghost use Rattle.meaning.specs.Reach.{among};
ghost use Rattle.meaning.specs.Classes.{groups};
ghost use Rattle.conflicts.specs.Conflicts.{clash};
ghost use Rattle.reach.specs.Walking.{Rises};
ghost use Rattle.members.specs.Members.{Heads, Searched};
ghost use Rattle.partition.specs.Partition.{twin, beginning, rounded, Holds};

use members::Classes;
use table::Row;

// The name of each state's class, its smallest state, 65,535 for a state in none; and the rounds made.
#[derive(Drop)]
pub struct Partition {
    pub names: [u16; 256],
    pub rounds: u16,
}

// The smallest state that takes part and has the colour of the state that the list has at place j.
fn first_like(colours: &[u8; 256], live: &[u16], j: usize) -> u16
    requires { (j < length live.now) × Rises 256 live.now × (length colours.now ≡ 256) }
    ensures { (n : ℕ) → Rises n live.now
        → result ≡ twin (among live.now) colours.now n (at live.now j) }
{
    let colour = colours[usize::from(live[j])];
    for state in &live[..j] {
        if colours[usize::from(*state)] == colour {
            return *state;
        }
    }
    live[j]
}

// All states of one colour that take part form one class; `live` lists those that do. The others are in none.
pub fn initial(colours: &[u8; 256], live: &[u16]) -> Partition
    requires { Rises 256 live.now × (length colours.now ≡ 256) }
    ensures { (n : ℕ) → n ≤ 256 → Rises n live.now
        → Holds result n (tab n (beginning (among live.now) colours.now n)) 0 }
{
    let mut names = [65535; 256];
    for (j, state) in live.iter().enumerate() {
        names[usize::from(*state)] = first_like(colours, live, j);
    }
    Partition { names, rounds: 0 }
}

impl Partition {
    // Class c is split: each of its groups becomes a class, named by its first member.
    pub fn split(self, rows: &[Row], next: &[u16; 256], n: usize, c: usize) -> Partition
        requires { Searched rows.now self.names next.now n × Heads self.names n c
            × (self.rounds < 65535) }
        ensures { Holds result n
            (rounded groups n (clash rows.now self.names) self.names c)
            (self.rounds + 1) }
    {
        let mut names = self.names;
        let rounds = self.rounds;
        let mut groups = arrays::filled(0);
        let classes = Classes {
            rows,
            names: &names,
            next,
            n,
        };
        grouping::group(classes, c, &mut groups);
        // by group: its first member, 255 until there is one. No state comes behind 255, so that it may stand for both.
        let mut firsts = arrays::filled(255);
        let mut s = c;
        while s < n {
            let g = usize::from(groups[s]);
            if firsts[g] == 255 {
                firsts[g] = s as u8;
            }
            names[s] = u16::from(firsts[g]);
            s = usize::from(next[s]);
        }
        Partition {
            names,
            rounds: rounds + 1,
        }
    }
}
