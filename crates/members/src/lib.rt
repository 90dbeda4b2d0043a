// Who follows whom in a class, and how many classes there are.
#![tactic(auto)]

mod classes; // the classes, looked at

ghost use Rattle.std.specs.Prelude.{◌≡◌, ◌≤◌, length};
ghost use Rattle.meaning.specs.Classes.{classes};
ghost use Rattle.members.specs.Members.{Linkable, Relinkable, Linked};

pub use classes::Classes;

// For each state that takes part the next one behind it in its class; n where there is none. `live` lists these states.
pub fn follow(names: &[u16; 256], live: &[u16], n: usize, next: &mut [u16; 256])
    requires { Linkable names.now live.now next.old n }
    ensures { Linked names.now n next.new }
{
    let mut nearest = arrays::filled(n as u16); // by name: the first of the members that are linked already
    for state in live.iter().rev() {
        let s = usize::from(*state);
        let c = usize::from(names[s]);
        next[s] = nearest[c];
        nearest[c] = s as u16;
    }
}

// The links of class c made anew after it was split. Its members still follow each other from c on as they did before; each is
// linked to the next one that has its new name. The links of other classes stay.
pub fn relink(names: &[u16; 256], n: usize, c: usize, next: &mut [u16; 256])
    requires { Relinkable names.now next.old n c }
    ensures { Linked names.now n next.new }
{
    let mut latest = arrays::filled(65535); // by name: the last of the members that are linked already, 65,535 where there is none
    let mut s = c;
    while s < n {
        let behind = usize::from(next[s]);
        let d = usize::from(names[s]);
        let before = latest[d];
        if before != 65535 {
            next[usize::from(before)] = s as u16;
        }
        latest[d] = s as u16;
        next[s] = n as u16;
        s = behind;
    }
}

// How many classes there are.
pub fn count(names: &[u16; 256], n: usize) -> usize
    requires { (n ≤ 256) × (length names.now ≡ 256) }
    ensures { (result ≡ classes n names.now) × (result ≤ n) }
{
    let mut k = 0;
    for s in 0..n {
        if names[s] == s as u16 {
            k += 1;
        }
    }
    k
}
