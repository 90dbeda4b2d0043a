// Classes numbered 0 upward by ascending name: the new number of each state, and the name and the colour of each class.
#![tactic(auto)]

ghost use Rattle.std.specs.Prelude.{◌≡◌, ℕ, ◌<◌, ◌≤◌, length, take};
ghost use Rattle.meaning.specs.Search.{tab, at};
ghost use Rattle.meaning.specs.Classes.{classes};
ghost use Rattle.meaning.specs.Reduced.{name_of};
ghost use Rattle.refusals.specs.Refusals.{laid};
ghost use Rattle.numbering.specs.Names.{Names, new_number};

// Numbers the classes 0 upward by ascending name, writes the new number of each state and the name of each class, and answers how
// many classes there are. A dropped state, which is in no class, gets 65,535.
pub fn numbered(names: &[u16; 256], n: usize, list: &mut [u16], order: &mut [u16]) -> usize
    requires { Names n names.now × (n ≤ length list.old) × (n ≤ length order.old) }
    ensures list { list.new ≡ laid (tab n (new_number (take n names.now))) list.old }
    ensures count { result ≡ classes n (take n names.now) }
    ensures names { order.new
        ≡ laid (tab (classes n (take n names.now)) (name_of n (take n names.now))) order.old }
{
    let mut k: usize = 0;
    for s in 0..n {
        let name = names[s];
        if name == s as u16 {
            order[k] = name;
            list[s] = k as u16;
            k += 1;
        } else if name == 65535 {
            list[s] = name;
        } else {
            list[s] = list[usize::from(name)];
        }
    }
    k
}

// Writes the colour of each class: that of the state that names it.
pub fn colours_by(colours: &[u8; 256], order: &[u16], hues: &mut [u8])
    requires order_in_bounds { (length order.now ≤ length hues.old) × (length colours.now ≡ 256) }
    requires by_index { (k : ℕ) → k < length order.now → at order.now k < 256 }
    ensures { hues.new ≡ laid (tab (length order.now)
        (λ k. at colours.now (at order.now k))) hues.old }
{
    for (k, state) in order.iter().enumerate() {
        hues[k] = colours[usize::from(*state)];
    }
}
