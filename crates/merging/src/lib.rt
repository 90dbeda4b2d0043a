// The filter of classes: its edges gathered in the table, and written as a file.
#![tactic(auto)]

ghost use Rattle.std.specs.Prelude.{◌≡◌, ℕ, length, take};
ghost use Rattle.std.proofs.Math.Option.{none};
ghost use Rattle.meaning.specs.Search.{tab};
ghost use Rattle.meaning.specs.Classes.{classes};
ghost use Rattle.layout.specs.Layout.{length_of, written};
ghost use Rattle.refusals.specs.Refusals.{laid};
ghost use Rattle.table.specs.Table.{look, Rows};
ghost use Rattle.numbering.specs.Names.{Names, new_number};
ghost use Rattle.merging.specs.Merged.{Gathered, merged_by, Foldable};

use layout::{Profile, Reading};
use table::Row;

// Gives the state that names a class the edges of all its members: at each label that of the first member that has one. A
// dropped state is in no class, and its edges go nowhere.
fn gather(rows: &mut [Row], names: &[u16; 256], n: usize)
    requires names { Names n names.now × Rows rows.old n }
    requires by_index { (y : ℕ) → look rows.old n y ≡ none }
    ensures { Gathered rows.old
        rows.new n (take n names.now) }
{
    for t in 0..n {
        let c = usize::from(names[t]);
        if c != t {
            if c != 65535 {
                table::give(rows, t, c);
            }
        }
    }
}

// How many classes there are, and the length of their file.
#[derive(Clone, Copy)]
pub struct Made {
    pub states: usize,
    pub length: usize,
}

// Writes the file of the classes with these names, and the new number of each state, 65,535 for one in no class. The edges are
// gathered in the table itself, and the lists of names and colours are lent to each step, so that none is copied.
pub fn merged(
    p: Profile,
    rows: &mut [Row],
    colours: &[u8; 256],
    names: &[u16; 256],
    reading: Reading,
    answer: &mut [u8],
    list: &mut [u16],
) -> Made
    requires { Foldable p rows.old colours.now names.now reading
        (length answer.old) (length list.old) }
    ensures answer { answer.new ≡ laid (written p (merged_by rows.old
        colours.now names.now reading)) answer.old }
    ensures list { list.new
        ≡ laid (tab reading.states (new_number (take reading.states names.now))) list.old }
    ensures states { result.states ≡ classes reading.states (take reading.states names.now) }
    ensures length { result.length ≡ length_of p (merged_by rows.old
        colours.now names.now reading) }
{
    let n = reading.states;
    let mut order = arrays::filled(65535);
    let count = numbering::numbered(names, n, list, &mut order);
    gather(rows, names, n);
    let mut hues = arrays::filled(0);
    numbering::colours_by(colours, &order[..count], &mut hues);
    let first = reading.start;
    let start = usize::from(list[first]);
    let length = storing::write(
        p,
        answer,
        &hues[..count],
        reading.labels,
        start,
        rows,
        &order[..count],
        list,
    );
    Made {
        states: count,
        length,
    }
}
