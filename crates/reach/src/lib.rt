// The states that the start can reach, found by a walk over the table: breadth first, labels ascending. The walk is one queue of
// codes, each of which has a number once it is met.
#![tactic(auto)]

ghost use Rattle.std.specs.Prelude.{◌≡◌, not, ◌+◌, ◌<◌, ◌≤◌, eqb, length, take};
ghost use Rattle.std.proofs.Math.Option.{some};
ghost use Rattle.meaning.specs.Search.{at};
ghost use Rattle.meaning.specs.Reach.{meet, visited, walk, reached};
ghost use Rattle.table.specs.Table.{look, Rows};
ghost use Rattle.reach.specs.Walking.{Queue, Walked, Walkable, Lists};

use table::Row;

// Follows an edge: a code that is new goes to the end of the queue, and gets its place there as its number, by which it is known
// to be met. Answers how many codes are met.
fn meet(codes: &mut [u16; 256], numbers: &mut [u16; 256], met: usize, code: usize) -> usize
    requires { Queue codes.old numbers.old met × (code < 256) }
    ensures { Walked codes.new numbers.new result
        (meet (take met codes.old) (some code)) }
{
    if numbers[code] == 65535 {
        codes[met] = code as u16;
        numbers[code] = met as u16;
        return met + 1;
    }
    met
}

// Visits state s: its edges are followed, labels ascending. Answers how many states are met.
fn visit(
    rows: &[Row],
    s: usize,
    codes: &mut [u16; 256],
    numbers: &mut [u16; 256],
    met: usize,
) -> usize
    requires { Queue codes.old numbers.old met × Rows rows.now (s + 1) }
    ensures { Walked codes.new numbers.new result
        (visited (look rows.now s) 64 (take met codes.old)) }
{
    let mut count = met;
    for y in sets::each(rows[s].labels) {
        count = meet(codes, numbers, count, table::target(rows, s, y));
    }
    count
}

// Visits the states in the order in which they are met, from the start on, until all are met or visited. Answers how many are met.
fn walk(
    rows: &[Row],
    n: usize,
    start: usize,
    codes: &mut [u16; 256],
    numbers: &mut [u16; 256],
) -> usize
    requires { Walkable rows.now n start codes.old numbers.old }
    ensures { Walked codes.new numbers.new result
        (walk (look rows.now) 64 n start) }
{
    let mut met = meet(codes, numbers, 0, start);
    let mut i = 0;
    while i < met {
        if met == n {
            return met;
        }
        met = visit(rows, usize::from(codes[i]), codes, numbers, met);
        i += 1;
    }
    met
}

// The states that have a number, ascending, in place of the numbers. Answers how many there are.
fn sorted(numbers: &mut [u16; 256], n: usize) -> usize
    requires { (n ≤ 256) × (length numbers.old ≡ 256) }
    ensures { Lists (λ s. not (eqb (at numbers.old s) 65535)) n numbers.new result }
{
    let mut k: usize = 0;
    for s in 0..n {
        if numbers[s] != 65535 {
            numbers[k] = s as u16;
            k += 1;
        }
    }
    k
}

// The states that the start can reach, ascending, at the beginning of a list that is lent fresh. Answers how many there are. The
// queue is lent too, and may be anything.
pub fn live(
    rows: &[Row],
    n: usize,
    start: usize,
    queue: &mut [u16; 256],
    list: &mut [u16; 256],
) -> usize
    requires { Walkable rows.now n start queue.old list.old }
    ensures { Lists (reached (look rows.now) 64 n start) n
        list.new result × (length queue.new ≡ 256) }
{
    walk(rows, n, start, queue, list);
    sorted(list, n)
}
