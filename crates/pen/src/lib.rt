// Fields one behind another in a slice of bytes, read and written. A pen holds back the bits of the last fields and stores four
// bytes at a time, so that no byte is read that was stored just before: the processor would wait for it.
#![tactic(auto)]

ghost use Rattle.std.specs.Prelude.{◌≡◌, [], ◌∷◌, ◌++◌, ◌≤◌, length, drop, replicate};
ghost use Rattle.pen.specs.Runs.{fields, put_fields, inked, place_of};
ghost use Rattle.pen.specs.Runs.{Readable, Writable, Ready, Pushable, Drawn};

// The first `bits` bits from byte `at` on, as the number `held`: they are not stored yet.
#[derive(Clone, Copy)]
pub struct Pen {
    pub at: usize,
    pub held: u64,
    pub bits: usize,
}

// A pen at bit `at`. It holds the bits before that one in its byte.
pub fn begin(s: &[u8], at: usize) -> Pen
    ensures { Drawn s.now at [] [] s.now result }
{
    let bits = at % 8;
    Pen {
        at: at / 8,
        held: bits::get(s, at - bits, bits),
        bits,
    }
}

// Writes value to the `width` bits behind those that the pen holds.
pub fn push(s: &mut [u8], pen: Pen, width: usize, value: u64) -> Pen
    requires { Pushable pen width value }
    ensures { Drawn (inked s.old pen) (place_of pen) (width ∷ []) (value ∷ []) s.new result }
{
    let at = pen.at;
    let held = (pen.held << width) + value;
    let bits = pen.bits + width;
    if bits < 32 {
        return Pen { at, held, bits };
    }
    let rest = bits - 32;
    let kept = held % (1u64 << rest);
    bits::set_window(s, at, held >> rest);
    Pen {
        at: at + 4,
        held: kept,
        bits: rest,
    }
}

// Stores the bits that the pen holds; all other bits stay.
pub fn finish(s: &mut [u8], pen: Pen)
    requires { Ready pen }
    ensures { s.new ≡ inked s.old pen }
{
    bits::put(s, pen.at * 8, pen.bits, pen.held);
}

// Writes the values one after another as fields of `width` bits from bit `at` on; all other bits stay.
pub fn put_run(s: &mut [u8], at: usize, width: usize, values: &[u8])
    requires { Writable at width values.now }
    ensures { s.new ≡
        put_fields s.old at (replicate (length values.now) width) values.now }
{
    let mut pen = begin(s, at);
    for value in values {
        pen = push(s, pen, width, u64::from(*value));
    }
    finish(s, pen);
}

// Reads n fields of `width` bits each, one after another from bit `at` on, into the first n entries of out; the rest stays.
pub fn get_run(s: &[u8], at: usize, width: usize, n: usize, out: &mut [u8])
    requires { Readable at width n out.old }
    ensures { out.new ≡ fields s.now at (replicate n width) ++ drop n out.old }
{
    let done = get_threes(s, at, width, n, out);
    get_rest(s, at + done * width, width, n - done, &mut out[done..]);
}

// The same for as many of them as make threes, and how many these are: three fields are read as one.
fn get_threes(s: &[u8], at: usize, width: usize, n: usize, out: &mut [u8]) -> usize
    requires { Readable at width n out.old }
    ensures fields { out.new ≡ fields s.now at (replicate result width) ++ drop result out.old }
    ensures count { result ≤ n }
{
    let low = 1u64 << width;
    let threes = n / 3;
    let mut p = at;
    for i in 0..threes {
        let three = bits::get(s, p, 3 * width);
        let two = three >> width;
        out[3 * i] = (two >> width) as u8;
        out[3 * i + 1] = (two % low) as u8;
        out[3 * i + 2] = (three % low) as u8;
        p += 3 * width;
    }
    3 * threes
}

// The same one by one. By index, for behind a loop over `iter_mut` the compiler takes the room for kept, and who lends it a local array
// copies that.
fn get_rest(s: &[u8], at: usize, width: usize, n: usize, out: &mut [u8])
    requires { Readable at width n out.old }
    ensures { out.new ≡ fields s.now at (replicate n width) ++ drop n out.old }
{
    let mut p = at;
    for i in 0..n {
        out[i] = bits::get(s, p, width) as u8;
        p += width;
    }
}
