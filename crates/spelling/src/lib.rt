// Words and numbers, read from a text where they stand. A place is counted from the beginning of the text.
#![tactic(auto)]

ghost use Rattle.std.specs.Prelude.{◌≡◌, ◌+◌, ◌≤◌, ◌<◌, ◌^◌, eqb, length};
ghost use Rattle.spelling.specs.Spelling.{matched, digit_of, digit_at, clipped, numeral, number_at};

// A number and the place behind it; where none stands, it ends where it was looked for.
#[derive(Clone, Copy)]
pub struct Number {
    pub value: usize,
    pub end: usize,
}

// How many bytes of a word stand in the text from `at` on.
pub fn matched(text: &[u8], at: usize, word: &[u8]) -> usize
    requires { at ≤ length text.now }
    ensures { result ≡ matched text.now at word.now }
{
    text[at..]
        .iter()
        .zip(word)
        .take_while(|(byte, wanted)| byte == wanted)
        .count()
}

// Whether a word stands in the text from `at` on. A word that is known when this is compiled is one comparison in the processor.
pub fn stands(text: &[u8], at: usize, word: &[u8]) -> bool
    requires { at ≤ length text.now }
    ensures { result ≡ eqb (matched text.now at word.now) (length word.now) }
{
    text[at..].starts_with(word)
}

// What a byte is as a digit; 10 or more where it is none.
fn digit(byte: u8) -> usize
    ensures { (digit_of byte ≡ clipped result) × (result < 256) }
{
    usize::from(byte.wrapping_sub(b'0'))
}

// The digit that stands at a place of the text; 10 or more where none does.
pub fn digit_at(text: &[u8], at: usize) -> usize
    ensures { (digit_at text.now at ≡ clipped result) × (result < 256) }
{
    let Some(byte) = text.get(at) else {
        return 10;
    };
    digit(*byte)
}

// The number of the digits at three places, the first of which is `at`.
fn numeral(at: usize, first: usize, second: usize, third: usize) -> Number
    requires { (at < 2 ^ 63 + 64) × (first < 256) × (second < 256) × (third < 256) }
    ensures { (result ≡ numeral at (clipped first) (clipped second) (clipped third)) × (at ≤ result.end) × (result.end ≤ at + 3) }
{
    if 9 < first {
        return Number { value: 0, end: at };
    }
    if first == 0 {
        return Number {
            value: 0,
            end: at + 1,
        };
    }
    if 9 < second {
        return Number {
            value: first,
            end: at + 1,
        };
    }
    let two = first * 10 + second;
    if 9 < third {
        return Number {
            value: two,
            end: at + 2,
        };
    }
    Number {
        value: two * 10 + third,
        end: at + 3,
    }
}

// The number where the text has three bytes, so that nothing has to be tested of its end.
pub fn short_at(text: &[u8], at: usize) -> Number
    requires { at + 2 < length text.now }
    ensures { (result ≡ number_at text.now at) × (at ≤ result.end) × (result.end ≤ at + 3) }
{
    numeral(
        at,
        digit(text[at]),
        digit(text[at + 1]),
        digit(text[at + 2]),
    )
}

// One to three digits without leading zeros.
pub fn number_at(text: &[u8], at: usize) -> Number
    requires { at < 2 ^ 63 + 64 }
    ensures { (result ≡ number_at text.now at) × (at ≤ result.end) × (result.end ≤ at + 3) }
{
    if at + 2 < text.len() {
        return short_at(text, at);
    }
    numeral(
        at,
        digit_at(text, at),
        digit_at(text, at + 1),
        digit_at(text, at + 2),
    )
}
