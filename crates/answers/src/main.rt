// Answers a batch of cases, for comparison with the second program. `cases` says how a case is framed, `calls` which calls
// there are. A string has at most 400,000 bytes. A case that is cut off, or of another call, ends the batch.
#![tactic(auto)]

use std::io::{Read, Write};

// Reads one case and answers it; none where it is not whole or its answer is not taken.
fn one_case<R: Read, W: Write>(
    input: &mut R,
    output: &mut W,
    a: &mut [u8],
    b: &mut [u8],
    c: &mut [u8],
) -> Option<()> {
    let head = cases::next_case(input)?;
    let a = cases::read_string(input, a, head.a)?;
    let b = cases::read_string(input, b, head.b)?;
    let c = cases::read_string(input, c, head.c)?;
    cases::write_answer(output, calls::answer(head, a, b, c));
    cases::write_strings(output, b, c).ok()
}

fn batch<R: Read, W: Write>(
    input: &mut R,
    output: &mut W,
    cases: u64,
    a: &mut [u8],
    b: &mut [u8],
    c: &mut [u8],
) -> Option<()> {
    for _ in 0..cases {
        one_case(input, output, a, b, c)?;
    }
    Some(())
}

fn main(rt: HostRuntime) {
    let mut input = rt.stdin();
    let mut output = rt.stdout();
    let mut a = [0u8; 400000];
    let mut b = [0u8; 400000];
    let mut c = [0u8; 400000];
    if let Some(cases) = cases::count(&mut input) {
        let _ = batch(&mut input, &mut output, cases, &mut a, &mut b, &mut c);
    }
}
