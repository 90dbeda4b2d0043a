// Checking a filter file.
#![tactic(auto)]

ghost use Rattle.std.specs.Prelude.{◌≡◌};
ghost use Rattle.files.specs.Files.{head_of};
ghost use Rattle.checking.specs.Promise.{checked_outcome, CheckPromise};

use layout::{Format, Profile, Reading};
use refusals::{Kind, Refusal};

// Reads the file's numbers, or says why it is refused.
pub fn check<F: Format>(file: &[u8]) -> Result<Reading, Refusal>
    ensures { CheckPromise F.profile file.now result }
{
    check_as(F::profile(), file)
}

// The same for any widths: inlined, so that where they are constants they are known.
#[inline(always)]
pub fn check_as(p: Profile, file: &[u8]) -> Result<Reading, Refusal>
    ensures { CheckPromise p file.now result }
{
    let r = headed(p, file)?;
    let n = r.states;
    let m = r.labels;
    let e = r.edges;
    let mut last = 0;
    for edge in layout::edge::each(p, file, layout::edges_begin(p, n), e) {
        edges::test(n, m, last, edge)?;
        last = edges::rank(layout::edge::bare(edge));
    }
    if let Some(colour) = p.fault {
        leaving::first(p, colour, file, n, e)?;
    }
    Ok(r)
}

// What is tested before the edges: reads the file's numbers, or says which of refusals 1 to 6 it gets.
#[inline(always)]
pub fn headed(p: Profile, file: &[u8]) -> Result<Reading, Refusal>
    ensures { checked_outcome result ≡ head_of p file.now }
{
    if file.len() < layout::bytes_for(layout::header_bits(p)) {
        return refused(Kind::TooShort);
    }
    let reading = layout::header::read(p, file);
    let n = reading.states;
    let m = reading.labels;
    let e = reading.edges;
    if n <= reading.start {
        return refused(Kind::Start);
    }
    if n * m < e {
        return refused(Kind::EdgeCount);
    }
    let bits = layout::file_bits(p, n, e);
    let length = layout::bytes_for(bits);
    if file.len() < length {
        return refused(Kind::Missing);
    }
    if length < file.len() {
        return refused(Kind::Excess);
    }
    if bits::get(file, bits, length * 8 - bits) != 0 {
        return refused(Kind::Filling);
    }
    Ok(reading)
}

fn refused(kind: Kind) -> Result<Reading, Refusal>
    ensures { result ≡ Err (record { kind = kind; place = 0 }) }
{
    Err(kind.into())
}
