// The numbers in the bytes of a file, the low byte first.
#![tactic(auto)]

ghost use Rattle.std.specs.Prelude.{◌≡◌};
ghost use Rattle.basis.specs.Words.{◌!◌};
ghost use Rattle.little_endian.specs.Promises.{TwoIs, FourIs};

// A byte of a part, and 0 past its end.
fn byte(part: &[u8], at: usize) -> u8
    ensures { result ≡ part.now ! at }
{
    part.get(at).copied().unwrap_or(0)
}

// The number of two bytes at an offset; past the end there are zeros. Beside `four`, since std has no trait with from_le_bytes to write one function for both.
#[tactic(auto, using(file_laws::proofs::MeterFile::two_past))]
pub fn two(part: &[u8], at: usize) -> u16
    ensures { TwoIs part.now at result }
{
    if at >= part.len() {
        return 0;
    }
    u16::from_le_bytes([byte(part, at), byte(part, at + 1)])
}

// The number of four bytes at an offset; past the end there are zeros.
#[tactic(auto, using(file_laws::proofs::MeterFile::four_past))]
pub fn four(part: &[u8], at: usize) -> u32
    ensures { FourIs part.now at result }
{
    if at >= part.len() {
        return 0;
    }
    u32::from_le_bytes([
        byte(part, at),
        byte(part, at + 1),
        byte(part, at + 2),
        byte(part, at + 3),
    ])
}
