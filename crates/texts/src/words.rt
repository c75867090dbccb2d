// Decimal numbers.
ghost use Rattle.std.specs.Prelude.{◌≡◌, ◌≤◌, IfSome};
ghost use Rattle.texts.specs.Words.{no_leading_zero, number_of, with_digit};

use limits::number::LARGEST;

// The largest number that a text may hold.
pub const MAX_NUMBER: u32 = LARGEST;

// Whether there is a byte, and no zero before another.
fn starts_well(bytes: &[u8]) -> bool
    ensures { result ≡ no_leading_zero bytes.now }
{
    match bytes {
        [] => false,
        [_] => true,
        [first, ..] => *first != b'0',
    }
}

// The number with one digit more at its end, up to the largest.
fn with_digit(n: u32, b: u8) -> Option<u32>
    ensures value { result ≡ with_digit n b }
    ensures small { IfSome result (λ m. m ≤ MAX_NUMBER) }
{
    if !b.is_ascii_digit() {
        return None;
    }
    let n = u64::from(n) * 10 + u64::from(b - b'0');
    u32::try_from(n).ok().filter(|n| *n <= MAX_NUMBER)
}

// The number that decimal digits without a leading zero spell, up to the largest.
#[tactic(auto, using(crate::proofs::Numbers::number_next, crate::proofs::Numbers::number_end))]
pub(crate) fn parse_decimal(bytes: &[u8]) -> Option<u32>
    ensures { result ≡ number_of bytes.now }
{
    if !starts_well(bytes) {
        return None;
    }
    let mut n = 0;
    // tried with `try_fold`: the number that it answers is not proved
    for b in bytes {
        n = with_digit(n, *b)?;
    }
    Some(n)
}
