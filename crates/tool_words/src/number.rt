//! Numbers of words.
ghost use Rattle.std.specs.Prelude.{◌≡◌};
ghost use Rattle.tool_words.specs.Asked.{has_no_zero, number_of};

/// Whether there is a first byte, and it isn't `0`.
fn has_no_zero(text: &[u8]) -> bool
    ensures { result ≡ has_no_zero text.now }
{
    match text {
        [] => false,
        [first, ..] => *first != b'0',
    }
}

/// The number in decimal digits without a leading zero, where it is at most `most`.
pub fn number_in(text: &[u8], most: u32) -> Option<u32>
    ensures { result ≡ number_of most text.now }
{
    if !has_no_zero(text) {
        return None;
    }
    let mut number = 0u64;
    for digit in text {
        if !digit.is_ascii_digit() {
            return None;
        }
        number = number * 10 + u64::from(*digit - b'0');
        if number > u64::from(most) {
            return None;
        }
    }
    Some(number as u32)
}
