//! Numbers in decimal digits.
ghost use Rattle.std.specs.Prelude.{◌≡◌};
ghost use Rattle.order.specs.Decimals.{byte_of};

// By hand: `parse` takes a sign, and a number that is too large as no number.
/// The number that a text of digits writes, 255 where it is larger than that.
pub fn decimal(text: &[u8]) -> Option<u8>
    ensures { result ≡ byte_of text.now }
{
    if text.is_empty() {
        return None;
    }
    let mut number: u8 = 0;
    for b in text {
        if !b.is_ascii_digit() {
            return None;
        }
        number = number.saturating_mul(10).saturating_add(*b - b'0');
    }
    Some(number)
}
