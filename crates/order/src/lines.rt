//! A line and its two parts.
ghost use Rattle.std.specs.Prelude.{◌≡◌, ◌==◌, position};
ghost use Rattle.order.specs.Lines.{bare_of, key_of, value_of};

/// The line without a carriage return at its end.
pub fn bare(line: &[u8]) -> &[u8]
    ensures { result.now ≡ bare_of line.now }
{
    match line {
        [front @ .., b'\r'] => front,
        _ => line,
    }
}

/// Where the first space stands.
fn first_space(line: &[u8]) -> Option<usize>
    ensures { result ≡ position (λ b. b == 32) line.now }
{
    line.iter().position(|b| *b == b' ')
}

/// The key and the value of a line.
pub fn split(line: &[u8]) -> (&[u8], &[u8])
    ensures key { result.0.now ≡ key_of line.now }
    ensures value { result.1.now ≡ value_of line.now }
{
    match first_space(line) {
        Some(end) => (&line[..end], &line[end + 1..]),
        None => (line, &[]),
    }
}
