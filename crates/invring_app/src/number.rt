ghost use Rattle.std.specs.Prelude.{◌≡◌, ◌≤◌, IfSome};
ghost use Rattle.invring_app.specs.Numerals.{number_of};

/// The number that a text writes in decimal without a leading zero, if it is at most the limit.
pub(crate) fn number(limit: u32, text: &[u8]) -> Option<u32>
    requires small { limit ≤ 400000000 }
    ensures is { result ≡ number_of limit text.now }
    ensures within { IfSome result (λ value. value ≤ limit) }
{
    if text.is_empty() || (text.len() > 1 && text[0] == b'0') {
        return None;
    }
    let mut value = 0;
    for byte in text {
        if !byte.is_ascii_digit() {
            return None;
        }
        if value > limit {
            return None;
        }
        value = 10 * value + u32::from(*byte - b'0');
    }
    (value <= limit).then_some(value)
}
