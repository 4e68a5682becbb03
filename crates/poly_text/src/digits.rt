use std::marker::Model;

/// How many digits the greatest number has.
const MOST: usize = 39;

/// The digits of a number in decimal: the last bytes, from a place on. They take no memory.
#[derive(Drop)]
pub struct Digits {
    bytes: [u8; MOST],
    start: usize,
}

impl Model for Digits {
    ghost use Rattle.std.specs.Prelude.{ℕ, List, ◌≤◌, drop};

    ghost Value = { List ℕ };

    ghost view = { λ d. drop d.start d.bytes };

    ghost invariant = { λ d. d.start ≤ 39 };
}

impl Digits {
    ghost use Rattle.std.specs.Prelude.{◌≡◌, decimal};

    /// The digits of this number.
    pub fn of(number: u128) -> Digits
        ensures is { result ≡ decimal number }
    {
        let mut bytes = [b'0'; MOST];
        let mut start = MOST;
        let mut rest = number;
        while rest >= 10 {
            start -= 1;
            bytes[start] = b'0' + (rest % 10) as u8;
            rest /= 10;
        }
        start -= 1;
        bytes[start] = b'0' + rest as u8;
        Digits { bytes, start }
    }

    /// The digits, from the first one.
    pub fn as_slice(&self) -> &[u8]
        ensures is { result.now ≡ self.now }
    {
        &self.bytes[self.start..]
    }
}
