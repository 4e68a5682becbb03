//! The numbers of a script.

ghost use Rattle.std.specs.Prelude.{◌≡◌, true};
ghost use Rattle.finvar_text.specs.Conditions.{number, value, is_small};

/// The digits of a number, and the number that they write: None where it is over `u128::MAX`.
#[derive(Clone, Copy, Debug)]
pub(crate) struct NumberText<'a> {
    pub digits: &'a [u8],
    pub value: Option<u128>,
    ghost read: { value ≡ number digits.now },
}

/// The number that the digits write; None where it is over `u128::MAX`.
fn number_of(digits: &[u8]) -> Option<u128>
    ensures is { result ≡ number digits.now }
{
    let mut number: u128 = 0;
    for digit in digits {
        let one = u128::from(digit.saturating_sub(b'0'));
        number = number.checked_mul(10)?.checked_add(one)?;
    }
    Some(number)
}

impl<'a> NumberText<'a> {
    /// The number of these digits.
    pub(crate) fn of(digits: &'a [u8]) -> NumberText<'a>
        ensures digits { result.digits.now ≡ digits.now }
    {
        NumberText {
            digits,
            value: number_of(digits),
        }
    }

    /// Whether the number is at most `u128::MAX`.
    pub(crate) fn is_small(&self) -> bool
        ensures is { result ≡ is_small self.now.digits.now }
    {
        self.value.is_some()
    }

    /// The number.
    pub(crate) fn get(&self) -> u128
        requires small { is_small self.now.digits.now ≡ true }
        ensures is { result ≡ value self.now.digits.now }
    {
        self.value.unwrap()
    }
}
