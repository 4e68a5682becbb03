//! What a command may be given: the number that it needs, and the options.

/// The number of a command, or the option for one of the seven limits.
#[derive(Clone, Copy, Debug, PartialEq, Eq)]
pub(crate) enum Argument {
    Number,
    MaxOrder,
    MaxDegree,
    MaxBasis,
    MaxTerms,
    MaxRank,
    Tries,
    MaxText,
}

impl Argument {
    ghost use Rattle.std.specs.Prelude.{◌≡◌};
    ghost use Rattle.invring_app.specs.Words.{least, most};
    ghost use Rattle.invring_app.specs.WordReading.{named};

    /// The option of this name.
    #[tactic(auto, unfolding(crate::specs::WordReading::named))]
    pub fn named(name: &str) -> Option<Argument>
        ensures is { result ≡ named name.now }
    {
        match name {
            "--max-order" => Some(Argument::MaxOrder),
            "--max-degree" => Some(Argument::MaxDegree),
            "--max-basis" => Some(Argument::MaxBasis),
            "--max-terms" => Some(Argument::MaxTerms),
            "--max-rank" => Some(Argument::MaxRank),
            "--tries" => Some(Argument::Tries),
            "--max-text" => Some(Argument::MaxText),
            _ => None,
        }
    }

    /// The least value.
    pub fn least(self) -> u32
        ensures is { result ≡ least self }
    {
        match self {
            Argument::Number => 0,
            _ => 1,
        }
    }

    /// The greatest value; of a number one that no command takes.
    pub fn most(self) -> u32
        ensures is { result ≡ most self }
    {
        match self {
            Argument::Number => 268435456,
            Argument::MaxOrder => 1000000,
            Argument::MaxDegree => 1000,
            Argument::MaxBasis => 1000,
            Argument::MaxTerms => 4096,
            Argument::MaxRank => 4096,
            Argument::Tries => 65536,
            Argument::MaxText => 268435456,
        }
    }
}
