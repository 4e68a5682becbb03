use crate::arguments::Argument;
use alg_core::Limits;

/// The values that the words gave so far.
#[derive(Clone, Copy, Debug)]
pub(crate) struct Given {
    pub number: Option<u32>,
    pub max_order: Option<u32>,
    pub max_degree: Option<u32>,
    pub max_basis: Option<u32>,
    pub max_terms: Option<u32>,
    pub max_rank: Option<u32>,
    pub tries: Option<u32>,
    pub max_text: Option<u32>,
}

impl Given {
    ghost use Rattle.std.specs.Prelude.{◌≡◌};
    ghost use Rattle.invring_app.specs.WordReading.{nothing_given, given_at, with_given, limits_of};

    pub fn nothing() -> Given
        ensures is { result ≡ nothing_given }
    {
        Given {
            number: None,
            max_order: None,
            max_degree: None,
            max_basis: None,
            max_terms: None,
            max_rank: None,
            tries: None,
            max_text: None,
        }
    }

    /// What was given for an argument.
    pub fn at(&self, argument: Argument) -> Option<u32>
        ensures is { result ≡ given_at self.now argument }
    {
        match argument {
            Argument::Number => self.number,
            Argument::MaxOrder => self.max_order,
            Argument::MaxDegree => self.max_degree,
            Argument::MaxBasis => self.max_basis,
            Argument::MaxTerms => self.max_terms,
            Argument::MaxRank => self.max_rank,
            Argument::Tries => self.tries,
            Argument::MaxText => self.max_text,
        }
    }

    /// The same with a value for one argument.
    pub fn with(self, argument: Argument, value: u32) -> Given
        ensures is { result ≡ with_given self argument value }
    {
        let value = Some(value);
        match argument {
            Argument::Number => Given {
                number: value,
                ..self
            },
            Argument::MaxOrder => Given {
                max_order: value,
                ..self
            },
            Argument::MaxDegree => Given {
                max_degree: value,
                ..self
            },
            Argument::MaxBasis => Given {
                max_basis: value,
                ..self
            },
            Argument::MaxTerms => Given {
                max_terms: value,
                ..self
            },
            Argument::MaxRank => Given {
                max_rank: value,
                ..self
            },
            Argument::Tries => Given {
                tries: value,
                ..self
            },
            Argument::MaxText => Given {
                max_text: value,
                ..self
            },
        }
    }

    /// The limits that were given, and the defaults of the others.
    pub fn limits(&self) -> Limits
        ensures is { result ≡ limits_of self.now }
    {
        Limits {
            max_order: u64::from(self.max_order.unwrap_or(10000)),
            max_degree: self.max_degree.unwrap_or(60),
            max_basis: self.max_basis.unwrap_or(200),
            max_terms: self.max_terms.unwrap_or(2000),
            max_rank: self.max_rank.unwrap_or(512),
            tries: self.tries.unwrap_or(256),
            max_text: u64::from(self.max_text.unwrap_or(268435456)),
        }
    }
}
