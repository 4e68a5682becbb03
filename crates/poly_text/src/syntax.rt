/// The list whose members a variable with a sign and an index stands for: `@`, `$` or `%`.
#[derive(Clone, Copy, Debug, PartialEq, Eq)]
pub enum Mark {
    Primary,
    Irreducible,
    Secondary,
}

/// A variable as it stands in a text: a name, or a sign and an index from 1.
#[derive(Clone, Copy, Debug)]
pub(crate) enum VariableText<'a> {
    Named(&'a [u8]),
    Marked { mark: Mark, index: u32 },
}

/// A power of a variable.
#[derive(Clone, Copy, Debug)]
pub(crate) struct FactorText<'a> {
    pub variable: VariableText<'a>,
    pub exponent: u32,
}

/// A term: its sign, the absolute value of its coefficient and its factors, in their order.
#[derive(Debug, Drop)]
pub(crate) struct TermText<'a> {
    pub is_negative: bool,
    pub coefficient: u32,
    pub factors: Vec<FactorText<'a>>,
}
