use crate::{Name, ValueKind};

/// What is wrong with an input whose syntax is right. Of several faults the first one of this order is told.
#[derive(Debug, Drop, PartialEq, Eq)]
pub enum InputFault {
    /// The input has more bytes than are read.
    Long,
    /// A number is over 340282366920938463463374607431768211455.
    Number,
    /// The characteristic is none of 2, 3, 5, 7, 11, 257 and 32003.
    Field { p: u128 },
    /// There are more than 8 variables.
    Variables { n: u64 },
    /// A name is declared twice.
    Twice { name: Name },
    /// A name is used that is not declared before, or is no matrix where one is wanted.
    Unknown { name: Name },
    /// A matrix does not have a row and a column for each variable, or another number of entries than its size tells.
    Size { name: Name },
    /// There is no matrix.
    NoMatrix,
    /// A matrix has no inverse.
    Singular { name: Name },
    /// A line of a certificate, from 1, has a value of this kind that it may not have; of several lines the first.
    Line { line: u64, kind: ValueKind },
}
