/// What is wrong with the value of a text that its grammar allows.
///
/// | Kind | In a polynomial or a combination | In another line of a certificate |
/// |---|---|---|
/// | `Name` | a variable that is not known, or whose sign does not belong here | |
/// | `Index` | an index over the number of its list | |
/// | `Factor` | factors not in strictly rising order of variables | |
/// | `Exponent` | an exponent over 4096 | an exponent over 4096 |
/// | `Coefficient` | an absolute value over (p-1)/2; for p = 2 a sign `-` or a value over 1 | an entry outside that range |
/// | `Degree` | a weighted degree over 4096 | |
/// | `Order` | a term that is not smaller than the one before it | |
/// | `Field` | | a characteristic that is not listed |
/// | `Variables` | | more than 8 variables |
/// | `Twice` | | a name twice |
/// | `Size` | | a matrix of another size |
/// | `Power` | | a power of another variable than the line's |
/// | `Count` | | too few lines, or more of one kind than of another |
#[derive(Clone, Copy, Debug, PartialEq, Eq)]
pub enum ValueKind {
    Name,
    Index,
    Factor,
    Exponent,
    Coefficient,
    Degree,
    Order,
    Field,
    Variables,
    Twice,
    Size,
    Power,
    Count,
}
