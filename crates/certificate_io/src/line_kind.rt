/// What kind of line of a certificate it is.
#[derive(Clone, Copy, Debug, PartialEq, Eq)]
pub(crate) enum LineKind {
    Version,
    Field,
    Names,
    Matrix,
    Order,
    Primary,
    Lift,
    Power,
    Rank,
    Secondary,
    Reynolds,
    Kernel,
    Image,
    Moved,
    Fixed,
    Irreducible,
    Word,
    End,
}
