/// The seven limits under which a command runs.
///
/// | Field | Default | Range | Counts |
/// |---|---|---|---|
/// | `max_order` | 10000 | 1 to 1000000 | elements of the group |
/// | `max_degree` | 60 | 1 to 1000 | degrees of the search for primary invariants |
/// | `max_basis` | 200 | 1 to 1000 | degree of a member of a reduced Gröbner basis |
/// | `max_terms` | 2000 | 1 to 4096 | monomials of one degree |
/// | `max_rank` | 512 | 1 to 4096 | standard monomials |
/// | `tries` | 256 | 1 to 65536 | candidates of one degree |
/// | `max_text` | 268435456 | 1 to 268435456 | bytes of a certificate that is written |
#[derive(Clone, Copy, Debug, PartialEq, Eq)]
pub struct Limits {
    pub max_order: u64,
    pub max_degree: u32,
    pub max_basis: u32,
    pub max_terms: u32,
    pub max_rank: u32,
    pub tries: u32,
    pub max_text: u64,
}
