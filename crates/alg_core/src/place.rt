/// Where a text leaves its grammar: a byte of a script, from 0, or a line of a certificate, from 1.
#[derive(Clone, Copy, Debug, PartialEq, Eq)]
pub enum Place {
    Byte(u64),
    Line(u64),
}
