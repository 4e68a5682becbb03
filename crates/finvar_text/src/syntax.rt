use crate::number::NumberText;

/// An entry of a matrix: its sign and its number.
#[derive(Clone, Copy, Debug)]
pub(crate) struct EntryText<'a> {
    pub is_negative: bool,
    pub number: NumberText<'a>,
}

/// A matrix: the numbers of its rows and columns, and its entries, row after row.
#[derive(Debug, Drop)]
pub(crate) struct MatrixText<'a> {
    pub name: &'a [u8],
    pub rows: NumberText<'a>,
    pub cols: NumberText<'a>,
    pub entries: Vec<EntryText<'a>>,
}

/// The call: the names of its three results and of its matrices.
#[derive(Debug, Drop)]
pub(crate) struct CallText<'a> {
    pub first: &'a [u8],
    pub second: &'a [u8],
    pub third: &'a [u8],
    pub arguments: Vec<&'a [u8]>,
}

/// What stands after the ring. `Lib` has the bytes between the quotes; `with_word` tells `print(name);` from `name;`.
#[derive(Debug, Drop)]
pub(crate) enum ItemText<'a> {
    Lib(&'a [u8]),
    Declared(MatrixText<'a>),
    Printed { name: &'a [u8], with_word: bool },
    Called(CallText<'a>),
}

/// A script; `libs` are those before the ring.
#[derive(Debug, Drop)]
pub(crate) struct ScriptText<'a> {
    pub libs: Vec<&'a [u8]>,
    pub ring: &'a [u8],
    pub characteristic: NumberText<'a>,
    pub in_parentheses: bool,
    pub variables: Vec<&'a [u8]>,
    pub items: Vec<ItemText<'a>>,
}
