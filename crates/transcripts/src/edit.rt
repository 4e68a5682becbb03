//! A file with one line changed, as `sed` does it.

use std::alloc::{AllocError, Global};

#[derive(Clone, Copy)]
pub(crate) enum Change<'a> {
    /// `c`: this line stands in its place.
    Becomes(&'a str),
    /// `i`: this line stands before it.
    After(&'a str),
    /// `d`: it is taken out.
    Goes,
}

/// The change of a line, by its number from 1.
#[derive(Clone, Copy)]
pub(crate) struct Edit<'a> {
    line: usize,
    change: Change<'a>,
}

/// `Nc TEXT`, `Ni TEXT` or `Nd`.
pub(crate) fn edit_of(text: &str) -> Option<Edit<'_>> {
    if let Some(line) = text.strip_suffix('d') {
        if let Ok(line) = line.parse::<usize>() {
            return Some(Edit {
                line,
                change: Change::Goes,
            });
        }
    }
    let (place, new) = text.split_once(' ')?;
    let (number, change) = match place.strip_suffix('c') {
        Some(number) => (number, Change::Becomes(new)),
        None => (place.strip_suffix('i')?, Change::After(new)),
    };
    let line = number.parse::<usize>().ok()?;
    Some(Edit { line, change })
}

/// Appends a line and a newline.
fn push_line(bytes: &mut Vec<u8>, line: &[u8]) -> Result<(), AllocError> {
    bytes.extend_from_slice(line)?;
    bytes.push(b'\n').map_err(|_| AllocError)
}

/// The lines of the text with the change.
pub(crate) fn edited(alloc: Global, text: &[u8], edit: Edit<'_>) -> Result<Vec<u8>, AllocError> {
    let mut bytes = Vec::new(alloc);
    let mut number = 0;
    for line in text
        .strip_suffix(b"\n".as_slice())
        .unwrap_or(text)
        .split(|b| *b == b'\n')
    {
        number = usize::wrapping_add(number, 1);
        if number != edit.line {
            push_line(&mut bytes, line)?;
            continue;
        }
        match edit.change {
            Change::Becomes(new) => push_line(&mut bytes, new.as_bytes())?,
            Change::After(new) => {
                push_line(&mut bytes, new.as_bytes())?;
                push_line(&mut bytes, line)?;
            }
            Change::Goes => {}
        }
    }
    Ok(bytes)
}
