//! The words of a command line.

use std::alloc::{AllocError, Global};

/// Appends a character to the word that is begun, or begins one.
fn push_char(alloc: Global, word: &mut Option<String>, c: char) -> Result<(), AllocError> {
    match word {
        Some(begun) => begun.push(c)?,
        None => {
            let mut begun = String::new(alloc);
            begun.push(c)?;
            *word = Some(begun);
        }
    }
    Ok(())
}

/// The words, parted by blanks. What stands between two quotes belongs to one word.
pub(crate) fn words(alloc: Global, line: &str) -> Result<Vec<String>, AllocError> {
    let mut words = Vec::new(alloc);
    let mut word = None;
    let mut is_quoted = false;
    for c in line.chars() {
        if c == '\'' {
            is_quoted = !is_quoted;
            if word.is_none() {
                word = Some(String::new(alloc));
            }
        } else if c != ' ' || is_quoted {
            push_char(alloc, &mut word, c)?;
        } else if let Some(ended) = word.take() {
            words.push(ended)?;
        }
    }
    if let Some(ended) = word {
        words.push(ended)?;
    }
    Ok(words)
}
