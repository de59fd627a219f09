use std::alloc::{AllocError, Global};
use wasm_tests_texts::read_hex;

/// An operator in an expression.
#[derive(Drop)]
pub struct Row {
    /// The bytes of the expression.
    pub expression: Vec<u8>,
    /// Where the operator starts in it.
    pub start: u64,
    /// The shortest encoding of the operator.
    pub operator: Vec<u8>,
    /// The expression with that.
    pub shortest: Vec<u8>,
}

/// Reads a row: name, the bytes of a body before the operator (of which the first is the number of
/// declarations), the operator, the bytes after it, and its shortest encoding.
pub fn row_of(alloc: Global, line: &str) -> Result<Row, AllocError> {
    let mut words = line.split('\t');
    let _name = words.next();
    let before = bytes(alloc, words.next())?;
    let given = bytes(alloc, words.next())?;
    let after = bytes(alloc, words.next())?;
    let operator = bytes(alloc, words.next())?;
    let before = before.as_slice().get(1..).unwrap_or(&[]);
    Ok(Row {
        expression: joined(alloc, before, given.as_slice(), after.as_slice())?,
        start: before.len() as u64,
        shortest: joined(alloc, before, operator.as_slice(), after.as_slice())?,
        operator,
    })
}

fn bytes(alloc: Global, word: Option<&str>) -> Result<Vec<u8>, AllocError> {
    let mut out = Vec::new(alloc);
    read_hex(&mut out, word.unwrap_or(""))?;
    Ok(out)
}

/// Returns the bytes one after another.
pub fn joined(
    alloc: Global,
    first: &[u8],
    second: &[u8],
    third: &[u8],
) -> Result<Vec<u8>, AllocError> {
    let mut out = Vec::new(alloc);
    out.extend_from_slice(first)?;
    out.extend_from_slice(second)?;
    out.extend_from_slice(third)?;
    Ok(out)
}
