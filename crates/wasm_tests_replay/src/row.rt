//! The lines of the input: columns, separated by tabs.

use bitflags::Flags;
use wasm_operators::WasmFeatures;

#[derive(Clone, Copy, Debug)]
pub struct Row<'r> {
    pub features: WasmFeatures,
    pub body: &'r str,
    /// The exit status, and the error's number, offset and text.
    pub status: &'r str,
    pub number: &'r str,
    pub offset: &'r str,
    pub text: &'r str,
    pub operators: &'r str,
    /// The hashes of the listing, without and with all fields.
    pub listing: &'r str,
    pub fields: &'r str,
    /// The lines of the listing, or `*`.
    pub lines: &'r str,
    /// How many visits a visitor without SIMD operators receives, and how they end.
    pub plain: &'r str,
    /// The results for the bytes as a constant expression, locals and a code section.
    pub constant: &'r str,
    pub locals: &'r str,
    pub section: &'r str,
}

pub fn row_of<'r>(line: &'r str) -> Option<Row<'r>> {
    let mut columns = line.split('\t');
    let _group = columns.next()?;
    let features = columns.next()?.parse::<u32>().ok()?;
    Some(Row {
        features: WasmFeatures::from_bits_retain(features),
        body: columns.next()?,
        status: columns.next()?,
        number: columns.next()?,
        offset: columns.next()?,
        text: columns.next()?,
        operators: columns.next()?,
        listing: columns.next()?,
        fields: columns.next()?,
        lines: columns.next()?,
        plain: columns.next()?,
        constant: columns.next()?,
        locals: columns.next()?,
        section: columns.next()?,
    })
}

/// An operator in a valid body, with all features.
#[derive(Clone, Copy, Debug)]
pub struct Sample<'r> {
    pub name: &'r str,
    /// The bytes before the operator, its own, and those after it, in hexadecimal.
    pub before: &'r str,
    pub operator: &'r str,
    pub after: &'r str,
    pub fields: &'r str,
}

pub fn sample_of<'r>(line: &'r str) -> Option<Sample<'r>> {
    let mut columns = line.split('\t');
    let name = columns.next()?;
    let "all" = columns.next()? else {
        return None;
    };
    Some(Sample {
        name,
        before: columns.next()?,
        operator: columns.next()?,
        after: columns.next()?,
        fields: columns.next()?,
    })
}

pub fn is_heading(line: &str) -> bool {
    line.starts_with("group\tfeatures\t") || line.starts_with("name\tfeatures\t")
}
