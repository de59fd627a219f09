//! The name of a function.

/// The name of a function, which need not be UTF-8.
#[derive(Clone, Copy, Debug, PartialEq, Eq)]
pub enum FunctionName<'a> {
    /// The name in the custom section `name`, or of an export; no bytes if there is none.
    Given(&'a [u8]),
    /// The names of an import's module and of the import.
    Imported(&'a [u8], &'a [u8]),
}
