use wasm_below::Error;

/// Why a listing of a module's sections is not written completely.
#[derive(Clone, Copy)]
pub enum Fault {
    /// A section is in error, after the lines that were written.
    Section(Error),
    /// The output can't be written.
    Writing,
    /// Allocation failed.
    Memory,
}
