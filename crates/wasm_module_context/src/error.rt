use wasm_below::{Error, RefType};
use wasm_check::CheckError;
use wasm_context::ContextError;

/// Why a payload cannot be added to a context.
#[derive(Clone, Copy, Debug)]
pub enum PayloadError {
    /// An item cannot be read.
    Decode(Error),
    /// An item cannot be added. The offset of the item, or of an operator `ref.func` in it.
    Context(ContextError, u64),
    /// A constant expression does not leave a value of the type that is expected.
    Constant(CheckError),
    /// The table at this offset has no initial value, and its element type has no default.
    NoInitialValue(u64),
    /// Elements of the active element segment at this offset have a type that does not match the
    /// element type of the table.
    ElementType {
        offset: u64,
        found: RefType,
        expected: RefType,
    },
    /// A section has this id, which no section has. The offset of its contents.
    UnknownSection(u8, u64),
}
