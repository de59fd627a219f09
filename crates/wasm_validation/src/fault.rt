use wasm_below::{BinaryReader, Error};
use wasm_check::CheckError;
use wasm_context::Context;
use wasm_module_context::PayloadError;

/// A function body that is not typed.
#[derive(Drop)]
pub struct FaultyBody<'a> {
    /// The context of the module.
    pub context: Context,
    /// The index of the function.
    pub function: u32,
    /// The body, without its size.
    pub body: BinaryReader<'a>,
    pub error: CheckError,
}

/// The first error of a module.
#[derive(Drop)]
pub enum Fault<'a> {
    /// The module cannot be read.
    Parse(Error),
    /// A section is not valid.
    Section(PayloadError),
    /// The section at this offset has this id, which is unknown.
    UnknownSection(u8, u64),
    /// The body at this offset belongs to no function.
    NoFunction(u64),
    Body(FaultyBody<'a>),
}
