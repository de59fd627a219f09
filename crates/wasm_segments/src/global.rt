ghost use Rattle.wasm_segments.specs.Globals.{global};

use std::alloc::Global as Allocator;
use wasm_below::{BinaryReader, Result};
use wasm_externals::GlobalType;
use wasm_grammars::Read;

/// A global that the module defines. Specification: Global Section.
#[derive(Drop)]
pub struct Global<C> {
    pub ty: GlobalType,
    /// The value at the start.
    pub init_expr: C,
}

impl<'a, C: Read<'a>> Read<'a> for Global<C> {
    ghost grammar = { λ features. global features (C.grammar features) };

    fn read_from(alloc: Allocator, reader: &mut BinaryReader<'a>) -> Result<Global<C>> {
        let mut ahead = reader.clone();
        let ty = GlobalType::read_from(alloc, &mut ahead)?;
        let init_expr = C::read_from(alloc, &mut ahead)?;
        *reader = ahead;
        Ok(Global { ty, init_expr })
    }
}
