ghost use Rattle.std.specs.Prelude.{◌≡◌};
ghost use Rattle.wasm_constants.specs.Constants.{const_expr};

use std::alloc::Global;
use std::marker::Model;
use wasm_below::{BinaryReader, Result};
use wasm_grammars::Read;
use wasm_operators::ConstExpr;

/// A constant expression that is a part of an item; in contracts, the reader of its bytes.
#[derive(Drop)]
pub struct Constant<'a> {
    expression: ConstExpr<'a>,
}

impl<'a> Model for Constant<'a> {
    ghost use Rattle.wasm_below.specs.Source.{Reader};

    ghost Value = { Reader };

    ghost view = { λ c. c.expression };
}

impl<'a> Constant<'a> {
    pub fn expression(&self) -> &ConstExpr<'a>
        ensures { result.now ≡ self.now }
    {
        &self.expression
    }
}

impl<'a> Read<'a> for Constant<'a> {
    ghost grammar = { const_expr };

    /// Reads the operators up to the first `end`. Fails like `ConstExpr::read`.
    fn read_from(alloc: Global, reader: &mut BinaryReader<'a>) -> Result<Constant<'a>> {
        match ConstExpr::read(alloc, reader) {
            Ok(expression) => Ok(Constant { expression }),
            Err(e) => Err(e),
        }
    }
}
