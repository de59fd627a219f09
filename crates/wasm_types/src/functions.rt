ghost use Rattle.std.specs.Prelude.{◌≡◌};
ghost use Rattle.wasm_types.specs.Types.{func_type, cont_type};

use std::alloc::Global;
use wasm_below::{BinaryReader, Error, Malformed, Message, Result, SizeName, ValType};
use wasm_grammars::{Read, read_list};
use wasm_imm::Members;

const MAX_PARAMS: usize = 1000;

const MAX_RESULTS: usize = 1000;

const MAX_TYPE_INDEX: i64 = 1048575;

/// Specification: Types, Composite Types.
#[derive(Debug, PartialEq, Eq, Drop)]
pub struct FuncType {
    pub params: Members<ValType>,
    pub results: Members<ValType>,
}

impl FuncType {
    pub fn new(params: Members<ValType>, results: Members<ValType>) -> FuncType
        ensures params { result.params ≡ params }
        ensures results { result.results ≡ results }
    {
        FuncType { params, results }
    }

    pub fn params(&self) -> &[ValType]
        ensures { result.now ≡ self.now.params }
    {
        self.params.as_slice()
    }

    pub fn results(&self) -> &[ValType]
        ensures { result.now ≡ self.now.results }
    {
        self.results.as_slice()
    }
}

/// Fails with `SizeOutOfBounds` of `FunctionParams` or `FunctionReturns` at a count above 1000.
impl<'a> Read<'a> for FuncType {
    ghost grammar = { λ features. func_type };

    fn read_from(alloc: Global, reader: &mut BinaryReader<'a>) -> Result<FuncType> {
        let mut ahead = reader.clone();
        let params = read_list(alloc, &mut ahead, MAX_PARAMS, SizeName::FunctionParams)?;
        let results = read_list(alloc, &mut ahead, MAX_RESULTS, SizeName::FunctionReturns)?;
        *reader = ahead;
        Ok(FuncType { params, results })
    }
}

/// The type of a continuation: the index of its function's type. Proposal: stack switching.
#[derive(Clone, Copy, Debug, PartialEq, Eq)]
pub struct ContType(pub u32);

/// After the index, fails with `ContinuationType` if it is negative, and with `TypeIndex` if it is
/// above 1048575.
impl<'a> Read<'a> for ContType {
    ghost grammar = { λ features. cont_type };

    fn read_from(_alloc: Global, reader: &mut BinaryReader<'a>) -> Result<ContType> {
        let mut ahead = reader.clone();
        let index = ahead.read_var_s33()?;
        ahead.is_within();
        if index < 0 {
            return Err(Error::new(
                Message::Malformed(Malformed::ContinuationType),
                ahead.original_position(),
            ));
        }
        if index > MAX_TYPE_INDEX {
            return Err(Error::new(
                Message::Malformed(Malformed::TypeIndex),
                ahead.original_position(),
            ));
        }
        *reader = ahead;
        Ok(ContType(index as u32))
    }
}
