use super::write_result;
use crate::failure::Written;
use wasm_below::{BinaryReader, SizeName};
use wasm_imm::ReadImmediates;

#[derive(Clone, Copy)]
pub enum Number {
    U8,
    U32,
    U64,
    VarU32,
    VarU64,
    VarI32,
    VarS33,
    VarI64,
    F32,
    F64,
    Bytes,
    Size,
}

impl Number {
    /// Writes the result. `argument` is the length for `read_bytes`, the limit for `read_size`.
    pub fn write(self, text: &mut String, argument: u8, reader: &mut BinaryReader<'_>) -> Written {
        let argument = usize::from(argument);
        match self {
            Number::U8 => write_result(text, reader.read_u8(), reader),
            Number::U32 => write_result(text, reader.read_u32(), reader),
            Number::U64 => write_result(text, reader.read_u64(), reader),
            Number::VarU32 => write_result(text, reader.read_var_u32(), reader),
            Number::VarU64 => write_result(text, reader.read_var_u64(), reader),
            Number::VarI32 => write_result(text, reader.read_var_i32(), reader),
            Number::VarS33 => write_result(text, reader.read_var_s33(), reader),
            Number::VarI64 => write_result(text, reader.read_var_i64(), reader),
            Number::F32 => write_result(text, reader.read_f32(), reader),
            Number::F64 => write_result(text, reader.read_f64(), reader),
            Number::Bytes => write_result(text, reader.read_bytes(argument), reader),
            Number::Size => {
                write_result(text, reader.read_size(argument, SizeName::Catches), reader)
            }
        }
    }
}
