//! Reads of values, as C structs.
ghost use Rattle.std.specs.Prelude.{length};
ghost use Rattle.std.specs.Int.{w32, w64};
ghost use Rattle.wasm_operators.specs.below.declared.message.SizeName.TheVariants as size_name;
ghost use Rattle.wasm_operators.specs.below.FromReader.{EncodesReader, ReaderFault};
ghost use Rattle.wasm_operators.specs.below.Number.{EncodesUnsigned, EncodesSigned, EncodesFixed, EncodesSize};
ghost use Rattle.wasm_operators.specs.below.Source.{IsByte, IsBlock, EndFault, EndsWithin, CountFault, U32Fault, U64Fault, I32Fault, S33Fault, I64Fault};
ghost use Rattle.wasm_operators.specs.below.TypeEncoding.{EncodesHeapType, EncodesRefType, EncodesValType, HeapTypeFault, RefTypeFault, ValTypeFault};
ghost use Rattle.wasm_operators.specs.imm.BlockTypeFaults.{BlockTypeFault};
ghost use Rattle.wasm_operators.specs.imm.BlockTypes.{EncodesBlockType};
ghost use Rattle.wasm_operators.specs.imm.HandlerFaults.{CatchFault, HandleFault};
ghost use Rattle.wasm_operators.specs.imm.Handlers.{EncodesCatch, EncodesHandle};
ghost use Rattle.wasm_view.specs.Members.{catch_of, handle_of};
ghost use Rattle.wasm_c.specs.Values.{ReadsAs, ReadsKind, ReadsLocals, ReadsLocal, ReadsConstant, number_value, signed_value, of_value_type, of_reference_type, of_heap_type, of_block_type, of_handler};

use crate::value::WasmValue;
use crate::value_kind::ValueKind;
use std::alloc::Global;
use wasm_operators::{
    BinaryReader, BlockType, Catch, ConstExpr, Error, FunctionBody, Handle, HeapType, Message,
    RefType, Result, SizeName, ValType,
};
use wasm_view::{catch_of, handle_of};

fn read_u8(reader: &mut BinaryReader<'_>) -> Result<WasmValue>
    ensures { ReadsAs IsByte number_value EndFault result reader.old reader.new }
{
    match reader.read_u8() {
        Ok(byte) => Ok(WasmValue::number(u64::from(byte))),
        Err(e) => Err(e),
    }
}

fn read_u32(reader: &mut BinaryReader<'_>) -> Result<WasmValue>
    ensures { ReadsAs (EncodesFixed w32) number_value (EndsWithin 4) result reader.old reader.new }
{
    match reader.read_u32() {
        Ok(number) => Ok(WasmValue::number(u64::from(number))),
        Err(e) => Err(e),
    }
}

fn read_u64(reader: &mut BinaryReader<'_>) -> Result<WasmValue>
    ensures { ReadsAs (EncodesFixed w64) number_value (EndsWithin 8) result reader.old reader.new }
{
    match reader.read_u64() {
        Ok(number) => Ok(WasmValue::number(number)),
        Err(e) => Err(e),
    }
}

fn read_var_u32(reader: &mut BinaryReader<'_>) -> Result<WasmValue>
    ensures { ReadsAs (EncodesUnsigned 32) number_value U32Fault result reader.old reader.new }
{
    match reader.read_var_u32() {
        Ok(number) => Ok(WasmValue::number(u64::from(number))),
        Err(e) => Err(e),
    }
}

fn read_var_u64(reader: &mut BinaryReader<'_>) -> Result<WasmValue>
    ensures { ReadsAs (EncodesUnsigned 64) number_value U64Fault result reader.old reader.new }
{
    match reader.read_var_u64() {
        Ok(number) => Ok(WasmValue::number(number)),
        Err(e) => Err(e),
    }
}

fn read_var_i32(reader: &mut BinaryReader<'_>) -> Result<WasmValue>
    ensures { ReadsAs (EncodesSigned 32) signed_value I32Fault result reader.old reader.new }
{
    match reader.read_var_i32() {
        Ok(number) => Ok(WasmValue::signed(i64::from(number))),
        Err(e) => Err(e),
    }
}

fn read_var_s33(reader: &mut BinaryReader<'_>) -> Result<WasmValue>
    ensures { ReadsAs (EncodesSigned 33) signed_value S33Fault result reader.old reader.new }
{
    match reader.read_var_s33() {
        Ok(number) => Ok(WasmValue::signed(number)),
        Err(e) => Err(e),
    }
}

fn read_var_i64(reader: &mut BinaryReader<'_>) -> Result<WasmValue>
    ensures { ReadsAs (EncodesSigned 64) signed_value I64Fault result reader.old reader.new }
{
    match reader.read_var_i64() {
        Ok(number) => Ok(WasmValue::signed(number)),
        Err(e) => Err(e),
    }
}

fn read_size(reader: &mut BinaryReader<'_>, limit: u64) -> Result<WasmValue>
    ensures { ReadsAs (EncodesSize limit) number_value (CountFault size_name.BrTable limit) result reader.old reader.new }
{
    match reader.read_size(limit as usize, SizeName::BrTable) {
        Ok(count) => Ok(WasmValue::number(count as u64)),
        Err(e) => Err(e),
    }
}

fn read_bytes(reader: &mut BinaryReader<'_>, count: u64) -> Result<WasmValue>
    ensures { ReadsAs (IsBlock count) (λ block. number_value (length block.now)) (EndsWithin count) result reader.old reader.new }
{
    match reader.read_bytes(count as usize) {
        Ok(block) => Ok(WasmValue::number(block.len() as u64)),
        Err(e) => Err(e),
    }
}

fn read_sized(reader: &mut BinaryReader<'_>) -> Result<WasmValue>
    ensures { ReadsAs (EncodesReader reader.old.features) (λ part. number_value (length part.buffer)) ReaderFault result reader.old reader.new }
{
    match reader.read_reader() {
        Ok(part) => Ok(WasmValue::number(part.bytes_remaining() as u64)),
        Err(e) => Err(e),
    }
}

fn read_locals(reader: &mut BinaryReader<'_>) -> Result<WasmValue>
    ensures { ReadsLocals result reader.old reader.new }
{
    match FunctionBody::new(reader.clone()).get_binary_reader_for_operators() {
        Ok(after) => {
            reader.set_position(after.current_position());
            Ok(WasmValue::number(0))
        }
        Err(e) => Err(e),
    }
}

fn read_constant(alloc: Global, reader: &mut BinaryReader<'_>) -> Result<WasmValue>
    ensures { ReadsConstant result reader.old reader.new }
{
    match ConstExpr::read(alloc, reader) {
        Ok(constant) => {
            let bytes = constant.get_binary_reader();
            Ok(WasmValue::number(bytes.bytes_remaining() as u64))
        }
        Err(e) => Err(e),
    }
}

fn read_value_type(reader: &mut BinaryReader<'_>) -> Result<WasmValue>
    ensures { ReadsAs EncodesValType of_value_type ValTypeFault result reader.old reader.new }
{
    match ValType::read(reader) {
        Ok(ty) => Ok(WasmValue::of_value_type(ty)),
        Err(e) => Err(e),
    }
}

fn read_reference_type(reader: &mut BinaryReader<'_>) -> Result<WasmValue>
    ensures { ReadsAs EncodesRefType of_reference_type RefTypeFault result reader.old reader.new }
{
    match RefType::read(reader) {
        Ok(ty) => Ok(WasmValue::of_reference_type(ty)),
        Err(e) => Err(e),
    }
}

fn read_heap_type(reader: &mut BinaryReader<'_>) -> Result<WasmValue>
    ensures { ReadsAs EncodesHeapType of_heap_type HeapTypeFault result reader.old reader.new }
{
    match HeapType::read(reader) {
        Ok(ty) => Ok(WasmValue::of_heap_type(ty)),
        Err(e) => Err(e),
    }
}

fn read_block_type(reader: &mut BinaryReader<'_>) -> Result<WasmValue>
    ensures { ReadsAs EncodesBlockType of_block_type BlockTypeFault result reader.old reader.new }
{
    match BlockType::read(reader) {
        Ok(ty) => Ok(WasmValue::of_block_type(ty)),
        Err(e) => Err(e),
    }
}

/// Reads a declaration of locals, after declarations of `total` locals.
fn read_local(reader: &mut BinaryReader<'_>, total: u64) -> Result<WasmValue>
    ensures { ReadsLocal total result reader.old reader.new }
{
    let mut ahead = reader.clone();
    let number = match ahead.read_var_u32() {
        Ok(number) => number,
        Err(e) => return Err(e),
    };
    if total > u64::from(u32::MAX - number) {
        return Err(Error::new(Message::TooManyLocals, ahead.original_position()));
    }
    match ValType::read(&mut ahead) {
        Ok(ty) => {
            *reader = ahead;
            Ok(WasmValue::of_declaration(number, ty))
        }
        Err(e) => Err(e),
    }
}

fn read_catch(reader: &mut BinaryReader<'_>) -> Result<WasmValue>
    ensures { ReadsAs EncodesCatch (λ c. of_handler (catch_of c)) CatchFault result reader.old reader.new }
{
    match Catch::read(reader) {
        Ok(catch) => Ok(WasmValue::of_handler(catch_of(&catch))),
        Err(e) => Err(e),
    }
}

fn read_clause(reader: &mut BinaryReader<'_>) -> Result<WasmValue>
    ensures { ReadsAs EncodesHandle (λ h. of_handler (handle_of h)) HandleFault result reader.old reader.new }
{
    match Handle::read(reader) {
        Ok(clause) => Ok(WasmValue::of_handler(handle_of(&clause))),
        Err(e) => Err(e),
    }
}

/// Reads a value of this kind. On failure the reader is unchanged.
pub fn read_kind(
    alloc: Global,
    kind: ValueKind,
    argument: u64,
    reader: &mut BinaryReader<'_>,
) -> Result<WasmValue>
    ensures { ReadsKind kind argument result reader.old reader.new }
{
    match kind {
        ValueKind::U8 => read_u8(reader),
        ValueKind::U32 => read_u32(reader),
        ValueKind::U64 => read_u64(reader),
        ValueKind::VarU32 => read_var_u32(reader),
        ValueKind::VarU64 => read_var_u64(reader),
        ValueKind::VarI32 => read_var_i32(reader),
        ValueKind::VarS33 => read_var_s33(reader),
        ValueKind::VarI64 => read_var_i64(reader),
        ValueKind::Size => read_size(reader, argument),
        ValueKind::Bytes => read_bytes(reader, argument),
        ValueKind::Sized => read_sized(reader),
        ValueKind::Locals => read_locals(reader),
        ValueKind::Constant => read_constant(alloc, reader),
        ValueKind::ValueType => read_value_type(reader),
        ValueKind::ReferenceType => read_reference_type(reader),
        ValueKind::HeapType => read_heap_type(reader),
        ValueKind::BlockType => read_block_type(reader),
        ValueKind::Local => read_local(reader, argument),
        ValueKind::Catch => read_catch(reader),
        ValueKind::Clause => read_clause(reader),
    }
}
