//! Capacity that is reserved before reading.
ghost use Rattle.std.specs.Prelude.{◌≡◌, ◌+◌, ◌*◌, ◌≤◌, [], List, length, IfOk, IfErr, OnOk, vec_capacity, vec_len};
ghost use Rattle.wasm_operators.specs.below.Source.{rest};
ghost use Rattle.wasm_operators.specs.instr.declared.operator.Operator.{Operator};
ghost use Rattle.wasm_operators.specs.opcodes.Allowed.{EncodesAllowed};
ghost use Rattle.wasm_operators.specs.Expression.{EncodesExpression};
ghost use Rattle.wasm_operators.specs.MainTheorem.{ReadSoFar, ReadsTree, SomeCame};
ghost use Rattle.wasm_operators.specs.Next.{ListMayAllocate};
ghost use Rattle.wasm_operators.specs.Reading.{Adds};
ghost use Rattle.wasm_operators.specs.Stack.{frame_memory};
ghost use Rattle.uses.specs.Input.{input};

use std::alloc::Global;
use wasm_operators::{
    BinaryReader, Error, Message, Operator, OperatorsReader, OperatorsReaderAllocations, Result,
    WasmFeatures, expression_laws,
};

/// Creates a reader with capacity for all frames, and reserves capacity in `list` for all
/// operators.
fn reserve<'a>(
    alloc: Global,
    reader: BinaryReader<'a>,
    list: &mut Vec<(Operator<'a>, u64)>,
) -> Result<OperatorsReader<'a>>
    ensures reader { IfOk result (λ operators. operators.reader ≡ reader.entry) }
    ensures read_so_far { IfOk result (λ operators. ReadSoFar [] operators) }
    ensures frames { IfOk result (λ operators. length (rest reader.entry) ≤ 2 * operators.room) }
    ensures list { OnOk result (vec_len list.new + length (rest reader.entry) ≤ vec_capacity list.new) }
    ensures same { list.new.items ≡ list.old.items }
{
    let bytes = reader.bytes_remaining();
    if list.try_reserve(bytes).is_err() {
        return Err(Error::new(Message::OutOfMemory, reader.original_position()));
    }
    let mut allocs = OperatorsReaderAllocations::new(alloc);
    allocs.reserve(bytes / 2 + 1)?;
    Ok(OperatorsReader::new_with_allocs(alloc, reader, allocs))
}

/// Reads the rest of an expression with reserved capacity: allocation can fail only for an
/// operator's list. With more capacity (clause `same`), the frames' memory stays the same.
///
/// The clauses `kept` and `runs` of `read_all` say that no capacity is lost. By `depth` and the law
/// `layouts`, one frame for two bytes and one operator a byte are enough.
pub fn read_reserved<'a>(
    operators: &mut OperatorsReader<'a>,
    list: &mut Vec<(Operator<'a>, u64)>,
) -> Result<()>
    requires frames { length (rest operators.old.reader) ≤ 2 * operators.old.room }
    requires list { vec_len list.old + length (rest operators.old.reader) ≤ vec_capacity list.old }
    ensures tree { (before : List Operator) → ReadSoFar before operators.old
        → OnOk result (SomeCame (Adds list.old.items list.new.items) (ReadsTree before operators.old operators.new)) }
    ensures memory { IfErr result (λ e. e.message ≡ Message.OutOfMemory → ListMayAllocate EncodesAllowed operators.new) }
    ensures same { 2 * length operators.old.frames + length (rest operators.old.reader) + 10
        ≤ frame_memory operators.old.frames operators.old.room
        → frame_memory operators.new.frames operators.new.room ≡ frame_memory operators.old.frames operators.old.room }
{
    expression_laws::layouts(operators.get_binary_reader().features());
    operators.read_all(list)
}

/// Returns the operators of an expression. Reserves capacity for them and their frames before
/// reading.
pub fn operators_reserved<'a>(
    alloc: Global,
    features: WasmFeatures,
    bytes: &'a [u8],
) -> Result<Vec<(Operator<'a>, u64)>>
    ensures { IfOk result (λ found. EncodesExpression (input features bytes.now) found.items) }
{
    let mut found = Vec::new(alloc);
    let reader = BinaryReader::new_features(bytes, 0, features);
    let mut operators = reserve(alloc, reader, &mut found)?;
    read_reserved(&mut operators, &mut found)?;
    Ok(found)
}
