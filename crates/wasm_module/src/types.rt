ghost use Rattle.std.specs.Prelude.{◌≡◌, ◌++◌, ℕ, List, length, map, Some, IfOk, IfErr};
ghost use Rattle.std.specs.List.{All};
ghost use Rattle.wasm_below.specs.Number.{EncodesUnsigned};
ghost use Rattle.wasm_below.specs.Source.{Reader};
ghost use Rattle.wasm_module.specs.Types.{EncodesSubType};
ghost use Rattle.wasm_module.specs.declared.composite.CompositeType.{CompositeType};
ghost use Rattle.wasm_module.specs.Items.{IsList, ItemsOccur};
ghost use Rattle.wasm_module.specs.Parameters.{parameter_count, IsKnownType, CountsParameters};
ghost use Rattle.wasm_module.specs.Refusals.{SubTypesFault, TypesFault, FunctionsFault};

use crate::fault::ModuleFault;
use crate::growing::GrowingVec;
use crate::{CompositeType, module_laws, read_rec_type_len};
use std::alloc::Global;
use wasm_below::BinaryReader;
use wasm_below::byte_laws::unsigned_numbers;

fn parameter_count(ty: CompositeType) -> u32
    ensures { result ≡ parameter_count ty }
{
    match ty {
        CompositeType::Function { parameters, .. } => parameters,
        _ => 0,
    }
}

/// Reads `len` types and appends to `counts` the number of parameters of each, 0 unless it is a
/// function type. Fails with `TypeKind` at a type that is no function, structure or array type,
/// with the error of reading a type, or with `Memory`.
fn read_rec_type(
    reader: &mut BinaryReader<'_>,
    len: u32,
    counts: &mut GrowingVec<u32>,
) -> Result<(), ModuleFault>
    ensures ok { IfOk result (λ done. (types : List CompositeType) × (length types ≡ len) × ItemsOccur EncodesSubType reader.old types reader.new
        × All IsKnownType types × (counts.new.items ≡ counts.old.items ++ map parameter_count types)) }
    ensures refused { IfErr result (λ fault. (types : List CompositeType) → (end : Reader) → length types ≡ len
        → ItemsOccur EncodesSubType reader.old types end → All IsKnownType types → fault ≡ ModuleFault.Memory) }
    ensures fault { IfErr result (λ fault. SubTypesFault fault len reader.old) }
{
    module_laws::types();
    for _ty in 0..len {
        let offset = reader.original_position();
        let ty = CompositeType::read(reader)?;
        if let CompositeType::Other(kind) = ty {
            return Err(ModuleFault::TypeKind(kind, offset));
        }
        if counts.push(parameter_count(ty)).is_err() {
            return Err(ModuleFault::Memory);
        }
    }
    Ok(())
}

/// Returns the number of parameters of each type of a section: 0 if it is no function type.
///
/// Fails with `TypeKind` at a type that is no function, structure or array type, with the error of
/// a count or a type, or with `Memory`.
pub fn parameter_counts(
    alloc: Global,
    contents: BinaryReader<'_>,
) -> Result<GrowingVec<u32>, ModuleFault>
    ensures ok { IfOk result (λ counts. CountsParameters (Some contents.entry) counts.items) }
    ensures refused { IfErr result (λ fault. (counts : List ℕ) → CountsParameters (Some contents.entry) counts → fault ≡ ModuleFault.Memory) }
    ensures fault { IfErr result (λ fault. TypesFault fault contents.entry) }
{
    unsigned_numbers();
    module_laws::types();
    let mut reader = contents;
    let mut counts = GrowingVec::new(alloc);
    let rec_types = reader.read_var_u32()?;
    for _rec_type in 0..rec_types {
        let len = read_rec_type_len(&mut reader)?;
        read_rec_type(&mut reader, len, &mut counts)?;
    }
    Ok(counts)
}

/// Returns the type index of each function of a section. Fails with the error of their number or of
/// an index, or with `Memory`.
pub fn function_types(
    alloc: Global,
    contents: BinaryReader<'_>,
) -> Result<GrowingVec<u32>, ModuleFault>
    ensures ok { IfOk result (λ types. IsList (EncodesUnsigned 32) contents.entry types.items) }
    ensures refused { IfErr result (λ fault. (types : List ℕ) → IsList (EncodesUnsigned 32) contents.entry types → fault ≡ ModuleFault.Memory) }
    ensures fault { IfErr result (λ fault. FunctionsFault fault contents.entry) }
{
    unsigned_numbers();
    let mut reader = contents;
    let mut types = GrowingVec::new(alloc);
    let count = reader.read_var_u32()?;
    for _function in 0..count {
        let ty = reader.read_var_u32()?;
        if types.push(ty).is_err() {
            return Err(ModuleFault::Memory);
        }
    }
    Ok(types)
}
