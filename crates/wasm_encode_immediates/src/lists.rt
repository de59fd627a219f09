//! Writes the immediates with lists. For these the vector may have to grow.
ghost use Rattle.std.specs.Prelude.{◌≡◌, ◌+◌, ◌*◌, ◌≤◌, [], ◌∷◌, length, List, ℕ, vec_len, vec_capacity};
ghost use Rattle.wasm_below.specs.Number.{EncodesUnsigned};
ghost use Rattle.wasm_below.specs.TypeEncoding.{EncodesValType};
ghost use Rattle.wasm_imm.specs.Handlers.{EncodesPair, EncodesCatch, EncodesHandle};
ghost use Rattle.wasm_imm.specs.Lists.{EncodesList};
ghost use Rattle.wasm_imm.specs.Immediate.{unsigned_32, branch_table, select_types, try_clauses, resume_clauses};
ghost use Rattle.wasm_imm.specs.declared.select.Select.TheVariants as select;
ghost use Rattle.wasm_encode_numbers.specs.Appended.{Appends};
ghost use Rattle.wasm_encode_immediates.specs.Lists.{After, HasListReason};
ghost use Rattle.wasm_encode_immediates.specs.Written.{WritesValue, WritesImmediates};

use crate::types::{write_block_type, write_value_type};
use crate::unwritable::Unwritable;
use wasm_below::{ValType, WasmFeatures};
use wasm_encode_numbers::{write_bytes, write_u32};
use wasm_imm::{BrTable, Catch, Handle, ResumeTable, SelectTypes, TryTable};

const MAX_SELECT_TYPES: usize = 10;

const MAX_CATCHES: usize = 10000;

const MAX_HANDLERS: usize = 10000;

/// A member of a list, of at most 21 bytes.
trait WritesMember: Copy {
    ghost encodes: { List ℕ → Self → Type 0 };

    fn write_member(self, out: &mut Vec<u8>)
        requires { vec_len out.old + 21 ≤ vec_capacity out.old }
        ensures written { Appends encodes self out.old.items out.new.items }
        ensures len { vec_len out.new ≤ vec_len out.old + 21 }
        ensures capacity { vec_capacity out.old ≤ vec_capacity out.new };
}

impl WritesMember for ValType {
    ghost encodes = { λ text ty. EncodesValType text ty };

    fn write_member(self, out: &mut Vec<u8>) {
        write_value_type(out, self);
    }
}

impl WritesMember for Catch {
    ghost encodes = { λ text c. EncodesCatch text c };

    fn write_member(self, out: &mut Vec<u8>) {
        match self {
            Catch::One { tag, label } => write_two(out, 0x00, tag, label),
            Catch::OneRef { tag, label } => write_two(out, 0x01, tag, label),
            Catch::All { label } => write_one(out, 0x02, label),
            Catch::AllRef { label } => write_one(out, 0x03, label),
        }
    }
}

impl WritesMember for Handle {
    ghost encodes = { λ text h. EncodesHandle text h };

    fn write_member(self, out: &mut Vec<u8>) {
        match self {
            Handle::OnLabel { tag, label } => write_two(out, 0x00, tag, label),
            Handle::OnSwitch { tag } => write_one(out, 0x01, tag),
        }
    }
}

fn write_one(out: &mut Vec<u8>, byte: u8, number: u32)
    requires { vec_len out.old + 11 ≤ vec_capacity out.old }
    ensures written { Appends (After byte (EncodesUnsigned 32)) number out.old.items out.new.items }
    ensures len { vec_len out.new ≤ vec_len out.old + 11 }
    ensures capacity { vec_capacity out.old ≤ vec_capacity out.new }
{
    out.push_reserved(byte);
    write_u32(out, number);
}

fn write_two(out: &mut Vec<u8>, byte: u8, first: u32, second: u32)
    requires { vec_len out.old + 21 ≤ vec_capacity out.old }
    ensures written { Appends (After byte EncodesPair) (first, second) out.old.items out.new.items }
    ensures len { vec_len out.new ≤ vec_len out.old + 21 }
    ensures capacity { vec_capacity out.old ≤ vec_capacity out.new }
{
    out.push_reserved(byte);
    write_u32(out, first);
    write_u32(out, second);
}

/// Appends the number of members and each of them, after reserving capacity for all. Fails with
/// `TooMany` above `limit`, or with `OutOfMemory`.
fn write_members<T: WritesMember>(
    out: &mut Vec<u8>,
    limit: usize,
    members: &[T],
) -> Result<(), Unwritable>
    requires { limit ≤ 10000 }
    ensures { WritesValue (EncodesList limit T.encodes) (HasListReason limit) members.now result out.old out.new }
{
    let count = members.len();
    if count > limit {
        return Err(Unwritable::TooMany);
    }
    match out.reserve(10 + 21 * count) {
        Ok(()) => {
            write_u32(out, count as u32);
            for member in members {
                (*member).write_member(out);
            }
            Ok(())
        }
        Err(_) => Err(Unwritable::OutOfMemory),
    }
}

/// Appends the only type of a `select`, with the count 1.
pub fn write_one_type(
    out: &mut Vec<u8>,
    _features: WasmFeatures,
    ty: ValType,
) -> Result<(), Unwritable>
    requires { vec_len out.old + 22 ≤ vec_capacity out.old }
    ensures { WritesImmediates _features (select_types (select.One ty) ∷ []) result out.old out.new }
{
    write_u32(out, 1);
    write_value_type(out, ty);
    Ok(())
}

/// Appends the types of a `select`. Fails with `SingleType` for one type, with `TooMany` for more
/// than 10, or with `OutOfMemory`.
pub fn write_types(
    out: &mut Vec<u8>,
    _features: WasmFeatures,
    tys: &SelectTypes,
) -> Result<(), Unwritable>
    ensures { WritesImmediates _features (select_types (select.Multi tys.now) ∷ []) result out.old out.new }
{
    let count = tys.len();
    if count == 1 {
        return Err(Unwritable::SingleType);
    }
    write_members::<ValType>(out, MAX_SELECT_TYPES, tys.as_slice())
}

/// Appends the block type and the catches of a `try_table`. Fails with `TooMany` for more than
/// 10000 catches, or with `OutOfMemory`.
pub fn write_try_table(
    out: &mut Vec<u8>,
    _features: WasmFeatures,
    table: &TryTable,
) -> Result<(), Unwritable>
    requires { vec_len out.old + 12 ≤ vec_capacity out.old }
    ensures { WritesImmediates _features (try_clauses table.now ∷ []) result out.old out.new }
{
    write_block_type(out, table.ty);
    write_members::<Catch>(out, MAX_CATCHES, table.catches.as_slice())
}

/// Appends the clauses of a `resume`. Fails with `TooMany` for more than 10000 clauses, or with
/// `OutOfMemory`.
fn write_clauses(
    out: &mut Vec<u8>,
    _features: WasmFeatures,
    table: &ResumeTable,
) -> Result<(), Unwritable>
    ensures { WritesImmediates _features (resume_clauses table.now ∷ []) result out.old out.new }
{
    write_members::<Handle>(out, MAX_HANDLERS, table.handlers.as_slice())
}

/// Appends an index and the clauses of a `resume`. Fails with `TooMany` for more than 10000
/// clauses, or with `OutOfMemory`.
pub fn write_resume(
    out: &mut Vec<u8>,
    features: WasmFeatures,
    first: u32,
    table: &ResumeTable,
) -> Result<(), Unwritable>
    requires { vec_len out.old + 10 ≤ vec_capacity out.old }
    ensures { WritesImmediates features (unsigned_32 first ∷ resume_clauses table.now ∷ []) result out.old out.new }
{
    write_u32(out, first);
    write_clauses(out, features, table)
}

/// Appends two indices and the clauses of a `resume_throw`. Fails with `TooMany` for more than
/// 10000 clauses, or with `OutOfMemory`.
pub fn write_resume_throw(
    out: &mut Vec<u8>,
    features: WasmFeatures,
    first: u32,
    second: u32,
    table: &ResumeTable,
) -> Result<(), Unwritable>
    requires { vec_len out.old + 20 ≤ vec_capacity out.old }
    ensures { WritesImmediates features (unsigned_32 first ∷ unsigned_32 second ∷ resume_clauses table.now ∷ [])
        result out.old out.new }
{
    write_u32(out, first);
    write_resume(out, features, second, table)
}

/// Appends a branch table: the count of targets, their bytes as they are, and the default target.
/// Fails with `OutOfMemory` only.
pub fn write_branch_table(
    out: &mut Vec<u8>,
    _features: WasmFeatures,
    table: &BrTable<'_>,
) -> Result<(), Unwritable>
    ensures { WritesImmediates _features (branch_table table.now ∷ []) result out.old out.new }
{
    let targets = table.target_bytes();
    match out.reserve(20 + targets.len()) {
        Ok(()) => {
            write_u32(out, table.len());
            write_bytes(out, targets);
            write_u32(out, table.default());
            Ok(())
        }
        Err(_) => Err(Unwritable::OutOfMemory),
    }
}
