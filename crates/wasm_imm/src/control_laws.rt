//! Laws of the immediates of control operators: encodings are prefix codes, faults determine
//! errors, and `==` is exact. For catches, clauses and their tables, `is_prefix_code` and
//! `determines_refusal` of `FromReader` state the first two.
ghost use Rattle.std.specs.Prelude.{◌≡◌, ℕ, List, [], ◌∷◌, map, true, Result, Ok, Err};
ghost use Rattle.wasm_below.specs.declared.error.Error.{Error};
ghost use Rattle.wasm_below.specs.declared.features.WasmFeatures.{WasmFeatures};
ghost use Rattle.wasm_below.specs.declared.message.SizeName.{SizeName};
ghost use Rattle.wasm_below.specs.Equality.{IsExact};
ghost use Rattle.wasm_below.specs.Fault.{DeterminesRefusal};
ghost use Rattle.wasm_below.specs.Number.{EncodesUnsigned};
ghost use Rattle.wasm_below.specs.Sequence.{PrefixCode};
ghost use Rattle.wasm_imm.specs.BlockTypeFaults.{BlockTypeFault};
ghost use Rattle.wasm_imm.specs.BlockTypes.{EncodesBlockType};
ghost use Rattle.wasm_imm.specs.BranchTableFaults.{BranchTableFault};
ghost use Rattle.wasm_imm.specs.BranchTables.{BranchTable, EncodesBranchTable, numbers_of};
ghost use Rattle.wasm_imm.specs.CastFaults.{CastFault};
ghost use Rattle.wasm_imm.specs.Casts.{EncodesCast};
ghost use Rattle.wasm_imm.specs.HandlerTables.{EncodesSelect};
ghost use Rattle.wasm_imm.specs.ListFaults.{ListFault, SelectFault};
ghost use Rattle.wasm_imm.specs.Lists.{EncodesMany};
ghost use Rattle.wasm_imm.specs.BranchTableEquality.{same_table};

use crate::{BlockType, ResumeTable, TryTable};
use wasm_below::FromReader;

pub fn block_types()
    ensures { PrefixCode EncodesBlockType }
{}

pub fn branch_tables()
    ensures { PrefixCode EncodesBranchTable }
{}

pub fn casts()
    ensures { PrefixCode EncodesCast }
{}

pub fn select_types()
    ensures { PrefixCode EncodesSelect }
{}

pub fn control_refusals()
    ensures block { DeterminesRefusal BlockTypeFault }
    ensures table { DeterminesRefusal BranchTableFault }
    ensures cast { DeterminesRefusal CastFault }
    ensures select { DeterminesRefusal SelectFault }
{}

/// States that the fault of a list of members that `FromReader` reads determines the error.
pub fn list_refusals<'a, T: FromReader<'a>>()
    ensures { (name : SizeName) (limit : ℕ) (features : WasmFeatures)
        → DeterminesRefusal (ListFault name limit (T.encodes features) T.fault) }
{
    T::is_prefix_code();
    T::determines_refusal();
}

/// States that bytes encode one list of targets.
pub fn target_numbers()
    ensures { (count : ℕ) (text numbers : List ℕ) → EncodesMany (EncodesUnsigned 32) count text numbers → numbers_of text ≡ numbers }
{}

/// States that the items of an iterator over targets are the targets, one after another.
pub fn returned_targets()
    ensures next { (old new : List ℕ) (target : Result ℕ Error) (label : ℕ) → map Ok old ≡ target ∷ map Ok new
        → target ≡ Ok label → old ≡ label ∷ new }
    ensures ok { (old new : List ℕ) (target : Result ℕ Error) (e : Error) → map Ok old ≡ target ∷ map Ok new
        → target ≡ Err e → ⊥ }
    ensures end { (old : List ℕ) → map {B = Result ℕ Error} Ok old ≡ [] → old ≡ [] }
{}

/// States that equal branch tables have the same targets.
pub fn equal_tables()
    ensures { (s t : BranchTable) (m n : List ℕ)
        → same_table s t ≡ true
        → EncodesMany (EncodesUnsigned 32) s.count s.targets m
        → EncodesMany (EncodesUnsigned 32) t.count t.targets n
        → (m ≡ n) × (s.default ≡ t.default) }
{}

pub fn equality()
    ensures block { IsExact ⟦<BlockType as PartialEq>⟧.eq }
    ensures table { IsExact same_table }
    ensures catches { IsExact ⟦<TryTable as PartialEq>⟧.eq }
    ensures clauses { IsExact ⟦<ResumeTable as PartialEq>⟧.eq }
{}
