//! Written by tools/lists.py from tools/operators.tsv.
ghost use Rattle.std.specs.Prelude.{◌≡◌};
ghost use Rattle.wasm_instr_ops.specs.Gc.{gc_proposal, gc_name, gc_subopcode};

use wasm_below::{HeapType, RefType};
use wasm_imm::{OperatorInfo, Proposal};

/// The operators with the prefix byte 0xfb: structures, arrays and casts. Aggregate Instructions;
/// proposal custom descriptors.
#[derive(Clone, Copy, Debug, PartialEq, Eq)]
pub enum GcOperator {
    StructNew {
        struct_type_index: u32,
    },
    StructNewDefault {
        struct_type_index: u32,
    },
    StructGet {
        struct_type_index: u32,
        field_index: u32,
    },
    StructGetS {
        struct_type_index: u32,
        field_index: u32,
    },
    StructGetU {
        struct_type_index: u32,
        field_index: u32,
    },
    StructSet {
        struct_type_index: u32,
        field_index: u32,
    },
    ArrayNew {
        array_type_index: u32,
    },
    ArrayNewDefault {
        array_type_index: u32,
    },
    ArrayNewFixed {
        array_type_index: u32,
        array_size: u32,
    },
    ArrayNewData {
        array_type_index: u32,
        array_data_index: u32,
    },
    ArrayNewElem {
        array_type_index: u32,
        array_elem_index: u32,
    },
    ArrayGet {
        array_type_index: u32,
    },
    ArrayGetS {
        array_type_index: u32,
    },
    ArrayGetU {
        array_type_index: u32,
    },
    ArraySet {
        array_type_index: u32,
    },
    ArrayLen,
    ArrayFill {
        array_type_index: u32,
    },
    ArrayCopy {
        array_type_index_dst: u32,
        array_type_index_src: u32,
    },
    ArrayInitData {
        array_type_index: u32,
        array_data_index: u32,
    },
    ArrayInitElem {
        array_type_index: u32,
        array_elem_index: u32,
    },
    RefTestNonNull {
        hty: HeapType,
    },
    RefTestNullable {
        hty: HeapType,
    },
    RefCastNonNull {
        hty: HeapType,
    },
    RefCastNullable {
        hty: HeapType,
    },
    BrOnCast {
        relative_depth: u32,
        from_ref_type: RefType,
        to_ref_type: RefType,
    },
    BrOnCastFail {
        relative_depth: u32,
        from_ref_type: RefType,
        to_ref_type: RefType,
    },
    AnyConvertExtern,
    ExternConvertAny,
    RefI31,
    I31GetS,
    I31GetU,
    StructNewDesc {
        struct_type_index: u32,
    },
    StructNewDefaultDesc {
        struct_type_index: u32,
    },
    RefGetDesc {
        type_index: u32,
    },
    RefCastDescEqNonNull {
        hty: HeapType,
    },
    RefCastDescEqNullable {
        hty: HeapType,
    },
    BrOnCastDescEq {
        relative_depth: u32,
        from_ref_type: RefType,
        to_ref_type: RefType,
    },
    BrOnCastDescEqFail {
        relative_depth: u32,
        from_ref_type: RefType,
        to_ref_type: RefType,
    },
}

impl GcOperator {
    /// Returns the row of the operator.
    pub fn info(&self) -> OperatorInfo
        ensures proposal { result.proposal ≡ gc_proposal self.now }
        ensures name { result.name.now ≡ gc_name self.now }
        ensures prefix { result.prefix ≡ Some 0xfb }
        ensures code { result.code ≡ gc_subopcode self.now }
    {
        OperatorInfo {
            proposal: self.proposal(),
            name: self.name(),
            prefix: Some(0xfb),
            code: self.code(),
        }
    }

    fn proposal(&self) -> Proposal
        ensures { result ≡ gc_proposal self.now }
    {
        match self {
            GcOperator::StructNewDesc { .. }
            | GcOperator::StructNewDefaultDesc { .. }
            | GcOperator::RefGetDesc { .. }
            | GcOperator::RefCastDescEqNonNull { .. }
            | GcOperator::RefCastDescEqNullable { .. }
            | GcOperator::BrOnCastDescEq { .. }
            | GcOperator::BrOnCastDescEqFail { .. } => Proposal::CustomDescriptors,
            _ => Proposal::Gc,
        }
    }

    fn name(&self) -> &'static str
        ensures { result.now ≡ gc_name self.now }
    {
        match self {
            GcOperator::StructNew { .. } => "StructNew",
            GcOperator::StructNewDefault { .. } => "StructNewDefault",
            GcOperator::StructGet { .. } => "StructGet",
            GcOperator::StructGetS { .. } => "StructGetS",
            GcOperator::StructGetU { .. } => "StructGetU",
            GcOperator::StructSet { .. } => "StructSet",
            GcOperator::ArrayNew { .. } => "ArrayNew",
            GcOperator::ArrayNewDefault { .. } => "ArrayNewDefault",
            GcOperator::ArrayNewFixed { .. } => "ArrayNewFixed",
            GcOperator::ArrayNewData { .. } => "ArrayNewData",
            GcOperator::ArrayNewElem { .. } => "ArrayNewElem",
            GcOperator::ArrayGet { .. } => "ArrayGet",
            GcOperator::ArrayGetS { .. } => "ArrayGetS",
            GcOperator::ArrayGetU { .. } => "ArrayGetU",
            GcOperator::ArraySet { .. } => "ArraySet",
            GcOperator::ArrayLen => "ArrayLen",
            GcOperator::ArrayFill { .. } => "ArrayFill",
            GcOperator::ArrayCopy { .. } => "ArrayCopy",
            GcOperator::ArrayInitData { .. } => "ArrayInitData",
            GcOperator::ArrayInitElem { .. } => "ArrayInitElem",
            GcOperator::RefTestNonNull { .. } => "RefTestNonNull",
            GcOperator::RefTestNullable { .. } => "RefTestNullable",
            GcOperator::RefCastNonNull { .. } => "RefCastNonNull",
            GcOperator::RefCastNullable { .. } => "RefCastNullable",
            GcOperator::BrOnCast { .. } => "BrOnCast",
            GcOperator::BrOnCastFail { .. } => "BrOnCastFail",
            GcOperator::AnyConvertExtern => "AnyConvertExtern",
            GcOperator::ExternConvertAny => "ExternConvertAny",
            GcOperator::RefI31 => "RefI31",
            GcOperator::I31GetS => "I31GetS",
            GcOperator::I31GetU => "I31GetU",
            GcOperator::StructNewDesc { .. } => "StructNewDesc",
            GcOperator::StructNewDefaultDesc { .. } => "StructNewDefaultDesc",
            GcOperator::RefGetDesc { .. } => "RefGetDesc",
            GcOperator::RefCastDescEqNonNull { .. } => "RefCastDescEqNonNull",
            GcOperator::RefCastDescEqNullable { .. } => "RefCastDescEqNullable",
            GcOperator::BrOnCastDescEq { .. } => "BrOnCastDescEq",
            GcOperator::BrOnCastDescEqFail { .. } => "BrOnCastDescEqFail",
        }
    }

    /// Returns the subopcode.
    #[inline(always)]
    pub fn code(&self) -> u32
        ensures { result ≡ gc_subopcode self.now }
    {
        match self {
            GcOperator::StructNew { .. } => 0x00,
            GcOperator::StructNewDefault { .. } => 0x01,
            GcOperator::StructGet { .. } => 0x02,
            GcOperator::StructGetS { .. } => 0x03,
            GcOperator::StructGetU { .. } => 0x04,
            GcOperator::StructSet { .. } => 0x05,
            GcOperator::ArrayNew { .. } => 0x06,
            GcOperator::ArrayNewDefault { .. } => 0x07,
            GcOperator::ArrayNewFixed { .. } => 0x08,
            GcOperator::ArrayNewData { .. } => 0x09,
            GcOperator::ArrayNewElem { .. } => 0x0a,
            GcOperator::ArrayGet { .. } => 0x0b,
            GcOperator::ArrayGetS { .. } => 0x0c,
            GcOperator::ArrayGetU { .. } => 0x0d,
            GcOperator::ArraySet { .. } => 0x0e,
            GcOperator::ArrayLen => 0x0f,
            GcOperator::ArrayFill { .. } => 0x10,
            GcOperator::ArrayCopy { .. } => 0x11,
            GcOperator::ArrayInitData { .. } => 0x12,
            GcOperator::ArrayInitElem { .. } => 0x13,
            GcOperator::RefTestNonNull { .. } => 0x14,
            GcOperator::RefTestNullable { .. } => 0x15,
            GcOperator::RefCastNonNull { .. } => 0x16,
            GcOperator::RefCastNullable { .. } => 0x17,
            GcOperator::BrOnCast { .. } => 0x18,
            GcOperator::BrOnCastFail { .. } => 0x19,
            GcOperator::AnyConvertExtern => 0x1a,
            GcOperator::ExternConvertAny => 0x1b,
            GcOperator::RefI31 => 0x1c,
            GcOperator::I31GetS => 0x1d,
            GcOperator::I31GetU => 0x1e,
            GcOperator::StructNewDesc { .. } => 0x20,
            GcOperator::StructNewDefaultDesc { .. } => 0x21,
            GcOperator::RefGetDesc { .. } => 0x22,
            GcOperator::RefCastDescEqNonNull { .. } => 0x23,
            GcOperator::RefCastDescEqNullable { .. } => 0x24,
            GcOperator::BrOnCastDescEq { .. } => 0x25,
            GcOperator::BrOnCastDescEqFail { .. } => 0x26,
        }
    }
}
