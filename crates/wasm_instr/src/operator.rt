//! Written by tools/lists.py from tools/operators.tsv.
ghost use Rattle.std.specs.Prelude.{◌≡◌, ◌↔◌, IsTrue, IfOk, IfErr};
ghost use Rattle.wasm_imm.specs.OutOfMemory.{IsOutOfMemoryAt};
ghost use Rattle.wasm_instr.specs.Row.{proposal_of, name_of, prefix_of, opcode_of};
ghost use Rattle.wasm_instr.specs.Kinds.{HasSimdProposal, IsSimd, HoldsList};

use std::alloc::Global;
use std::fmt::{self, Debug, Formatter};
use wasm_below::{HeapType, Result, ValType};
use wasm_imm::{
    BlockType, BrTable, Ieee32, Ieee64, MemArg, OperatorInfo, Proposal, ResumeTable, SelectTypes,
    TryTable,
};
use wasm_instr_ops::{AtomicOperator, GcOperator, MiscOperator, NumericOperator};
use wasm_instr_simd::SimdOperator;

/// An operator with its immediates.
///
/// `From` converts the operators of the inner enums, which are the last variants.
#[derive(Drop, PartialEq, Eq)]
pub enum Operator<'a> {
    Unreachable,
    Nop,
    Block {
        blockty: BlockType,
    },
    Loop {
        blockty: BlockType,
    },
    If {
        blockty: BlockType,
    },
    Else,
    End,
    Br {
        relative_depth: u32,
    },
    BrIf {
        relative_depth: u32,
    },
    BrTable {
        targets: BrTable<'a>,
    },
    Return,
    Call {
        function_index: u32,
    },
    CallIndirect {
        type_index: u32,
        table_index: u32,
    },
    Drop,
    Select,
    LocalGet {
        local_index: u32,
    },
    LocalSet {
        local_index: u32,
    },
    LocalTee {
        local_index: u32,
    },
    GlobalGet {
        global_index: u32,
    },
    GlobalSet {
        global_index: u32,
    },
    I32Load {
        memarg: MemArg,
    },
    I64Load {
        memarg: MemArg,
    },
    F32Load {
        memarg: MemArg,
    },
    F64Load {
        memarg: MemArg,
    },
    I32Load8S {
        memarg: MemArg,
    },
    I32Load8U {
        memarg: MemArg,
    },
    I32Load16S {
        memarg: MemArg,
    },
    I32Load16U {
        memarg: MemArg,
    },
    I64Load8S {
        memarg: MemArg,
    },
    I64Load8U {
        memarg: MemArg,
    },
    I64Load16S {
        memarg: MemArg,
    },
    I64Load16U {
        memarg: MemArg,
    },
    I64Load32S {
        memarg: MemArg,
    },
    I64Load32U {
        memarg: MemArg,
    },
    I32Store {
        memarg: MemArg,
    },
    I64Store {
        memarg: MemArg,
    },
    F32Store {
        memarg: MemArg,
    },
    F64Store {
        memarg: MemArg,
    },
    I32Store8 {
        memarg: MemArg,
    },
    I32Store16 {
        memarg: MemArg,
    },
    I64Store8 {
        memarg: MemArg,
    },
    I64Store16 {
        memarg: MemArg,
    },
    I64Store32 {
        memarg: MemArg,
    },
    MemorySize {
        mem: u32,
    },
    MemoryGrow {
        mem: u32,
    },
    I32Const {
        value: i32,
    },
    I64Const {
        value: i64,
    },
    F32Const {
        value: Ieee32,
    },
    F64Const {
        value: Ieee64,
    },
    RefEq,
    TypedSelect {
        ty: ValType,
    },
    TypedSelectMulti {
        tys: SelectTypes,
    },
    RefNull {
        hty: HeapType,
    },
    RefIsNull,
    RefFunc {
        function_index: u32,
    },
    TableGet {
        table: u32,
    },
    TableSet {
        table: u32,
    },
    ReturnCall {
        function_index: u32,
    },
    ReturnCallIndirect {
        type_index: u32,
        table_index: u32,
    },
    TryTable {
        try_table: TryTable,
    },
    Throw {
        tag_index: u32,
    },
    ThrowRef,
    Try {
        blockty: BlockType,
    },
    Catch {
        tag_index: u32,
    },
    Rethrow {
        relative_depth: u32,
    },
    Delegate {
        relative_depth: u32,
    },
    CatchAll,
    CallRef {
        type_index: u32,
    },
    ReturnCallRef {
        type_index: u32,
    },
    RefAsNonNull,
    BrOnNull {
        relative_depth: u32,
    },
    BrOnNonNull {
        relative_depth: u32,
    },
    ContNew {
        cont_type_index: u32,
    },
    ContBind {
        argument_index: u32,
        result_index: u32,
    },
    Suspend {
        tag_index: u32,
    },
    Resume {
        cont_type_index: u32,
        resume_table: ResumeTable,
    },
    ResumeThrow {
        cont_type_index: u32,
        tag_index: u32,
        resume_table: ResumeTable,
    },
    ResumeThrowRef {
        cont_type_index: u32,
        resume_table: ResumeTable,
    },
    Switch {
        cont_type_index: u32,
        tag_index: u32,
    },
    Numeric(NumericOperator),
    Gc(GcOperator),
    Misc(MiscOperator),
    Simd(SimdOperator),
    Atomic(AtomicOperator),
}

impl<'a> From<NumericOperator> for Operator<'a> {
    ghost use Rattle.std.specs.Prelude.{◌≡◌};
    ghost use Rattle.wasm_instr.specs.declared.operator.Operator.TheVariants.{Numeric};

    ghost from_gives = { λ inner operator. operator ≡ Numeric inner };

    fn from(operator: NumericOperator) -> Operator<'a> {
        Operator::Numeric(operator)
    }
}

impl<'a> From<GcOperator> for Operator<'a> {
    ghost use Rattle.std.specs.Prelude.{◌≡◌};
    ghost use Rattle.wasm_instr.specs.declared.operator.Operator.TheVariants.{Gc};

    ghost from_gives = { λ inner operator. operator ≡ Gc inner };

    fn from(operator: GcOperator) -> Operator<'a> {
        Operator::Gc(operator)
    }
}

impl<'a> From<MiscOperator> for Operator<'a> {
    ghost use Rattle.std.specs.Prelude.{◌≡◌};
    ghost use Rattle.wasm_instr.specs.declared.operator.Operator.TheVariants.{Misc};

    ghost from_gives = { λ inner operator. operator ≡ Misc inner };

    fn from(operator: MiscOperator) -> Operator<'a> {
        Operator::Misc(operator)
    }
}

impl<'a> From<SimdOperator> for Operator<'a> {
    ghost use Rattle.std.specs.Prelude.{◌≡◌};
    ghost use Rattle.wasm_instr.specs.declared.operator.Operator.TheVariants.{Simd};

    ghost from_gives = { λ inner operator. operator ≡ Simd inner };

    fn from(operator: SimdOperator) -> Operator<'a> {
        Operator::Simd(operator)
    }
}

impl<'a> From<AtomicOperator> for Operator<'a> {
    ghost use Rattle.std.specs.Prelude.{◌≡◌};
    ghost use Rattle.wasm_instr.specs.declared.operator.Operator.TheVariants.{Atomic};

    ghost from_gives = { λ inner operator. operator ≡ Atomic inner };

    fn from(operator: AtomicOperator) -> Operator<'a> {
        Operator::Atomic(operator)
    }
}

impl<'a> Operator<'a> {
    /// Returns the row of the operator.
    pub fn info(&self) -> OperatorInfo
        ensures proposal { result.proposal ≡ proposal_of self.now }
        ensures name { result.name.now ≡ name_of self.now }
        ensures prefix { result.prefix ≡ prefix_of self.now }
        ensures code { result.code ≡ opcode_of self.now }
    {
        match self {
            Operator::Numeric(op) => op.info(),
            Operator::Gc(op) => op.info(),
            Operator::Misc(op) => op.info(),
            Operator::Simd(op) => op.info(),
            Operator::Atomic(op) => op.info(),
            _ => OperatorInfo {
                proposal: self.proposal(),
                name: self.name(),
                prefix: None,
                code: self.code(),
            },
        }
    }

    fn proposal(&self) -> Proposal
        ensures { result ≡ proposal_of self.now }
    {
        match self {
            Operator::RefEq => Proposal::Gc,
            Operator::TypedSelect { .. }
            | Operator::TypedSelectMulti { .. }
            | Operator::RefNull { .. }
            | Operator::RefIsNull
            | Operator::RefFunc { .. }
            | Operator::TableGet { .. }
            | Operator::TableSet { .. } => Proposal::ReferenceTypes,
            Operator::ReturnCall { .. } | Operator::ReturnCallIndirect { .. } => Proposal::TailCall,
            Operator::TryTable { .. } | Operator::Throw { .. } | Operator::ThrowRef =>
                Proposal::Exceptions,
            Operator::Try { .. }
            | Operator::Catch { .. }
            | Operator::Rethrow { .. }
            | Operator::Delegate { .. }
            | Operator::CatchAll => Proposal::LegacyExceptions,
            Operator::CallRef { .. }
            | Operator::ReturnCallRef { .. }
            | Operator::RefAsNonNull
            | Operator::BrOnNull { .. }
            | Operator::BrOnNonNull { .. } => Proposal::FunctionReferences,
            Operator::ContNew { .. }
            | Operator::ContBind { .. }
            | Operator::Suspend { .. }
            | Operator::Resume { .. }
            | Operator::ResumeThrow { .. }
            | Operator::ResumeThrowRef { .. }
            | Operator::Switch { .. } => Proposal::StackSwitching,
            Operator::Numeric(op) => op.info().proposal,
            Operator::Gc(op) => op.info().proposal,
            Operator::Misc(op) => op.info().proposal,
            Operator::Simd(op) => op.info().proposal,
            Operator::Atomic(op) => op.info().proposal,
            _ => Proposal::Mvp,
        }
    }

    fn name(&self) -> &'static str
        ensures { result.now ≡ name_of self.now }
    {
        match self {
            Operator::Unreachable => "Unreachable",
            Operator::Nop => "Nop",
            Operator::Block { .. } => "Block",
            Operator::Loop { .. } => "Loop",
            Operator::If { .. } => "If",
            Operator::Else => "Else",
            Operator::End => "End",
            Operator::Br { .. } => "Br",
            Operator::BrIf { .. } => "BrIf",
            Operator::BrTable { .. } => "BrTable",
            Operator::Return => "Return",
            Operator::Call { .. } => "Call",
            Operator::CallIndirect { .. } => "CallIndirect",
            Operator::Drop => "Drop",
            Operator::Select => "Select",
            Operator::LocalGet { .. } => "LocalGet",
            Operator::LocalSet { .. } => "LocalSet",
            Operator::LocalTee { .. } => "LocalTee",
            Operator::GlobalGet { .. } => "GlobalGet",
            Operator::GlobalSet { .. } => "GlobalSet",
            Operator::I32Load { .. } => "I32Load",
            Operator::I64Load { .. } => "I64Load",
            Operator::F32Load { .. } => "F32Load",
            Operator::F64Load { .. } => "F64Load",
            Operator::I32Load8S { .. } => "I32Load8S",
            Operator::I32Load8U { .. } => "I32Load8U",
            Operator::I32Load16S { .. } => "I32Load16S",
            Operator::I32Load16U { .. } => "I32Load16U",
            Operator::I64Load8S { .. } => "I64Load8S",
            Operator::I64Load8U { .. } => "I64Load8U",
            Operator::I64Load16S { .. } => "I64Load16S",
            Operator::I64Load16U { .. } => "I64Load16U",
            Operator::I64Load32S { .. } => "I64Load32S",
            Operator::I64Load32U { .. } => "I64Load32U",
            Operator::I32Store { .. } => "I32Store",
            Operator::I64Store { .. } => "I64Store",
            Operator::F32Store { .. } => "F32Store",
            Operator::F64Store { .. } => "F64Store",
            Operator::I32Store8 { .. } => "I32Store8",
            Operator::I32Store16 { .. } => "I32Store16",
            Operator::I64Store8 { .. } => "I64Store8",
            Operator::I64Store16 { .. } => "I64Store16",
            Operator::I64Store32 { .. } => "I64Store32",
            Operator::MemorySize { .. } => "MemorySize",
            Operator::MemoryGrow { .. } => "MemoryGrow",
            Operator::I32Const { .. } => "I32Const",
            Operator::I64Const { .. } => "I64Const",
            Operator::F32Const { .. } => "F32Const",
            Operator::F64Const { .. } => "F64Const",
            Operator::RefEq => "RefEq",
            Operator::TypedSelect { .. } => "TypedSelect",
            Operator::TypedSelectMulti { .. } => "TypedSelectMulti",
            Operator::RefNull { .. } => "RefNull",
            Operator::RefIsNull => "RefIsNull",
            Operator::RefFunc { .. } => "RefFunc",
            Operator::TableGet { .. } => "TableGet",
            Operator::TableSet { .. } => "TableSet",
            Operator::ReturnCall { .. } => "ReturnCall",
            Operator::ReturnCallIndirect { .. } => "ReturnCallIndirect",
            Operator::TryTable { .. } => "TryTable",
            Operator::Throw { .. } => "Throw",
            Operator::ThrowRef => "ThrowRef",
            Operator::Try { .. } => "Try",
            Operator::Catch { .. } => "Catch",
            Operator::Rethrow { .. } => "Rethrow",
            Operator::Delegate { .. } => "Delegate",
            Operator::CatchAll => "CatchAll",
            Operator::CallRef { .. } => "CallRef",
            Operator::ReturnCallRef { .. } => "ReturnCallRef",
            Operator::RefAsNonNull => "RefAsNonNull",
            Operator::BrOnNull { .. } => "BrOnNull",
            Operator::BrOnNonNull { .. } => "BrOnNonNull",
            Operator::ContNew { .. } => "ContNew",
            Operator::ContBind { .. } => "ContBind",
            Operator::Suspend { .. } => "Suspend",
            Operator::Resume { .. } => "Resume",
            Operator::ResumeThrow { .. } => "ResumeThrow",
            Operator::ResumeThrowRef { .. } => "ResumeThrowRef",
            Operator::Switch { .. } => "Switch",
            Operator::Numeric(op) => op.info().name,
            Operator::Gc(op) => op.info().name,
            Operator::Misc(op) => op.info().name,
            Operator::Simd(op) => op.info().name,
            Operator::Atomic(op) => op.info().name,
        }
    }

    /// Returns the opcode; after a prefix byte, the subopcode.
    #[inline(always)]
    pub fn code(&self) -> u32
        ensures { result ≡ opcode_of self.now }
    {
        match self {
            Operator::Unreachable => 0x00,
            Operator::Nop => 0x01,
            Operator::Block { .. } => 0x02,
            Operator::Loop { .. } => 0x03,
            Operator::If { .. } => 0x04,
            Operator::Else => 0x05,
            Operator::End => 0x0b,
            Operator::Br { .. } => 0x0c,
            Operator::BrIf { .. } => 0x0d,
            Operator::BrTable { .. } => 0x0e,
            Operator::Return => 0x0f,
            Operator::Call { .. } => 0x10,
            Operator::CallIndirect { .. } => 0x11,
            Operator::Drop => 0x1a,
            Operator::Select => 0x1b,
            Operator::LocalGet { .. } => 0x20,
            Operator::LocalSet { .. } => 0x21,
            Operator::LocalTee { .. } => 0x22,
            Operator::GlobalGet { .. } => 0x23,
            Operator::GlobalSet { .. } => 0x24,
            Operator::I32Load { .. } => 0x28,
            Operator::I64Load { .. } => 0x29,
            Operator::F32Load { .. } => 0x2a,
            Operator::F64Load { .. } => 0x2b,
            Operator::I32Load8S { .. } => 0x2c,
            Operator::I32Load8U { .. } => 0x2d,
            Operator::I32Load16S { .. } => 0x2e,
            Operator::I32Load16U { .. } => 0x2f,
            Operator::I64Load8S { .. } => 0x30,
            Operator::I64Load8U { .. } => 0x31,
            Operator::I64Load16S { .. } => 0x32,
            Operator::I64Load16U { .. } => 0x33,
            Operator::I64Load32S { .. } => 0x34,
            Operator::I64Load32U { .. } => 0x35,
            Operator::I32Store { .. } => 0x36,
            Operator::I64Store { .. } => 0x37,
            Operator::F32Store { .. } => 0x38,
            Operator::F64Store { .. } => 0x39,
            Operator::I32Store8 { .. } => 0x3a,
            Operator::I32Store16 { .. } => 0x3b,
            Operator::I64Store8 { .. } => 0x3c,
            Operator::I64Store16 { .. } => 0x3d,
            Operator::I64Store32 { .. } => 0x3e,
            Operator::MemorySize { .. } => 0x3f,
            Operator::MemoryGrow { .. } => 0x40,
            Operator::I32Const { .. } => 0x41,
            Operator::I64Const { .. } => 0x42,
            Operator::F32Const { .. } => 0x43,
            Operator::F64Const { .. } => 0x44,
            Operator::RefEq => 0xd3,
            Operator::TypedSelect { .. } => 0x1c,
            Operator::TypedSelectMulti { .. } => 0x1c,
            Operator::RefNull { .. } => 0xd0,
            Operator::RefIsNull => 0xd1,
            Operator::RefFunc { .. } => 0xd2,
            Operator::TableGet { .. } => 0x25,
            Operator::TableSet { .. } => 0x26,
            Operator::ReturnCall { .. } => 0x12,
            Operator::ReturnCallIndirect { .. } => 0x13,
            Operator::TryTable { .. } => 0x1f,
            Operator::Throw { .. } => 0x08,
            Operator::ThrowRef => 0x0a,
            Operator::Try { .. } => 0x06,
            Operator::Catch { .. } => 0x07,
            Operator::Rethrow { .. } => 0x09,
            Operator::Delegate { .. } => 0x18,
            Operator::CatchAll => 0x19,
            Operator::CallRef { .. } => 0x14,
            Operator::ReturnCallRef { .. } => 0x15,
            Operator::RefAsNonNull => 0xd4,
            Operator::BrOnNull { .. } => 0xd5,
            Operator::BrOnNonNull { .. } => 0xd6,
            Operator::ContNew { .. } => 0xe0,
            Operator::ContBind { .. } => 0xe1,
            Operator::Suspend { .. } => 0xe2,
            Operator::Resume { .. } => 0xe3,
            Operator::ResumeThrow { .. } => 0xe4,
            Operator::ResumeThrowRef { .. } => 0xe5,
            Operator::Switch { .. } => 0xe6,
            Operator::Numeric(op) => op.code(),
            Operator::Gc(op) => op.code(),
            Operator::Misc(op) => op.code(),
            Operator::Simd(op) => op.code(),
            Operator::Atomic(op) => op.code(),
        }
    }

    /// Returns whether the proposal is `simd` or `relaxed_simd`.
    pub fn is_simd(&self) -> bool
        ensures proposal { IsTrue result ↔ HasSimdProposal self.now }
        ensures simd { IsTrue result ↔ IsSimd self.now }
    {
        matches!(self, Operator::Simd(_))
    }

    /// Copies the operator. Fails only if it owns a list: with `OutOfMemory` at offset 0.
    pub fn clone(&self, alloc: Global) -> Result<Operator<'a>>
        ensures ok { IfOk result (λ copy. copy ≡ self.now) }
        ensures err { IfErr result (λ e. HoldsList self.now × IsOutOfMemoryAt 0 e) }
    {
        Ok(match self {
            Operator::Unreachable => Operator::Unreachable,
            Operator::Nop => Operator::Nop,
            Operator::Block { blockty } => Operator::Block { blockty: *blockty },
            Operator::Loop { blockty } => Operator::Loop { blockty: *blockty },
            Operator::If { blockty } => Operator::If { blockty: *blockty },
            Operator::Else => Operator::Else,
            Operator::End => Operator::End,
            Operator::Br { relative_depth } => Operator::Br {
                relative_depth: *relative_depth,
            },
            Operator::BrIf { relative_depth } => Operator::BrIf {
                relative_depth: *relative_depth,
            },
            Operator::BrTable { targets } => Operator::BrTable {
                targets: same_table(targets),
            },
            Operator::Return => Operator::Return,
            Operator::Call { function_index } => Operator::Call {
                function_index: *function_index,
            },
            Operator::CallIndirect {
                type_index,
                table_index,
            } => Operator::CallIndirect {
                type_index: *type_index,
                table_index: *table_index,
            },
            Operator::Drop => Operator::Drop,
            Operator::Select => Operator::Select,
            Operator::LocalGet { local_index } => Operator::LocalGet {
                local_index: *local_index,
            },
            Operator::LocalSet { local_index } => Operator::LocalSet {
                local_index: *local_index,
            },
            Operator::LocalTee { local_index } => Operator::LocalTee {
                local_index: *local_index,
            },
            Operator::GlobalGet { global_index } => Operator::GlobalGet {
                global_index: *global_index,
            },
            Operator::GlobalSet { global_index } => Operator::GlobalSet {
                global_index: *global_index,
            },
            Operator::I32Load { memarg } => Operator::I32Load { memarg: *memarg },
            Operator::I64Load { memarg } => Operator::I64Load { memarg: *memarg },
            Operator::F32Load { memarg } => Operator::F32Load { memarg: *memarg },
            Operator::F64Load { memarg } => Operator::F64Load { memarg: *memarg },
            Operator::I32Load8S { memarg } => Operator::I32Load8S { memarg: *memarg },
            Operator::I32Load8U { memarg } => Operator::I32Load8U { memarg: *memarg },
            Operator::I32Load16S { memarg } => Operator::I32Load16S { memarg: *memarg },
            Operator::I32Load16U { memarg } => Operator::I32Load16U { memarg: *memarg },
            Operator::I64Load8S { memarg } => Operator::I64Load8S { memarg: *memarg },
            Operator::I64Load8U { memarg } => Operator::I64Load8U { memarg: *memarg },
            Operator::I64Load16S { memarg } => Operator::I64Load16S { memarg: *memarg },
            Operator::I64Load16U { memarg } => Operator::I64Load16U { memarg: *memarg },
            Operator::I64Load32S { memarg } => Operator::I64Load32S { memarg: *memarg },
            Operator::I64Load32U { memarg } => Operator::I64Load32U { memarg: *memarg },
            Operator::I32Store { memarg } => Operator::I32Store { memarg: *memarg },
            Operator::I64Store { memarg } => Operator::I64Store { memarg: *memarg },
            Operator::F32Store { memarg } => Operator::F32Store { memarg: *memarg },
            Operator::F64Store { memarg } => Operator::F64Store { memarg: *memarg },
            Operator::I32Store8 { memarg } => Operator::I32Store8 { memarg: *memarg },
            Operator::I32Store16 { memarg } => Operator::I32Store16 { memarg: *memarg },
            Operator::I64Store8 { memarg } => Operator::I64Store8 { memarg: *memarg },
            Operator::I64Store16 { memarg } => Operator::I64Store16 { memarg: *memarg },
            Operator::I64Store32 { memarg } => Operator::I64Store32 { memarg: *memarg },
            Operator::MemorySize { mem } => Operator::MemorySize { mem: *mem },
            Operator::MemoryGrow { mem } => Operator::MemoryGrow { mem: *mem },
            Operator::I32Const { value } => Operator::I32Const { value: *value },
            Operator::I64Const { value } => Operator::I64Const { value: *value },
            Operator::F32Const { value } => Operator::F32Const { value: *value },
            Operator::F64Const { value } => Operator::F64Const { value: *value },
            Operator::RefEq => Operator::RefEq,
            Operator::TypedSelect { ty } => Operator::TypedSelect { ty: *ty },
            Operator::TypedSelectMulti { tys } => Operator::TypedSelectMulti {
                tys: tys.clone(alloc)?,
            },
            Operator::RefNull { hty } => Operator::RefNull { hty: *hty },
            Operator::RefIsNull => Operator::RefIsNull,
            Operator::RefFunc { function_index } => Operator::RefFunc {
                function_index: *function_index,
            },
            Operator::TableGet { table } => Operator::TableGet { table: *table },
            Operator::TableSet { table } => Operator::TableSet { table: *table },
            Operator::ReturnCall { function_index } => Operator::ReturnCall {
                function_index: *function_index,
            },
            Operator::ReturnCallIndirect {
                type_index,
                table_index,
            } => Operator::ReturnCallIndirect {
                type_index: *type_index,
                table_index: *table_index,
            },
            Operator::TryTable { try_table } => Operator::TryTable {
                try_table: try_table.clone(alloc)?,
            },
            Operator::Throw { tag_index } => Operator::Throw {
                tag_index: *tag_index,
            },
            Operator::ThrowRef => Operator::ThrowRef,
            Operator::Try { blockty } => Operator::Try { blockty: *blockty },
            Operator::Catch { tag_index } => Operator::Catch {
                tag_index: *tag_index,
            },
            Operator::Rethrow { relative_depth } => Operator::Rethrow {
                relative_depth: *relative_depth,
            },
            Operator::Delegate { relative_depth } => Operator::Delegate {
                relative_depth: *relative_depth,
            },
            Operator::CatchAll => Operator::CatchAll,
            Operator::CallRef { type_index } => Operator::CallRef {
                type_index: *type_index,
            },
            Operator::ReturnCallRef { type_index } => Operator::ReturnCallRef {
                type_index: *type_index,
            },
            Operator::RefAsNonNull => Operator::RefAsNonNull,
            Operator::BrOnNull { relative_depth } => Operator::BrOnNull {
                relative_depth: *relative_depth,
            },
            Operator::BrOnNonNull { relative_depth } => Operator::BrOnNonNull {
                relative_depth: *relative_depth,
            },
            Operator::ContNew { cont_type_index } => Operator::ContNew {
                cont_type_index: *cont_type_index,
            },
            Operator::ContBind {
                argument_index,
                result_index,
            } => Operator::ContBind {
                argument_index: *argument_index,
                result_index: *result_index,
            },
            Operator::Suspend { tag_index } => Operator::Suspend {
                tag_index: *tag_index,
            },
            Operator::Resume {
                cont_type_index,
                resume_table,
            } => Operator::Resume {
                cont_type_index: *cont_type_index,
                resume_table: resume_table.clone(alloc)?,
            },
            Operator::ResumeThrow {
                cont_type_index,
                tag_index,
                resume_table,
            } => Operator::ResumeThrow {
                cont_type_index: *cont_type_index,
                tag_index: *tag_index,
                resume_table: resume_table.clone(alloc)?,
            },
            Operator::ResumeThrowRef {
                cont_type_index,
                resume_table,
            } => Operator::ResumeThrowRef {
                cont_type_index: *cont_type_index,
                resume_table: resume_table.clone(alloc)?,
            },
            Operator::Switch {
                cont_type_index,
                tag_index,
            } => Operator::Switch {
                cont_type_index: *cont_type_index,
                tag_index: *tag_index,
            },
            Operator::Numeric(op) => Operator::Numeric(*op),
            Operator::Gc(op) => Operator::Gc(*op),
            Operator::Misc(op) => Operator::Misc(*op),
            Operator::Simd(op) => Operator::Simd(*op),
            Operator::Atomic(op) => Operator::Atomic(*op),
        })
    }
}

impl<'a> Debug for Operator<'a> {
    fn fmt<W: fmt::Write>(&self, f: &mut Formatter<W>) -> fmt::Result {
        match self {
            Operator::Numeric(op) => f.debug_tuple("Numeric").field(op).finish(),
            Operator::Gc(op) => f.debug_tuple("Gc").field(op).finish(),
            Operator::Misc(op) => f.debug_tuple("Misc").field(op).finish(),
            Operator::Simd(op) => f.debug_tuple("Simd").field(op).finish(),
            Operator::Atomic(op) => f.debug_tuple("Atomic").field(op).finish(),
            Operator::Block { blockty }
            | Operator::Loop { blockty }
            | Operator::If { blockty }
            | Operator::Try { blockty } => f
                .debug_struct(self.name())
                .field("blockty", blockty)
                .finish(),
            Operator::Br { relative_depth }
            | Operator::BrIf { relative_depth }
            | Operator::Rethrow { relative_depth }
            | Operator::Delegate { relative_depth }
            | Operator::BrOnNull { relative_depth }
            | Operator::BrOnNonNull { relative_depth } => f
                .debug_struct(self.name())
                .field("relative_depth", relative_depth)
                .finish(),
            Operator::BrTable { targets } => f
                .debug_struct(self.name())
                .field("targets", targets)
                .finish(),
            Operator::Call { function_index }
            | Operator::RefFunc { function_index }
            | Operator::ReturnCall { function_index } => f
                .debug_struct(self.name())
                .field("function_index", function_index)
                .finish(),
            Operator::CallIndirect {
                type_index,
                table_index,
            }
            | Operator::ReturnCallIndirect {
                type_index,
                table_index,
            } => f
                .debug_struct(self.name())
                .field("type_index", type_index)
                .field("table_index", table_index)
                .finish(),
            Operator::LocalGet { local_index }
            | Operator::LocalSet { local_index }
            | Operator::LocalTee { local_index } => f
                .debug_struct(self.name())
                .field("local_index", local_index)
                .finish(),
            Operator::GlobalGet { global_index } | Operator::GlobalSet { global_index } => f
                .debug_struct(self.name())
                .field("global_index", global_index)
                .finish(),
            _ => self.fmt_second(f),
        }
    }
}

impl<'a> Operator<'a> {
    /// Prints an operator that `fmt` does not print.
    fn fmt_second<W: fmt::Write>(&self, f: &mut Formatter<W>) -> fmt::Result {
        match self {
            Operator::I32Load { memarg }
            | Operator::I64Load { memarg }
            | Operator::F32Load { memarg }
            | Operator::F64Load { memarg }
            | Operator::I32Load8S { memarg }
            | Operator::I32Load8U { memarg }
            | Operator::I32Load16S { memarg }
            | Operator::I32Load16U { memarg }
            | Operator::I64Load8S { memarg }
            | Operator::I64Load8U { memarg }
            | Operator::I64Load16S { memarg }
            | Operator::I64Load16U { memarg }
            | Operator::I64Load32S { memarg }
            | Operator::I64Load32U { memarg }
            | Operator::I32Store { memarg }
            | Operator::I64Store { memarg }
            | Operator::F32Store { memarg }
            | Operator::F64Store { memarg }
            | Operator::I32Store8 { memarg }
            | Operator::I32Store16 { memarg }
            | Operator::I64Store8 { memarg }
            | Operator::I64Store16 { memarg }
            | Operator::I64Store32 { memarg } => f
                .debug_struct(self.name())
                .field("memarg", memarg)
                .finish(),
            _ => self.fmt_third(f),
        }
    }

    /// Prints an operator that `fmt_second` does not print.
    fn fmt_third<W: fmt::Write>(&self, f: &mut Formatter<W>) -> fmt::Result {
        match self {
            Operator::MemorySize { mem } | Operator::MemoryGrow { mem } => f
                .debug_struct(self.name())
                .field("mem", mem)
                .finish(),
            Operator::I32Const { value } => f
                .debug_struct(self.name())
                .field("value", value)
                .finish(),
            Operator::I64Const { value } => f
                .debug_struct(self.name())
                .field("value", value)
                .finish(),
            Operator::F32Const { value } => f
                .debug_struct(self.name())
                .field("value", value)
                .finish(),
            Operator::F64Const { value } => f
                .debug_struct(self.name())
                .field("value", value)
                .finish(),
            Operator::TypedSelect { ty } => f.debug_struct(self.name()).field("ty", ty).finish(),
            Operator::TypedSelectMulti { tys } => f
                .debug_struct(self.name())
                .field("tys", tys)
                .finish(),
            Operator::RefNull { hty } => f.debug_struct(self.name()).field("hty", hty).finish(),
            Operator::TableGet { table } | Operator::TableSet { table } => f
                .debug_struct(self.name())
                .field("table", table)
                .finish(),
            Operator::TryTable { try_table } => f
                .debug_struct(self.name())
                .field("try_table", try_table)
                .finish(),
            Operator::Throw { tag_index }
            | Operator::Catch { tag_index }
            | Operator::Suspend { tag_index } => f
                .debug_struct(self.name())
                .field("tag_index", tag_index)
                .finish(),
            Operator::CallRef { type_index } | Operator::ReturnCallRef { type_index } => f
                .debug_struct(self.name())
                .field("type_index", type_index)
                .finish(),
            Operator::ContNew { cont_type_index } => f
                .debug_struct(self.name())
                .field("cont_type_index", cont_type_index)
                .finish(),
            Operator::ContBind {
                argument_index,
                result_index,
            } => f
                .debug_struct(self.name())
                .field("argument_index", argument_index)
                .field("result_index", result_index)
                .finish(),
            Operator::Resume {
                cont_type_index,
                resume_table,
            }
            | Operator::ResumeThrowRef {
                cont_type_index,
                resume_table,
            } => f
                .debug_struct(self.name())
                .field("cont_type_index", cont_type_index)
                .field("resume_table", resume_table)
                .finish(),
            Operator::ResumeThrow {
                cont_type_index,
                tag_index,
                resume_table,
            } => f
                .debug_struct(self.name())
                .field("cont_type_index", cont_type_index)
                .field("tag_index", tag_index)
                .field("resume_table", resume_table)
                .finish(),
            Operator::Switch {
                cont_type_index,
                tag_index,
            } => f
                .debug_struct(self.name())
                .field("cont_type_index", cont_type_index)
                .field("tag_index", tag_index)
                .finish(),
            _ => f.write_str(self.name()),
        }
    }
}

/// Copies the table without allocating.
fn same_table<'a>(table: &BrTable<'a>) -> BrTable<'a>
    ensures { result ≡ table.now }
{
    match table.clone() {
        Ok(table) => table,
        Err(_) => unreachable!(),
    }
}
