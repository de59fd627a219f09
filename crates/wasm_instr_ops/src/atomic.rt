//! Written by tools/lists.py from tools/operators.tsv.
ghost use Rattle.std.specs.Prelude.{◌≡◌, ◌↔◌, IsTrue, nat_eq};
ghost use Rattle.std.specs.Ordering.{on, eq_of_both};
ghost use Rattle.wasm_instr_ops.specs.Atomic.{atomic_proposal, atomic_name, atomic_subopcode, atomic_fields};

use std::fmt::{self, Debug, Formatter};
use wasm_imm::{MemArg, OperatorInfo, Ordering, Proposal};

/// The operators with the prefix byte 0xfe. Proposals threads, shared-everything threads and
/// acquire-release atomics.
#[derive(Clone, Copy)]
pub enum AtomicOperator {
    MemoryAtomicNotify {
        memarg: MemArg,
    },
    MemoryAtomicWait32 {
        memarg: MemArg,
    },
    MemoryAtomicWait64 {
        memarg: MemArg,
    },
    AtomicFence {
        ordering: Ordering,
    },
    I32AtomicLoad {
        memarg: MemArg,
    },
    I64AtomicLoad {
        memarg: MemArg,
    },
    I32AtomicLoad8U {
        memarg: MemArg,
    },
    I32AtomicLoad16U {
        memarg: MemArg,
    },
    I64AtomicLoad8U {
        memarg: MemArg,
    },
    I64AtomicLoad16U {
        memarg: MemArg,
    },
    I64AtomicLoad32U {
        memarg: MemArg,
    },
    I32AtomicStore {
        memarg: MemArg,
    },
    I64AtomicStore {
        memarg: MemArg,
    },
    I32AtomicStore8 {
        memarg: MemArg,
    },
    I32AtomicStore16 {
        memarg: MemArg,
    },
    I64AtomicStore8 {
        memarg: MemArg,
    },
    I64AtomicStore16 {
        memarg: MemArg,
    },
    I64AtomicStore32 {
        memarg: MemArg,
    },
    I32AtomicRmwAdd {
        memarg: MemArg,
    },
    I64AtomicRmwAdd {
        memarg: MemArg,
    },
    I32AtomicRmw8AddU {
        memarg: MemArg,
    },
    I32AtomicRmw16AddU {
        memarg: MemArg,
    },
    I64AtomicRmw8AddU {
        memarg: MemArg,
    },
    I64AtomicRmw16AddU {
        memarg: MemArg,
    },
    I64AtomicRmw32AddU {
        memarg: MemArg,
    },
    I32AtomicRmwSub {
        memarg: MemArg,
    },
    I64AtomicRmwSub {
        memarg: MemArg,
    },
    I32AtomicRmw8SubU {
        memarg: MemArg,
    },
    I32AtomicRmw16SubU {
        memarg: MemArg,
    },
    I64AtomicRmw8SubU {
        memarg: MemArg,
    },
    I64AtomicRmw16SubU {
        memarg: MemArg,
    },
    I64AtomicRmw32SubU {
        memarg: MemArg,
    },
    I32AtomicRmwAnd {
        memarg: MemArg,
    },
    I64AtomicRmwAnd {
        memarg: MemArg,
    },
    I32AtomicRmw8AndU {
        memarg: MemArg,
    },
    I32AtomicRmw16AndU {
        memarg: MemArg,
    },
    I64AtomicRmw8AndU {
        memarg: MemArg,
    },
    I64AtomicRmw16AndU {
        memarg: MemArg,
    },
    I64AtomicRmw32AndU {
        memarg: MemArg,
    },
    I32AtomicRmwOr {
        memarg: MemArg,
    },
    I64AtomicRmwOr {
        memarg: MemArg,
    },
    I32AtomicRmw8OrU {
        memarg: MemArg,
    },
    I32AtomicRmw16OrU {
        memarg: MemArg,
    },
    I64AtomicRmw8OrU {
        memarg: MemArg,
    },
    I64AtomicRmw16OrU {
        memarg: MemArg,
    },
    I64AtomicRmw32OrU {
        memarg: MemArg,
    },
    I32AtomicRmwXor {
        memarg: MemArg,
    },
    I64AtomicRmwXor {
        memarg: MemArg,
    },
    I32AtomicRmw8XorU {
        memarg: MemArg,
    },
    I32AtomicRmw16XorU {
        memarg: MemArg,
    },
    I64AtomicRmw8XorU {
        memarg: MemArg,
    },
    I64AtomicRmw16XorU {
        memarg: MemArg,
    },
    I64AtomicRmw32XorU {
        memarg: MemArg,
    },
    I32AtomicRmwXchg {
        memarg: MemArg,
    },
    I64AtomicRmwXchg {
        memarg: MemArg,
    },
    I32AtomicRmw8XchgU {
        memarg: MemArg,
    },
    I32AtomicRmw16XchgU {
        memarg: MemArg,
    },
    I64AtomicRmw8XchgU {
        memarg: MemArg,
    },
    I64AtomicRmw16XchgU {
        memarg: MemArg,
    },
    I64AtomicRmw32XchgU {
        memarg: MemArg,
    },
    I32AtomicRmwCmpxchg {
        memarg: MemArg,
    },
    I64AtomicRmwCmpxchg {
        memarg: MemArg,
    },
    I32AtomicRmw8CmpxchgU {
        memarg: MemArg,
    },
    I32AtomicRmw16CmpxchgU {
        memarg: MemArg,
    },
    I64AtomicRmw8CmpxchgU {
        memarg: MemArg,
    },
    I64AtomicRmw16CmpxchgU {
        memarg: MemArg,
    },
    I64AtomicRmw32CmpxchgU {
        memarg: MemArg,
    },
    GlobalAtomicGet {
        ordering: Ordering,
        global_index: u32,
    },
    GlobalAtomicSet {
        ordering: Ordering,
        global_index: u32,
    },
    GlobalAtomicRmwAdd {
        ordering: Ordering,
        global_index: u32,
    },
    GlobalAtomicRmwSub {
        ordering: Ordering,
        global_index: u32,
    },
    GlobalAtomicRmwAnd {
        ordering: Ordering,
        global_index: u32,
    },
    GlobalAtomicRmwOr {
        ordering: Ordering,
        global_index: u32,
    },
    GlobalAtomicRmwXor {
        ordering: Ordering,
        global_index: u32,
    },
    GlobalAtomicRmwXchg {
        ordering: Ordering,
        global_index: u32,
    },
    GlobalAtomicRmwCmpxchg {
        ordering: Ordering,
        global_index: u32,
    },
    TableAtomicGet {
        ordering: Ordering,
        table_index: u32,
    },
    TableAtomicSet {
        ordering: Ordering,
        table_index: u32,
    },
    TableAtomicRmwXchg {
        ordering: Ordering,
        table_index: u32,
    },
    TableAtomicRmwCmpxchg {
        ordering: Ordering,
        table_index: u32,
    },
    StructAtomicGet {
        ordering: Ordering,
        struct_type_index: u32,
        field_index: u32,
    },
    StructAtomicGetS {
        ordering: Ordering,
        struct_type_index: u32,
        field_index: u32,
    },
    StructAtomicGetU {
        ordering: Ordering,
        struct_type_index: u32,
        field_index: u32,
    },
    StructAtomicSet {
        ordering: Ordering,
        struct_type_index: u32,
        field_index: u32,
    },
    StructAtomicRmwAdd {
        ordering: Ordering,
        struct_type_index: u32,
        field_index: u32,
    },
    StructAtomicRmwSub {
        ordering: Ordering,
        struct_type_index: u32,
        field_index: u32,
    },
    StructAtomicRmwAnd {
        ordering: Ordering,
        struct_type_index: u32,
        field_index: u32,
    },
    StructAtomicRmwOr {
        ordering: Ordering,
        struct_type_index: u32,
        field_index: u32,
    },
    StructAtomicRmwXor {
        ordering: Ordering,
        struct_type_index: u32,
        field_index: u32,
    },
    StructAtomicRmwXchg {
        ordering: Ordering,
        struct_type_index: u32,
        field_index: u32,
    },
    StructAtomicRmwCmpxchg {
        ordering: Ordering,
        struct_type_index: u32,
        field_index: u32,
    },
    ArrayAtomicGet {
        ordering: Ordering,
        array_type_index: u32,
    },
    ArrayAtomicGetS {
        ordering: Ordering,
        array_type_index: u32,
    },
    ArrayAtomicGetU {
        ordering: Ordering,
        array_type_index: u32,
    },
    ArrayAtomicSet {
        ordering: Ordering,
        array_type_index: u32,
    },
    ArrayAtomicRmwAdd {
        ordering: Ordering,
        array_type_index: u32,
    },
    ArrayAtomicRmwSub {
        ordering: Ordering,
        array_type_index: u32,
    },
    ArrayAtomicRmwAnd {
        ordering: Ordering,
        array_type_index: u32,
    },
    ArrayAtomicRmwOr {
        ordering: Ordering,
        array_type_index: u32,
    },
    ArrayAtomicRmwXor {
        ordering: Ordering,
        array_type_index: u32,
    },
    ArrayAtomicRmwXchg {
        ordering: Ordering,
        array_type_index: u32,
    },
    ArrayAtomicRmwCmpxchg {
        ordering: Ordering,
        array_type_index: u32,
    },
    RefI31Shared,
    Pause,
}

impl AtomicOperator {
    /// Returns the row of the operator.
    pub fn info(&self) -> OperatorInfo
        ensures proposal { result.proposal ≡ atomic_proposal self.now }
        ensures name { result.name.now ≡ atomic_name self.now }
        ensures prefix { result.prefix ≡ Some 0xfe }
        ensures code { result.code ≡ atomic_subopcode self.now }
    {
        OperatorInfo {
            proposal: self.proposal(),
            name: self.name(),
            prefix: Some(0xfe),
            code: self.code(),
        }
    }

    fn proposal(&self) -> Proposal
        ensures { result ≡ atomic_proposal self.now }
    {
        match self {
            AtomicOperator::GlobalAtomicGet { .. }
            | AtomicOperator::GlobalAtomicSet { .. }
            | AtomicOperator::GlobalAtomicRmwAdd { .. }
            | AtomicOperator::GlobalAtomicRmwSub { .. }
            | AtomicOperator::GlobalAtomicRmwAnd { .. }
            | AtomicOperator::GlobalAtomicRmwOr { .. }
            | AtomicOperator::GlobalAtomicRmwXor { .. }
            | AtomicOperator::GlobalAtomicRmwXchg { .. }
            | AtomicOperator::GlobalAtomicRmwCmpxchg { .. }
            | AtomicOperator::TableAtomicGet { .. }
            | AtomicOperator::TableAtomicSet { .. }
            | AtomicOperator::TableAtomicRmwXchg { .. }
            | AtomicOperator::TableAtomicRmwCmpxchg { .. }
            | AtomicOperator::StructAtomicGet { .. }
            | AtomicOperator::StructAtomicGetS { .. }
            | AtomicOperator::StructAtomicGetU { .. }
            | AtomicOperator::StructAtomicSet { .. }
            | AtomicOperator::StructAtomicRmwAdd { .. }
            | AtomicOperator::StructAtomicRmwSub { .. }
            | AtomicOperator::StructAtomicRmwAnd { .. }
            | AtomicOperator::StructAtomicRmwOr { .. }
            | AtomicOperator::StructAtomicRmwXor { .. }
            | AtomicOperator::StructAtomicRmwXchg { .. }
            | AtomicOperator::StructAtomicRmwCmpxchg { .. }
            | AtomicOperator::ArrayAtomicGet { .. }
            | AtomicOperator::ArrayAtomicGetS { .. }
            | AtomicOperator::ArrayAtomicGetU { .. }
            | AtomicOperator::ArrayAtomicSet { .. }
            | AtomicOperator::ArrayAtomicRmwAdd { .. }
            | AtomicOperator::ArrayAtomicRmwSub { .. }
            | AtomicOperator::ArrayAtomicRmwAnd { .. }
            | AtomicOperator::ArrayAtomicRmwOr { .. }
            | AtomicOperator::ArrayAtomicRmwXor { .. }
            | AtomicOperator::ArrayAtomicRmwXchg { .. }
            | AtomicOperator::ArrayAtomicRmwCmpxchg { .. }
            | AtomicOperator::RefI31Shared => Proposal::SharedEverythingThreads,
            AtomicOperator::Pause => Proposal::AcquireReleaseAtomics,
            _ => Proposal::Threads,
        }
    }

    fn name(&self) -> &'static str
        ensures { result.now ≡ atomic_name self.now }
    {
        match self {
            AtomicOperator::MemoryAtomicNotify { .. } => "MemoryAtomicNotify",
            AtomicOperator::MemoryAtomicWait32 { .. } => "MemoryAtomicWait32",
            AtomicOperator::MemoryAtomicWait64 { .. } => "MemoryAtomicWait64",
            AtomicOperator::AtomicFence { .. } => "AtomicFence",
            AtomicOperator::I32AtomicLoad { .. } => "I32AtomicLoad",
            AtomicOperator::I64AtomicLoad { .. } => "I64AtomicLoad",
            AtomicOperator::I32AtomicLoad8U { .. } => "I32AtomicLoad8U",
            AtomicOperator::I32AtomicLoad16U { .. } => "I32AtomicLoad16U",
            AtomicOperator::I64AtomicLoad8U { .. } => "I64AtomicLoad8U",
            AtomicOperator::I64AtomicLoad16U { .. } => "I64AtomicLoad16U",
            AtomicOperator::I64AtomicLoad32U { .. } => "I64AtomicLoad32U",
            AtomicOperator::I32AtomicStore { .. } => "I32AtomicStore",
            AtomicOperator::I64AtomicStore { .. } => "I64AtomicStore",
            AtomicOperator::I32AtomicStore8 { .. } => "I32AtomicStore8",
            AtomicOperator::I32AtomicStore16 { .. } => "I32AtomicStore16",
            AtomicOperator::I64AtomicStore8 { .. } => "I64AtomicStore8",
            AtomicOperator::I64AtomicStore16 { .. } => "I64AtomicStore16",
            AtomicOperator::I64AtomicStore32 { .. } => "I64AtomicStore32",
            AtomicOperator::I32AtomicRmwAdd { .. } => "I32AtomicRmwAdd",
            AtomicOperator::I64AtomicRmwAdd { .. } => "I64AtomicRmwAdd",
            AtomicOperator::I32AtomicRmw8AddU { .. } => "I32AtomicRmw8AddU",
            AtomicOperator::I32AtomicRmw16AddU { .. } => "I32AtomicRmw16AddU",
            AtomicOperator::I64AtomicRmw8AddU { .. } => "I64AtomicRmw8AddU",
            AtomicOperator::I64AtomicRmw16AddU { .. } => "I64AtomicRmw16AddU",
            AtomicOperator::I64AtomicRmw32AddU { .. } => "I64AtomicRmw32AddU",
            AtomicOperator::I32AtomicRmwSub { .. } => "I32AtomicRmwSub",
            AtomicOperator::I64AtomicRmwSub { .. } => "I64AtomicRmwSub",
            AtomicOperator::I32AtomicRmw8SubU { .. } => "I32AtomicRmw8SubU",
            AtomicOperator::I32AtomicRmw16SubU { .. } => "I32AtomicRmw16SubU",
            AtomicOperator::I64AtomicRmw8SubU { .. } => "I64AtomicRmw8SubU",
            AtomicOperator::I64AtomicRmw16SubU { .. } => "I64AtomicRmw16SubU",
            AtomicOperator::I64AtomicRmw32SubU { .. } => "I64AtomicRmw32SubU",
            AtomicOperator::I32AtomicRmwAnd { .. } => "I32AtomicRmwAnd",
            AtomicOperator::I64AtomicRmwAnd { .. } => "I64AtomicRmwAnd",
            AtomicOperator::I32AtomicRmw8AndU { .. } => "I32AtomicRmw8AndU",
            AtomicOperator::I32AtomicRmw16AndU { .. } => "I32AtomicRmw16AndU",
            AtomicOperator::I64AtomicRmw8AndU { .. } => "I64AtomicRmw8AndU",
            AtomicOperator::I64AtomicRmw16AndU { .. } => "I64AtomicRmw16AndU",
            AtomicOperator::I64AtomicRmw32AndU { .. } => "I64AtomicRmw32AndU",
            AtomicOperator::I32AtomicRmwOr { .. } => "I32AtomicRmwOr",
            AtomicOperator::I64AtomicRmwOr { .. } => "I64AtomicRmwOr",
            AtomicOperator::I32AtomicRmw8OrU { .. } => "I32AtomicRmw8OrU",
            AtomicOperator::I32AtomicRmw16OrU { .. } => "I32AtomicRmw16OrU",
            AtomicOperator::I64AtomicRmw8OrU { .. } => "I64AtomicRmw8OrU",
            AtomicOperator::I64AtomicRmw16OrU { .. } => "I64AtomicRmw16OrU",
            AtomicOperator::I64AtomicRmw32OrU { .. } => "I64AtomicRmw32OrU",
            AtomicOperator::I32AtomicRmwXor { .. } => "I32AtomicRmwXor",
            AtomicOperator::I64AtomicRmwXor { .. } => "I64AtomicRmwXor",
            AtomicOperator::I32AtomicRmw8XorU { .. } => "I32AtomicRmw8XorU",
            AtomicOperator::I32AtomicRmw16XorU { .. } => "I32AtomicRmw16XorU",
            AtomicOperator::I64AtomicRmw8XorU { .. } => "I64AtomicRmw8XorU",
            AtomicOperator::I64AtomicRmw16XorU { .. } => "I64AtomicRmw16XorU",
            AtomicOperator::I64AtomicRmw32XorU { .. } => "I64AtomicRmw32XorU",
            AtomicOperator::I32AtomicRmwXchg { .. } => "I32AtomicRmwXchg",
            AtomicOperator::I64AtomicRmwXchg { .. } => "I64AtomicRmwXchg",
            AtomicOperator::I32AtomicRmw8XchgU { .. } => "I32AtomicRmw8XchgU",
            AtomicOperator::I32AtomicRmw16XchgU { .. } => "I32AtomicRmw16XchgU",
            AtomicOperator::I64AtomicRmw8XchgU { .. } => "I64AtomicRmw8XchgU",
            AtomicOperator::I64AtomicRmw16XchgU { .. } => "I64AtomicRmw16XchgU",
            AtomicOperator::I64AtomicRmw32XchgU { .. } => "I64AtomicRmw32XchgU",
            AtomicOperator::I32AtomicRmwCmpxchg { .. } => "I32AtomicRmwCmpxchg",
            AtomicOperator::I64AtomicRmwCmpxchg { .. } => "I64AtomicRmwCmpxchg",
            AtomicOperator::I32AtomicRmw8CmpxchgU { .. } => "I32AtomicRmw8CmpxchgU",
            AtomicOperator::I32AtomicRmw16CmpxchgU { .. } => "I32AtomicRmw16CmpxchgU",
            AtomicOperator::I64AtomicRmw8CmpxchgU { .. } => "I64AtomicRmw8CmpxchgU",
            AtomicOperator::I64AtomicRmw16CmpxchgU { .. } => "I64AtomicRmw16CmpxchgU",
            AtomicOperator::I64AtomicRmw32CmpxchgU { .. } => "I64AtomicRmw32CmpxchgU",
            AtomicOperator::GlobalAtomicGet { .. } => "GlobalAtomicGet",
            AtomicOperator::GlobalAtomicSet { .. } => "GlobalAtomicSet",
            AtomicOperator::GlobalAtomicRmwAdd { .. } => "GlobalAtomicRmwAdd",
            AtomicOperator::GlobalAtomicRmwSub { .. } => "GlobalAtomicRmwSub",
            AtomicOperator::GlobalAtomicRmwAnd { .. } => "GlobalAtomicRmwAnd",
            AtomicOperator::GlobalAtomicRmwOr { .. } => "GlobalAtomicRmwOr",
            AtomicOperator::GlobalAtomicRmwXor { .. } => "GlobalAtomicRmwXor",
            AtomicOperator::GlobalAtomicRmwXchg { .. } => "GlobalAtomicRmwXchg",
            AtomicOperator::GlobalAtomicRmwCmpxchg { .. } => "GlobalAtomicRmwCmpxchg",
            AtomicOperator::TableAtomicGet { .. } => "TableAtomicGet",
            AtomicOperator::TableAtomicSet { .. } => "TableAtomicSet",
            AtomicOperator::TableAtomicRmwXchg { .. } => "TableAtomicRmwXchg",
            AtomicOperator::TableAtomicRmwCmpxchg { .. } => "TableAtomicRmwCmpxchg",
            AtomicOperator::StructAtomicGet { .. } => "StructAtomicGet",
            AtomicOperator::StructAtomicGetS { .. } => "StructAtomicGetS",
            AtomicOperator::StructAtomicGetU { .. } => "StructAtomicGetU",
            AtomicOperator::StructAtomicSet { .. } => "StructAtomicSet",
            AtomicOperator::StructAtomicRmwAdd { .. } => "StructAtomicRmwAdd",
            AtomicOperator::StructAtomicRmwSub { .. } => "StructAtomicRmwSub",
            AtomicOperator::StructAtomicRmwAnd { .. } => "StructAtomicRmwAnd",
            AtomicOperator::StructAtomicRmwOr { .. } => "StructAtomicRmwOr",
            AtomicOperator::StructAtomicRmwXor { .. } => "StructAtomicRmwXor",
            AtomicOperator::StructAtomicRmwXchg { .. } => "StructAtomicRmwXchg",
            AtomicOperator::StructAtomicRmwCmpxchg { .. } => "StructAtomicRmwCmpxchg",
            AtomicOperator::ArrayAtomicGet { .. } => "ArrayAtomicGet",
            AtomicOperator::ArrayAtomicGetS { .. } => "ArrayAtomicGetS",
            AtomicOperator::ArrayAtomicGetU { .. } => "ArrayAtomicGetU",
            AtomicOperator::ArrayAtomicSet { .. } => "ArrayAtomicSet",
            AtomicOperator::ArrayAtomicRmwAdd { .. } => "ArrayAtomicRmwAdd",
            AtomicOperator::ArrayAtomicRmwSub { .. } => "ArrayAtomicRmwSub",
            AtomicOperator::ArrayAtomicRmwAnd { .. } => "ArrayAtomicRmwAnd",
            AtomicOperator::ArrayAtomicRmwOr { .. } => "ArrayAtomicRmwOr",
            AtomicOperator::ArrayAtomicRmwXor { .. } => "ArrayAtomicRmwXor",
            AtomicOperator::ArrayAtomicRmwXchg { .. } => "ArrayAtomicRmwXchg",
            AtomicOperator::ArrayAtomicRmwCmpxchg { .. } => "ArrayAtomicRmwCmpxchg",
            AtomicOperator::RefI31Shared => "RefI31Shared",
            AtomicOperator::Pause => "Pause",
        }
    }

    /// Returns the subopcode.
    #[inline(always)]
    pub fn code(&self) -> u32
        ensures { result ≡ atomic_subopcode self.now }
    {
        match self {
            AtomicOperator::MemoryAtomicNotify { .. } => 0x00,
            AtomicOperator::MemoryAtomicWait32 { .. } => 0x01,
            AtomicOperator::MemoryAtomicWait64 { .. } => 0x02,
            AtomicOperator::AtomicFence { .. } => 0x03,
            AtomicOperator::I32AtomicLoad { .. } => 0x10,
            AtomicOperator::I64AtomicLoad { .. } => 0x11,
            AtomicOperator::I32AtomicLoad8U { .. } => 0x12,
            AtomicOperator::I32AtomicLoad16U { .. } => 0x13,
            AtomicOperator::I64AtomicLoad8U { .. } => 0x14,
            AtomicOperator::I64AtomicLoad16U { .. } => 0x15,
            AtomicOperator::I64AtomicLoad32U { .. } => 0x16,
            AtomicOperator::I32AtomicStore { .. } => 0x17,
            AtomicOperator::I64AtomicStore { .. } => 0x18,
            AtomicOperator::I32AtomicStore8 { .. } => 0x19,
            AtomicOperator::I32AtomicStore16 { .. } => 0x1a,
            AtomicOperator::I64AtomicStore8 { .. } => 0x1b,
            AtomicOperator::I64AtomicStore16 { .. } => 0x1c,
            AtomicOperator::I64AtomicStore32 { .. } => 0x1d,
            AtomicOperator::I32AtomicRmwAdd { .. } => 0x1e,
            AtomicOperator::I64AtomicRmwAdd { .. } => 0x1f,
            AtomicOperator::I32AtomicRmw8AddU { .. } => 0x20,
            AtomicOperator::I32AtomicRmw16AddU { .. } => 0x21,
            AtomicOperator::I64AtomicRmw8AddU { .. } => 0x22,
            AtomicOperator::I64AtomicRmw16AddU { .. } => 0x23,
            AtomicOperator::I64AtomicRmw32AddU { .. } => 0x24,
            AtomicOperator::I32AtomicRmwSub { .. } => 0x25,
            AtomicOperator::I64AtomicRmwSub { .. } => 0x26,
            AtomicOperator::I32AtomicRmw8SubU { .. } => 0x27,
            AtomicOperator::I32AtomicRmw16SubU { .. } => 0x28,
            AtomicOperator::I64AtomicRmw8SubU { .. } => 0x29,
            AtomicOperator::I64AtomicRmw16SubU { .. } => 0x2a,
            AtomicOperator::I64AtomicRmw32SubU { .. } => 0x2b,
            AtomicOperator::I32AtomicRmwAnd { .. } => 0x2c,
            AtomicOperator::I64AtomicRmwAnd { .. } => 0x2d,
            AtomicOperator::I32AtomicRmw8AndU { .. } => 0x2e,
            AtomicOperator::I32AtomicRmw16AndU { .. } => 0x2f,
            AtomicOperator::I64AtomicRmw8AndU { .. } => 0x30,
            AtomicOperator::I64AtomicRmw16AndU { .. } => 0x31,
            AtomicOperator::I64AtomicRmw32AndU { .. } => 0x32,
            AtomicOperator::I32AtomicRmwOr { .. } => 0x33,
            AtomicOperator::I64AtomicRmwOr { .. } => 0x34,
            AtomicOperator::I32AtomicRmw8OrU { .. } => 0x35,
            AtomicOperator::I32AtomicRmw16OrU { .. } => 0x36,
            AtomicOperator::I64AtomicRmw8OrU { .. } => 0x37,
            AtomicOperator::I64AtomicRmw16OrU { .. } => 0x38,
            AtomicOperator::I64AtomicRmw32OrU { .. } => 0x39,
            AtomicOperator::I32AtomicRmwXor { .. } => 0x3a,
            AtomicOperator::I64AtomicRmwXor { .. } => 0x3b,
            AtomicOperator::I32AtomicRmw8XorU { .. } => 0x3c,
            AtomicOperator::I32AtomicRmw16XorU { .. } => 0x3d,
            AtomicOperator::I64AtomicRmw8XorU { .. } => 0x3e,
            AtomicOperator::I64AtomicRmw16XorU { .. } => 0x3f,
            AtomicOperator::I64AtomicRmw32XorU { .. } => 0x40,
            AtomicOperator::I32AtomicRmwXchg { .. } => 0x41,
            AtomicOperator::I64AtomicRmwXchg { .. } => 0x42,
            AtomicOperator::I32AtomicRmw8XchgU { .. } => 0x43,
            AtomicOperator::I32AtomicRmw16XchgU { .. } => 0x44,
            AtomicOperator::I64AtomicRmw8XchgU { .. } => 0x45,
            AtomicOperator::I64AtomicRmw16XchgU { .. } => 0x46,
            AtomicOperator::I64AtomicRmw32XchgU { .. } => 0x47,
            AtomicOperator::I32AtomicRmwCmpxchg { .. } => 0x48,
            AtomicOperator::I64AtomicRmwCmpxchg { .. } => 0x49,
            AtomicOperator::I32AtomicRmw8CmpxchgU { .. } => 0x4a,
            AtomicOperator::I32AtomicRmw16CmpxchgU { .. } => 0x4b,
            AtomicOperator::I64AtomicRmw8CmpxchgU { .. } => 0x4c,
            AtomicOperator::I64AtomicRmw16CmpxchgU { .. } => 0x4d,
            AtomicOperator::I64AtomicRmw32CmpxchgU { .. } => 0x4e,
            AtomicOperator::GlobalAtomicGet { .. } => 0x4f,
            AtomicOperator::GlobalAtomicSet { .. } => 0x50,
            AtomicOperator::GlobalAtomicRmwAdd { .. } => 0x51,
            AtomicOperator::GlobalAtomicRmwSub { .. } => 0x52,
            AtomicOperator::GlobalAtomicRmwAnd { .. } => 0x53,
            AtomicOperator::GlobalAtomicRmwOr { .. } => 0x54,
            AtomicOperator::GlobalAtomicRmwXor { .. } => 0x55,
            AtomicOperator::GlobalAtomicRmwXchg { .. } => 0x56,
            AtomicOperator::GlobalAtomicRmwCmpxchg { .. } => 0x57,
            AtomicOperator::TableAtomicGet { .. } => 0x58,
            AtomicOperator::TableAtomicSet { .. } => 0x59,
            AtomicOperator::TableAtomicRmwXchg { .. } => 0x5a,
            AtomicOperator::TableAtomicRmwCmpxchg { .. } => 0x5b,
            AtomicOperator::StructAtomicGet { .. } => 0x5c,
            AtomicOperator::StructAtomicGetS { .. } => 0x5d,
            AtomicOperator::StructAtomicGetU { .. } => 0x5e,
            AtomicOperator::StructAtomicSet { .. } => 0x5f,
            AtomicOperator::StructAtomicRmwAdd { .. } => 0x60,
            AtomicOperator::StructAtomicRmwSub { .. } => 0x61,
            AtomicOperator::StructAtomicRmwAnd { .. } => 0x62,
            AtomicOperator::StructAtomicRmwOr { .. } => 0x63,
            AtomicOperator::StructAtomicRmwXor { .. } => 0x64,
            AtomicOperator::StructAtomicRmwXchg { .. } => 0x65,
            AtomicOperator::StructAtomicRmwCmpxchg { .. } => 0x66,
            AtomicOperator::ArrayAtomicGet { .. } => 0x67,
            AtomicOperator::ArrayAtomicGetS { .. } => 0x68,
            AtomicOperator::ArrayAtomicGetU { .. } => 0x69,
            AtomicOperator::ArrayAtomicSet { .. } => 0x6a,
            AtomicOperator::ArrayAtomicRmwAdd { .. } => 0x6b,
            AtomicOperator::ArrayAtomicRmwSub { .. } => 0x6c,
            AtomicOperator::ArrayAtomicRmwAnd { .. } => 0x6d,
            AtomicOperator::ArrayAtomicRmwOr { .. } => 0x6e,
            AtomicOperator::ArrayAtomicRmwXor { .. } => 0x6f,
            AtomicOperator::ArrayAtomicRmwXchg { .. } => 0x70,
            AtomicOperator::ArrayAtomicRmwCmpxchg { .. } => 0x71,
            AtomicOperator::RefI31Shared => 0x72,
            AtomicOperator::Pause => 0x04,
        }
    }

    fn fields(&self) -> AtomicFields
        ensures { result ≡ atomic_fields self.now }
    {
        match self {
            AtomicOperator::MemoryAtomicNotify { memarg }
            | AtomicOperator::MemoryAtomicWait32 { memarg }
            | AtomicOperator::MemoryAtomicWait64 { memarg }
            | AtomicOperator::I32AtomicLoad { memarg }
            | AtomicOperator::I64AtomicLoad { memarg }
            | AtomicOperator::I32AtomicLoad8U { memarg }
            | AtomicOperator::I32AtomicLoad16U { memarg }
            | AtomicOperator::I64AtomicLoad8U { memarg }
            | AtomicOperator::I64AtomicLoad16U { memarg }
            | AtomicOperator::I64AtomicLoad32U { memarg }
            | AtomicOperator::I32AtomicStore { memarg }
            | AtomicOperator::I64AtomicStore { memarg }
            | AtomicOperator::I32AtomicStore8 { memarg }
            | AtomicOperator::I32AtomicStore16 { memarg }
            | AtomicOperator::I64AtomicStore8 { memarg }
            | AtomicOperator::I64AtomicStore16 { memarg }
            | AtomicOperator::I64AtomicStore32 { memarg }
            | AtomicOperator::I32AtomicRmwAdd { memarg }
            | AtomicOperator::I64AtomicRmwAdd { memarg }
            | AtomicOperator::I32AtomicRmw8AddU { memarg }
            | AtomicOperator::I32AtomicRmw16AddU { memarg }
            | AtomicOperator::I64AtomicRmw8AddU { memarg }
            | AtomicOperator::I64AtomicRmw16AddU { memarg }
            | AtomicOperator::I64AtomicRmw32AddU { memarg }
            | AtomicOperator::I32AtomicRmwSub { memarg }
            | AtomicOperator::I64AtomicRmwSub { memarg }
            | AtomicOperator::I32AtomicRmw8SubU { memarg }
            | AtomicOperator::I32AtomicRmw16SubU { memarg }
            | AtomicOperator::I64AtomicRmw8SubU { memarg }
            | AtomicOperator::I64AtomicRmw16SubU { memarg }
            | AtomicOperator::I64AtomicRmw32SubU { memarg }
            | AtomicOperator::I32AtomicRmwAnd { memarg }
            | AtomicOperator::I64AtomicRmwAnd { memarg }
            | AtomicOperator::I32AtomicRmw8AndU { memarg }
            | AtomicOperator::I32AtomicRmw16AndU { memarg }
            | AtomicOperator::I64AtomicRmw8AndU { memarg }
            | AtomicOperator::I64AtomicRmw16AndU { memarg }
            | AtomicOperator::I64AtomicRmw32AndU { memarg }
            | AtomicOperator::I32AtomicRmwOr { memarg }
            | AtomicOperator::I64AtomicRmwOr { memarg }
            | AtomicOperator::I32AtomicRmw8OrU { memarg }
            | AtomicOperator::I32AtomicRmw16OrU { memarg }
            | AtomicOperator::I64AtomicRmw8OrU { memarg }
            | AtomicOperator::I64AtomicRmw16OrU { memarg }
            | AtomicOperator::I64AtomicRmw32OrU { memarg }
            | AtomicOperator::I32AtomicRmwXor { memarg }
            | AtomicOperator::I64AtomicRmwXor { memarg }
            | AtomicOperator::I32AtomicRmw8XorU { memarg }
            | AtomicOperator::I32AtomicRmw16XorU { memarg }
            | AtomicOperator::I64AtomicRmw8XorU { memarg }
            | AtomicOperator::I64AtomicRmw16XorU { memarg }
            | AtomicOperator::I64AtomicRmw32XorU { memarg }
            | AtomicOperator::I32AtomicRmwXchg { memarg }
            | AtomicOperator::I64AtomicRmwXchg { memarg }
            | AtomicOperator::I32AtomicRmw8XchgU { memarg }
            | AtomicOperator::I32AtomicRmw16XchgU { memarg }
            | AtomicOperator::I64AtomicRmw8XchgU { memarg }
            | AtomicOperator::I64AtomicRmw16XchgU { memarg }
            | AtomicOperator::I64AtomicRmw32XchgU { memarg }
            | AtomicOperator::I32AtomicRmwCmpxchg { memarg }
            | AtomicOperator::I64AtomicRmwCmpxchg { memarg }
            | AtomicOperator::I32AtomicRmw8CmpxchgU { memarg }
            | AtomicOperator::I32AtomicRmw16CmpxchgU { memarg }
            | AtomicOperator::I64AtomicRmw8CmpxchgU { memarg }
            | AtomicOperator::I64AtomicRmw16CmpxchgU { memarg }
            | AtomicOperator::I64AtomicRmw32CmpxchgU { memarg } => AtomicFields::Memarg {
                memarg: *memarg,
            },
            AtomicOperator::AtomicFence { ordering } => AtomicFields::Ordering {
                ordering: *ordering,
            },
            AtomicOperator::GlobalAtomicGet {
                ordering,
                global_index,
            }
            | AtomicOperator::GlobalAtomicSet {
                ordering,
                global_index,
            }
            | AtomicOperator::GlobalAtomicRmwAdd {
                ordering,
                global_index,
            }
            | AtomicOperator::GlobalAtomicRmwSub {
                ordering,
                global_index,
            }
            | AtomicOperator::GlobalAtomicRmwAnd {
                ordering,
                global_index,
            }
            | AtomicOperator::GlobalAtomicRmwOr {
                ordering,
                global_index,
            }
            | AtomicOperator::GlobalAtomicRmwXor {
                ordering,
                global_index,
            }
            | AtomicOperator::GlobalAtomicRmwXchg {
                ordering,
                global_index,
            }
            | AtomicOperator::GlobalAtomicRmwCmpxchg {
                ordering,
                global_index,
            } => AtomicFields::OrderingGlobalIndex {
                ordering: *ordering,
                global_index: *global_index,
            },
            AtomicOperator::TableAtomicGet {
                ordering,
                table_index,
            }
            | AtomicOperator::TableAtomicSet {
                ordering,
                table_index,
            }
            | AtomicOperator::TableAtomicRmwXchg {
                ordering,
                table_index,
            }
            | AtomicOperator::TableAtomicRmwCmpxchg {
                ordering,
                table_index,
            } => AtomicFields::OrderingTableIndex {
                ordering: *ordering,
                table_index: *table_index,
            },
            AtomicOperator::StructAtomicGet {
                ordering,
                struct_type_index,
                field_index,
            }
            | AtomicOperator::StructAtomicGetS {
                ordering,
                struct_type_index,
                field_index,
            }
            | AtomicOperator::StructAtomicGetU {
                ordering,
                struct_type_index,
                field_index,
            }
            | AtomicOperator::StructAtomicSet {
                ordering,
                struct_type_index,
                field_index,
            }
            | AtomicOperator::StructAtomicRmwAdd {
                ordering,
                struct_type_index,
                field_index,
            }
            | AtomicOperator::StructAtomicRmwSub {
                ordering,
                struct_type_index,
                field_index,
            }
            | AtomicOperator::StructAtomicRmwAnd {
                ordering,
                struct_type_index,
                field_index,
            }
            | AtomicOperator::StructAtomicRmwOr {
                ordering,
                struct_type_index,
                field_index,
            }
            | AtomicOperator::StructAtomicRmwXor {
                ordering,
                struct_type_index,
                field_index,
            }
            | AtomicOperator::StructAtomicRmwXchg {
                ordering,
                struct_type_index,
                field_index,
            }
            | AtomicOperator::StructAtomicRmwCmpxchg {
                ordering,
                struct_type_index,
                field_index,
            } => AtomicFields::OrderingStructTypeIndexFieldIndex {
                ordering: *ordering,
                struct_type_index: *struct_type_index,
                field_index: *field_index,
            },
            AtomicOperator::ArrayAtomicGet {
                ordering,
                array_type_index,
            }
            | AtomicOperator::ArrayAtomicGetS {
                ordering,
                array_type_index,
            }
            | AtomicOperator::ArrayAtomicGetU {
                ordering,
                array_type_index,
            }
            | AtomicOperator::ArrayAtomicSet {
                ordering,
                array_type_index,
            }
            | AtomicOperator::ArrayAtomicRmwAdd {
                ordering,
                array_type_index,
            }
            | AtomicOperator::ArrayAtomicRmwSub {
                ordering,
                array_type_index,
            }
            | AtomicOperator::ArrayAtomicRmwAnd {
                ordering,
                array_type_index,
            }
            | AtomicOperator::ArrayAtomicRmwOr {
                ordering,
                array_type_index,
            }
            | AtomicOperator::ArrayAtomicRmwXor {
                ordering,
                array_type_index,
            }
            | AtomicOperator::ArrayAtomicRmwXchg {
                ordering,
                array_type_index,
            }
            | AtomicOperator::ArrayAtomicRmwCmpxchg {
                ordering,
                array_type_index,
            } => AtomicFields::OrderingArrayTypeIndex {
                ordering: *ordering,
                array_type_index: *array_type_index,
            },
            AtomicOperator::RefI31Shared | AtomicOperator::Pause => AtomicFields::Bare,
        }
    }
}

#[derive(Clone, Copy, PartialEq, Eq)]
pub enum AtomicFields {
    Memarg {
        memarg: MemArg,
    },
    Ordering {
        ordering: Ordering,
    },
    OrderingGlobalIndex {
        ordering: Ordering,
        global_index: u32,
    },
    OrderingTableIndex {
        ordering: Ordering,
        table_index: u32,
    },
    OrderingStructTypeIndexFieldIndex {
        ordering: Ordering,
        struct_type_index: u32,
        field_index: u32,
    },
    OrderingArrayTypeIndex {
        ordering: Ordering,
        array_type_index: u32,
    },
    Bare,
}

impl AtomicFields {
    fn is(&self, other: &AtomicFields) -> bool
        ensures member { result ≡ ⟦<AtomicFields as PartialEq>⟧.eq self.now other.now }
        ensures same { IsTrue result ↔ (self.now ≡ other.now) }
    {
        self == other
    }
}

impl PartialEq for AtomicOperator {
    ghost use Rattle.std.specs.Cmp.{partial_equiv_from_equiv, and_equiv, on_equiv, nat_eq_equiv};
    ghost use Rattle.wasm_instr_ops.specs.contracts.atomic.AtomicFieldsEq.TheImpl.Laws.{laws-law};

    ghost eq = { eq_of_both (on atomic_subopcode nat_eq) (on atomic_fields ⟦<AtomicFields as PartialEq>⟧.eq) };

    ghost laws = { partial_equiv_from_equiv
        (and_equiv (on_equiv atomic_subopcode nat_eq_equiv) (on_equiv atomic_fields laws-law)) };

    fn eq(&self, other: &AtomicOperator) -> bool
        ensures member { result ≡ eq_of_both (on atomic_subopcode nat_eq)
            (on atomic_fields ⟦<AtomicFields as PartialEq>⟧.eq) self.now other.now }
        ensures same { IsTrue result ↔ (self.now ≡ other.now) }
    {
        self.code() == other.code() && self.fields().is(&other.fields())
    }
}

impl Eq for AtomicOperator {
    ghost use Rattle.std.specs.Cmp.{and_equiv, on_equiv, nat_eq_equiv};
    ghost use Rattle.wasm_instr_ops.specs.contracts.atomic.AtomicFieldsEq.TheImpl.Laws.{laws-law};

    ghost laws = { and_equiv (on_equiv atomic_subopcode nat_eq_equiv) (on_equiv atomic_fields laws-law) };
}

impl Debug for AtomicOperator {
    fn fmt<W: fmt::Write>(&self, f: &mut Formatter<W>) -> fmt::Result {
        match self.fields() {
            AtomicFields::Memarg { memarg } => f
                .debug_struct(self.name())
                .field("memarg", &memarg)
                .finish(),
            AtomicFields::Ordering { ordering } => f
                .debug_struct(self.name())
                .field("ordering", &ordering)
                .finish(),
            AtomicFields::OrderingGlobalIndex {
                ordering,
                global_index,
            } => f
                .debug_struct(self.name())
                .field("ordering", &ordering)
                .field("global_index", &global_index)
                .finish(),
            AtomicFields::OrderingTableIndex {
                ordering,
                table_index,
            } => f
                .debug_struct(self.name())
                .field("ordering", &ordering)
                .field("table_index", &table_index)
                .finish(),
            AtomicFields::OrderingStructTypeIndexFieldIndex {
                ordering,
                struct_type_index,
                field_index,
            } => f
                .debug_struct(self.name())
                .field("ordering", &ordering)
                .field("struct_type_index", &struct_type_index)
                .field("field_index", &field_index)
                .finish(),
            AtomicFields::OrderingArrayTypeIndex {
                ordering,
                array_type_index,
            } => f
                .debug_struct(self.name())
                .field("ordering", &ordering)
                .field("array_type_index", &array_type_index)
                .finish(),
            AtomicFields::Bare => f.write_str(self.name()),
        }
    }
}
