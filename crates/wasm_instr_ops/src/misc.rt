//! Written by tools/lists.py from tools/operators.tsv.
ghost use Rattle.std.specs.Prelude.{◌≡◌};
ghost use Rattle.wasm_instr_ops.specs.Misc.{misc_proposal, misc_name, misc_subopcode};

use wasm_imm::{OperatorInfo, Proposal};

/// The operators with the prefix byte 0xfc. Numeric, Memory and Table Instructions; proposals
/// memory control and wide arithmetic.
#[derive(Clone, Copy, Debug, PartialEq, Eq)]
pub enum MiscOperator {
    I32TruncSatF32S,
    I32TruncSatF32U,
    I32TruncSatF64S,
    I32TruncSatF64U,
    I64TruncSatF32S,
    I64TruncSatF32U,
    I64TruncSatF64S,
    I64TruncSatF64U,
    MemoryInit { data_index: u32, mem: u32 },
    DataDrop { data_index: u32 },
    MemoryCopy { dst_mem: u32, src_mem: u32 },
    MemoryFill { mem: u32 },
    TableInit { elem_index: u32, table: u32 },
    ElemDrop { elem_index: u32 },
    TableCopy { dst_table: u32, src_table: u32 },
    TableFill { table: u32 },
    TableGrow { table: u32 },
    TableSize { table: u32 },
    MemoryDiscard { mem: u32 },
    I64Add128,
    I64Sub128,
    I64MulWideS,
    I64MulWideU,
}

impl MiscOperator {
    /// Returns the row of the operator.
    pub fn info(&self) -> OperatorInfo
        ensures proposal { result.proposal ≡ misc_proposal self.now }
        ensures name { result.name.now ≡ misc_name self.now }
        ensures prefix { result.prefix ≡ Some 0xfc }
        ensures code { result.code ≡ misc_subopcode self.now }
    {
        OperatorInfo {
            proposal: self.proposal(),
            name: self.name(),
            prefix: Some(0xfc),
            code: self.code(),
        }
    }

    fn proposal(&self) -> Proposal
        ensures { result ≡ misc_proposal self.now }
    {
        match self {
            MiscOperator::MemoryInit { .. }
            | MiscOperator::DataDrop { .. }
            | MiscOperator::MemoryCopy { .. }
            | MiscOperator::MemoryFill { .. }
            | MiscOperator::TableInit { .. }
            | MiscOperator::ElemDrop { .. }
            | MiscOperator::TableCopy { .. } => Proposal::BulkMemory,
            MiscOperator::TableFill { .. }
            | MiscOperator::TableGrow { .. }
            | MiscOperator::TableSize { .. } => Proposal::ReferenceTypes,
            MiscOperator::MemoryDiscard { .. } => Proposal::MemoryControl,
            MiscOperator::I64Add128
            | MiscOperator::I64Sub128
            | MiscOperator::I64MulWideS
            | MiscOperator::I64MulWideU => Proposal::WideArithmetic,
            _ => Proposal::SaturatingFloatToInt,
        }
    }

    fn name(&self) -> &'static str
        ensures { result.now ≡ misc_name self.now }
    {
        match self {
            MiscOperator::I32TruncSatF32S => "I32TruncSatF32S",
            MiscOperator::I32TruncSatF32U => "I32TruncSatF32U",
            MiscOperator::I32TruncSatF64S => "I32TruncSatF64S",
            MiscOperator::I32TruncSatF64U => "I32TruncSatF64U",
            MiscOperator::I64TruncSatF32S => "I64TruncSatF32S",
            MiscOperator::I64TruncSatF32U => "I64TruncSatF32U",
            MiscOperator::I64TruncSatF64S => "I64TruncSatF64S",
            MiscOperator::I64TruncSatF64U => "I64TruncSatF64U",
            MiscOperator::MemoryInit { .. } => "MemoryInit",
            MiscOperator::DataDrop { .. } => "DataDrop",
            MiscOperator::MemoryCopy { .. } => "MemoryCopy",
            MiscOperator::MemoryFill { .. } => "MemoryFill",
            MiscOperator::TableInit { .. } => "TableInit",
            MiscOperator::ElemDrop { .. } => "ElemDrop",
            MiscOperator::TableCopy { .. } => "TableCopy",
            MiscOperator::TableFill { .. } => "TableFill",
            MiscOperator::TableGrow { .. } => "TableGrow",
            MiscOperator::TableSize { .. } => "TableSize",
            MiscOperator::MemoryDiscard { .. } => "MemoryDiscard",
            MiscOperator::I64Add128 => "I64Add128",
            MiscOperator::I64Sub128 => "I64Sub128",
            MiscOperator::I64MulWideS => "I64MulWideS",
            MiscOperator::I64MulWideU => "I64MulWideU",
        }
    }

    /// Returns the subopcode.
    #[inline(always)]
    pub fn code(&self) -> u32
        ensures { result ≡ misc_subopcode self.now }
    {
        match self {
            MiscOperator::I32TruncSatF32S => 0x00,
            MiscOperator::I32TruncSatF32U => 0x01,
            MiscOperator::I32TruncSatF64S => 0x02,
            MiscOperator::I32TruncSatF64U => 0x03,
            MiscOperator::I64TruncSatF32S => 0x04,
            MiscOperator::I64TruncSatF32U => 0x05,
            MiscOperator::I64TruncSatF64S => 0x06,
            MiscOperator::I64TruncSatF64U => 0x07,
            MiscOperator::MemoryInit { .. } => 0x08,
            MiscOperator::DataDrop { .. } => 0x09,
            MiscOperator::MemoryCopy { .. } => 0x0a,
            MiscOperator::MemoryFill { .. } => 0x0b,
            MiscOperator::TableInit { .. } => 0x0c,
            MiscOperator::ElemDrop { .. } => 0x0d,
            MiscOperator::TableCopy { .. } => 0x0e,
            MiscOperator::TableFill { .. } => 0x11,
            MiscOperator::TableGrow { .. } => 0x0f,
            MiscOperator::TableSize { .. } => 0x10,
            MiscOperator::MemoryDiscard { .. } => 0x12,
            MiscOperator::I64Add128 => 0x13,
            MiscOperator::I64Sub128 => 0x14,
            MiscOperator::I64MulWideS => 0x15,
            MiscOperator::I64MulWideU => 0x16,
        }
    }
}
