//! Overridden visits of the operators with prefix 0xfc. Written by tools/lists.py from tools/operators.tsv.
use crate::teller::Teller;
use wasm_instr_ops::MiscOperator;
use wasm_visit_groups::{VisitMisc, Visitor};

impl VisitMisc for Teller {
    fn visit_i32_trunc_sat_f32_s(&mut self) -> Self::Output {
        self.own_misc(MiscOperator::I32TruncSatF32S)
    }

    fn visit_i32_trunc_sat_f32_u(&mut self) -> Self::Output {
        self.own_misc(MiscOperator::I32TruncSatF32U)
    }

    fn visit_i32_trunc_sat_f64_s(&mut self) -> Self::Output {
        self.own_misc(MiscOperator::I32TruncSatF64S)
    }

    fn visit_i32_trunc_sat_f64_u(&mut self) -> Self::Output {
        self.own_misc(MiscOperator::I32TruncSatF64U)
    }

    fn visit_i64_trunc_sat_f32_s(&mut self) -> Self::Output {
        self.own_misc(MiscOperator::I64TruncSatF32S)
    }

    fn visit_i64_trunc_sat_f32_u(&mut self) -> Self::Output {
        self.own_misc(MiscOperator::I64TruncSatF32U)
    }

    fn visit_i64_trunc_sat_f64_s(&mut self) -> Self::Output {
        self.own_misc(MiscOperator::I64TruncSatF64S)
    }

    fn visit_i64_trunc_sat_f64_u(&mut self) -> Self::Output {
        self.own_misc(MiscOperator::I64TruncSatF64U)
    }

    fn visit_memory_init(&mut self, data_index: u32, mem: u32) -> Self::Output {
        self.own_misc(MiscOperator::MemoryInit { data_index, mem })
    }

    fn visit_data_drop(&mut self, data_index: u32) -> Self::Output {
        self.own_misc(MiscOperator::DataDrop { data_index })
    }

    fn visit_memory_copy(&mut self, dst_mem: u32, src_mem: u32) -> Self::Output {
        self.own_misc(MiscOperator::MemoryCopy { dst_mem, src_mem })
    }

    fn visit_memory_fill(&mut self, mem: u32) -> Self::Output {
        self.own_misc(MiscOperator::MemoryFill { mem })
    }

    fn visit_table_init(&mut self, elem_index: u32, table: u32) -> Self::Output {
        self.own_misc(MiscOperator::TableInit { elem_index, table })
    }

    fn visit_elem_drop(&mut self, elem_index: u32) -> Self::Output {
        self.own_misc(MiscOperator::ElemDrop { elem_index })
    }

    fn visit_table_copy(&mut self, dst_table: u32, src_table: u32) -> Self::Output {
        self.own_misc(MiscOperator::TableCopy {
            dst_table,
            src_table,
        })
    }

    fn visit_table_fill(&mut self, table: u32) -> Self::Output {
        self.own_misc(MiscOperator::TableFill { table })
    }

    fn visit_table_grow(&mut self, table: u32) -> Self::Output {
        self.own_misc(MiscOperator::TableGrow { table })
    }

    fn visit_table_size(&mut self, table: u32) -> Self::Output {
        self.own_misc(MiscOperator::TableSize { table })
    }

    fn visit_memory_discard(&mut self, mem: u32) -> Self::Output {
        self.own_misc(MiscOperator::MemoryDiscard { mem })
    }

    fn visit_i64_add128(&mut self) -> Self::Output {
        self.own_misc(MiscOperator::I64Add128)
    }

    fn visit_i64_sub128(&mut self) -> Self::Output {
        self.own_misc(MiscOperator::I64Sub128)
    }

    fn visit_i64_mul_wide_s(&mut self) -> Self::Output {
        self.own_misc(MiscOperator::I64MulWideS)
    }

    fn visit_i64_mul_wide_u(&mut self) -> Self::Output {
        self.own_misc(MiscOperator::I64MulWideU)
    }
}
