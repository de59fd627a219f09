//! Written by tools/lists.py from tools/operators.tsv.
ghost use Rattle.wasm_instr.specs.declared.operator.Operator.{Operator};
ghost use Rattle.wasm_instr_ops.specs.declared.misc.MiscOperator.{MiscOperator};

use crate::route::ToOwn;
use crate::routes::Routes;
use crate::visitor::Visitor;
use wasm_instr::Operator;
use wasm_instr_ops::MiscOperator;

/// Visits of the operators with the prefix byte 0xfc. Specification: Numeric, Memory and Table
/// Instructions. By default they call `visit_any`. A visitor that overrides visits names `OwnMisc`
/// in its `Visits`.
pub trait VisitMisc: Visitor<Visits: Routes<Misc: ToOwn>> {
    #[inline(always)]
    fn visit_i32_trunc_sat_f32_s(&mut self) -> Self::Output
        ensures { Self.visits self.old (Operator.Misc MiscOperator.I32TruncSatF32S) result self.new }
    {
        self.visit_any(Operator::Misc(MiscOperator::I32TruncSatF32S))
    }

    #[inline(always)]
    fn visit_i32_trunc_sat_f32_u(&mut self) -> Self::Output
        ensures { Self.visits self.old (Operator.Misc MiscOperator.I32TruncSatF32U) result self.new }
    {
        self.visit_any(Operator::Misc(MiscOperator::I32TruncSatF32U))
    }

    #[inline(always)]
    fn visit_i32_trunc_sat_f64_s(&mut self) -> Self::Output
        ensures { Self.visits self.old (Operator.Misc MiscOperator.I32TruncSatF64S) result self.new }
    {
        self.visit_any(Operator::Misc(MiscOperator::I32TruncSatF64S))
    }

    #[inline(always)]
    fn visit_i32_trunc_sat_f64_u(&mut self) -> Self::Output
        ensures { Self.visits self.old (Operator.Misc MiscOperator.I32TruncSatF64U) result self.new }
    {
        self.visit_any(Operator::Misc(MiscOperator::I32TruncSatF64U))
    }

    #[inline(always)]
    fn visit_i64_trunc_sat_f32_s(&mut self) -> Self::Output
        ensures { Self.visits self.old (Operator.Misc MiscOperator.I64TruncSatF32S) result self.new }
    {
        self.visit_any(Operator::Misc(MiscOperator::I64TruncSatF32S))
    }

    #[inline(always)]
    fn visit_i64_trunc_sat_f32_u(&mut self) -> Self::Output
        ensures { Self.visits self.old (Operator.Misc MiscOperator.I64TruncSatF32U) result self.new }
    {
        self.visit_any(Operator::Misc(MiscOperator::I64TruncSatF32U))
    }

    #[inline(always)]
    fn visit_i64_trunc_sat_f64_s(&mut self) -> Self::Output
        ensures { Self.visits self.old (Operator.Misc MiscOperator.I64TruncSatF64S) result self.new }
    {
        self.visit_any(Operator::Misc(MiscOperator::I64TruncSatF64S))
    }

    #[inline(always)]
    fn visit_i64_trunc_sat_f64_u(&mut self) -> Self::Output
        ensures { Self.visits self.old (Operator.Misc MiscOperator.I64TruncSatF64U) result self.new }
    {
        self.visit_any(Operator::Misc(MiscOperator::I64TruncSatF64U))
    }

    #[inline(always)]
    fn visit_memory_init(&mut self, data_index: u32, mem: u32) -> Self::Output
        ensures { Self.visits self.old (Operator.Misc (MiscOperator.MemoryInit data_index mem)) result self.new }
    {
        self.visit_any(Operator::Misc(MiscOperator::MemoryInit { data_index, mem }))
    }

    #[inline(always)]
    fn visit_data_drop(&mut self, data_index: u32) -> Self::Output
        ensures { Self.visits self.old (Operator.Misc (MiscOperator.DataDrop data_index)) result self.new }
    {
        self.visit_any(Operator::Misc(MiscOperator::DataDrop { data_index }))
    }

    #[inline(always)]
    fn visit_memory_copy(&mut self, dst_mem: u32, src_mem: u32) -> Self::Output
        ensures { Self.visits self.old (Operator.Misc (MiscOperator.MemoryCopy dst_mem src_mem)) result self.new }
    {
        self.visit_any(Operator::Misc(MiscOperator::MemoryCopy { dst_mem, src_mem }))
    }

    #[inline(always)]
    fn visit_memory_fill(&mut self, mem: u32) -> Self::Output
        ensures { Self.visits self.old (Operator.Misc (MiscOperator.MemoryFill mem)) result self.new }
    {
        self.visit_any(Operator::Misc(MiscOperator::MemoryFill { mem }))
    }

    #[inline(always)]
    fn visit_table_init(&mut self, elem_index: u32, table: u32) -> Self::Output
        ensures { Self.visits self.old (Operator.Misc (MiscOperator.TableInit elem_index table)) result self.new }
    {
        self.visit_any(Operator::Misc(MiscOperator::TableInit { elem_index, table }))
    }

    #[inline(always)]
    fn visit_elem_drop(&mut self, elem_index: u32) -> Self::Output
        ensures { Self.visits self.old (Operator.Misc (MiscOperator.ElemDrop elem_index)) result self.new }
    {
        self.visit_any(Operator::Misc(MiscOperator::ElemDrop { elem_index }))
    }

    #[inline(always)]
    fn visit_table_copy(&mut self, dst_table: u32, src_table: u32) -> Self::Output
        ensures { Self.visits self.old (Operator.Misc (MiscOperator.TableCopy dst_table src_table)) result self.new }
    {
        self.visit_any(Operator::Misc(MiscOperator::TableCopy {
            dst_table,
            src_table,
        }))
    }

    #[inline(always)]
    fn visit_table_fill(&mut self, table: u32) -> Self::Output
        ensures { Self.visits self.old (Operator.Misc (MiscOperator.TableFill table)) result self.new }
    {
        self.visit_any(Operator::Misc(MiscOperator::TableFill { table }))
    }

    #[inline(always)]
    fn visit_table_grow(&mut self, table: u32) -> Self::Output
        ensures { Self.visits self.old (Operator.Misc (MiscOperator.TableGrow table)) result self.new }
    {
        self.visit_any(Operator::Misc(MiscOperator::TableGrow { table }))
    }

    #[inline(always)]
    fn visit_table_size(&mut self, table: u32) -> Self::Output
        ensures { Self.visits self.old (Operator.Misc (MiscOperator.TableSize table)) result self.new }
    {
        self.visit_any(Operator::Misc(MiscOperator::TableSize { table }))
    }

    #[inline(always)]
    fn visit_memory_discard(&mut self, mem: u32) -> Self::Output
        ensures { Self.visits self.old (Operator.Misc (MiscOperator.MemoryDiscard mem)) result self.new }
    {
        self.visit_any(Operator::Misc(MiscOperator::MemoryDiscard { mem }))
    }

    #[inline(always)]
    fn visit_i64_add128(&mut self) -> Self::Output
        ensures { Self.visits self.old (Operator.Misc MiscOperator.I64Add128) result self.new }
    {
        self.visit_any(Operator::Misc(MiscOperator::I64Add128))
    }

    #[inline(always)]
    fn visit_i64_sub128(&mut self) -> Self::Output
        ensures { Self.visits self.old (Operator.Misc MiscOperator.I64Sub128) result self.new }
    {
        self.visit_any(Operator::Misc(MiscOperator::I64Sub128))
    }

    #[inline(always)]
    fn visit_i64_mul_wide_s(&mut self) -> Self::Output
        ensures { Self.visits self.old (Operator.Misc MiscOperator.I64MulWideS) result self.new }
    {
        self.visit_any(Operator::Misc(MiscOperator::I64MulWideS))
    }

    #[inline(always)]
    fn visit_i64_mul_wide_u(&mut self) -> Self::Output
        ensures { Self.visits self.old (Operator.Misc MiscOperator.I64MulWideU) result self.new }
    {
        self.visit_any(Operator::Misc(MiscOperator::I64MulWideU))
    }
}
