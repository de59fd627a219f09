//! Written by tools/lists.py from tools/operators.tsv.
ghost use Rattle.wasm_instr.specs.declared.operator.Operator.{Operator};

use crate::route::ToOwn;
use crate::routes::Routes;
use crate::visitor::Visitor;
use wasm_below::{HeapType, ValType};
use wasm_imm::{BlockType, Ieee32, Ieee64, MemArg, ResumeTable, SelectTypes, TryTable};
use wasm_instr::Operator;

/// Visits of the operators with a one-byte opcode, except the numeric ones and the branch table.
/// Specification: Instructions. By default they call `visit_any`. A visitor that overrides visits
/// names `OwnOneByte` in its `Visits`.
pub trait VisitOneByte: Visitor<Visits: Routes<OneByte: ToOwn>> {
    #[inline(always)]
    fn visit_unreachable(&mut self) -> Self::Output
        ensures { Self.visits self.old Operator.Unreachable result self.new }
    {
        self.visit_any(Operator::Unreachable)
    }

    #[inline(always)]
    fn visit_nop(&mut self) -> Self::Output
        ensures { Self.visits self.old Operator.Nop result self.new }
    {
        self.visit_any(Operator::Nop)
    }

    #[inline(always)]
    fn visit_block(&mut self, blockty: BlockType) -> Self::Output
        ensures { Self.visits self.old (Operator.Block blockty) result self.new }
    {
        self.visit_any(Operator::Block { blockty })
    }

    #[inline(always)]
    fn visit_loop(&mut self, blockty: BlockType) -> Self::Output
        ensures { Self.visits self.old (Operator.Loop blockty) result self.new }
    {
        self.visit_any(Operator::Loop { blockty })
    }

    #[inline(always)]
    fn visit_if(&mut self, blockty: BlockType) -> Self::Output
        ensures { Self.visits self.old (Operator.If blockty) result self.new }
    {
        self.visit_any(Operator::If { blockty })
    }

    #[inline(always)]
    fn visit_else(&mut self) -> Self::Output
        ensures { Self.visits self.old Operator.Else result self.new }
    {
        self.visit_any(Operator::Else)
    }

    #[inline(always)]
    fn visit_end(&mut self) -> Self::Output
        ensures { Self.visits self.old Operator.End result self.new }
    {
        self.visit_any(Operator::End)
    }

    #[inline(always)]
    fn visit_br(&mut self, relative_depth: u32) -> Self::Output
        ensures { Self.visits self.old (Operator.Br relative_depth) result self.new }
    {
        self.visit_any(Operator::Br { relative_depth })
    }

    #[inline(always)]
    fn visit_br_if(&mut self, relative_depth: u32) -> Self::Output
        ensures { Self.visits self.old (Operator.BrIf relative_depth) result self.new }
    {
        self.visit_any(Operator::BrIf { relative_depth })
    }

    #[inline(always)]
    fn visit_return(&mut self) -> Self::Output
        ensures { Self.visits self.old Operator.Return result self.new }
    {
        self.visit_any(Operator::Return)
    }

    #[inline(always)]
    fn visit_call(&mut self, function_index: u32) -> Self::Output
        ensures { Self.visits self.old (Operator.Call function_index) result self.new }
    {
        self.visit_any(Operator::Call { function_index })
    }

    #[inline(always)]
    fn visit_call_indirect(&mut self, type_index: u32, table_index: u32) -> Self::Output
        ensures { Self.visits self.old (Operator.CallIndirect type_index table_index) result self.new }
    {
        self.visit_any(Operator::CallIndirect {
            type_index,
            table_index,
        })
    }

    #[inline(always)]
    fn visit_drop(&mut self) -> Self::Output
        ensures { Self.visits self.old Operator.Drop result self.new }
    {
        self.visit_any(Operator::Drop)
    }

    #[inline(always)]
    fn visit_select(&mut self) -> Self::Output
        ensures { Self.visits self.old Operator.Select result self.new }
    {
        self.visit_any(Operator::Select)
    }

    #[inline(always)]
    fn visit_local_get(&mut self, local_index: u32) -> Self::Output
        ensures { Self.visits self.old (Operator.LocalGet local_index) result self.new }
    {
        self.visit_any(Operator::LocalGet { local_index })
    }

    #[inline(always)]
    fn visit_local_set(&mut self, local_index: u32) -> Self::Output
        ensures { Self.visits self.old (Operator.LocalSet local_index) result self.new }
    {
        self.visit_any(Operator::LocalSet { local_index })
    }

    #[inline(always)]
    fn visit_local_tee(&mut self, local_index: u32) -> Self::Output
        ensures { Self.visits self.old (Operator.LocalTee local_index) result self.new }
    {
        self.visit_any(Operator::LocalTee { local_index })
    }

    #[inline(always)]
    fn visit_global_get(&mut self, global_index: u32) -> Self::Output
        ensures { Self.visits self.old (Operator.GlobalGet global_index) result self.new }
    {
        self.visit_any(Operator::GlobalGet { global_index })
    }

    #[inline(always)]
    fn visit_global_set(&mut self, global_index: u32) -> Self::Output
        ensures { Self.visits self.old (Operator.GlobalSet global_index) result self.new }
    {
        self.visit_any(Operator::GlobalSet { global_index })
    }

    #[inline(always)]
    fn visit_i32_load(&mut self, memarg: MemArg) -> Self::Output
        ensures { Self.visits self.old (Operator.I32Load memarg) result self.new }
    {
        self.visit_any(Operator::I32Load { memarg })
    }

    #[inline(always)]
    fn visit_i64_load(&mut self, memarg: MemArg) -> Self::Output
        ensures { Self.visits self.old (Operator.I64Load memarg) result self.new }
    {
        self.visit_any(Operator::I64Load { memarg })
    }

    #[inline(always)]
    fn visit_f32_load(&mut self, memarg: MemArg) -> Self::Output
        ensures { Self.visits self.old (Operator.F32Load memarg) result self.new }
    {
        self.visit_any(Operator::F32Load { memarg })
    }

    #[inline(always)]
    fn visit_f64_load(&mut self, memarg: MemArg) -> Self::Output
        ensures { Self.visits self.old (Operator.F64Load memarg) result self.new }
    {
        self.visit_any(Operator::F64Load { memarg })
    }

    #[inline(always)]
    fn visit_i32_load8_s(&mut self, memarg: MemArg) -> Self::Output
        ensures { Self.visits self.old (Operator.I32Load8S memarg) result self.new }
    {
        self.visit_any(Operator::I32Load8S { memarg })
    }

    #[inline(always)]
    fn visit_i32_load8_u(&mut self, memarg: MemArg) -> Self::Output
        ensures { Self.visits self.old (Operator.I32Load8U memarg) result self.new }
    {
        self.visit_any(Operator::I32Load8U { memarg })
    }

    #[inline(always)]
    fn visit_i32_load16_s(&mut self, memarg: MemArg) -> Self::Output
        ensures { Self.visits self.old (Operator.I32Load16S memarg) result self.new }
    {
        self.visit_any(Operator::I32Load16S { memarg })
    }

    #[inline(always)]
    fn visit_i32_load16_u(&mut self, memarg: MemArg) -> Self::Output
        ensures { Self.visits self.old (Operator.I32Load16U memarg) result self.new }
    {
        self.visit_any(Operator::I32Load16U { memarg })
    }

    #[inline(always)]
    fn visit_i64_load8_s(&mut self, memarg: MemArg) -> Self::Output
        ensures { Self.visits self.old (Operator.I64Load8S memarg) result self.new }
    {
        self.visit_any(Operator::I64Load8S { memarg })
    }

    #[inline(always)]
    fn visit_i64_load8_u(&mut self, memarg: MemArg) -> Self::Output
        ensures { Self.visits self.old (Operator.I64Load8U memarg) result self.new }
    {
        self.visit_any(Operator::I64Load8U { memarg })
    }

    #[inline(always)]
    fn visit_i64_load16_s(&mut self, memarg: MemArg) -> Self::Output
        ensures { Self.visits self.old (Operator.I64Load16S memarg) result self.new }
    {
        self.visit_any(Operator::I64Load16S { memarg })
    }

    #[inline(always)]
    fn visit_i64_load16_u(&mut self, memarg: MemArg) -> Self::Output
        ensures { Self.visits self.old (Operator.I64Load16U memarg) result self.new }
    {
        self.visit_any(Operator::I64Load16U { memarg })
    }

    #[inline(always)]
    fn visit_i64_load32_s(&mut self, memarg: MemArg) -> Self::Output
        ensures { Self.visits self.old (Operator.I64Load32S memarg) result self.new }
    {
        self.visit_any(Operator::I64Load32S { memarg })
    }

    #[inline(always)]
    fn visit_i64_load32_u(&mut self, memarg: MemArg) -> Self::Output
        ensures { Self.visits self.old (Operator.I64Load32U memarg) result self.new }
    {
        self.visit_any(Operator::I64Load32U { memarg })
    }

    #[inline(always)]
    fn visit_i32_store(&mut self, memarg: MemArg) -> Self::Output
        ensures { Self.visits self.old (Operator.I32Store memarg) result self.new }
    {
        self.visit_any(Operator::I32Store { memarg })
    }

    #[inline(always)]
    fn visit_i64_store(&mut self, memarg: MemArg) -> Self::Output
        ensures { Self.visits self.old (Operator.I64Store memarg) result self.new }
    {
        self.visit_any(Operator::I64Store { memarg })
    }

    #[inline(always)]
    fn visit_f32_store(&mut self, memarg: MemArg) -> Self::Output
        ensures { Self.visits self.old (Operator.F32Store memarg) result self.new }
    {
        self.visit_any(Operator::F32Store { memarg })
    }

    #[inline(always)]
    fn visit_f64_store(&mut self, memarg: MemArg) -> Self::Output
        ensures { Self.visits self.old (Operator.F64Store memarg) result self.new }
    {
        self.visit_any(Operator::F64Store { memarg })
    }

    #[inline(always)]
    fn visit_i32_store8(&mut self, memarg: MemArg) -> Self::Output
        ensures { Self.visits self.old (Operator.I32Store8 memarg) result self.new }
    {
        self.visit_any(Operator::I32Store8 { memarg })
    }

    #[inline(always)]
    fn visit_i32_store16(&mut self, memarg: MemArg) -> Self::Output
        ensures { Self.visits self.old (Operator.I32Store16 memarg) result self.new }
    {
        self.visit_any(Operator::I32Store16 { memarg })
    }

    #[inline(always)]
    fn visit_i64_store8(&mut self, memarg: MemArg) -> Self::Output
        ensures { Self.visits self.old (Operator.I64Store8 memarg) result self.new }
    {
        self.visit_any(Operator::I64Store8 { memarg })
    }

    #[inline(always)]
    fn visit_i64_store16(&mut self, memarg: MemArg) -> Self::Output
        ensures { Self.visits self.old (Operator.I64Store16 memarg) result self.new }
    {
        self.visit_any(Operator::I64Store16 { memarg })
    }

    #[inline(always)]
    fn visit_i64_store32(&mut self, memarg: MemArg) -> Self::Output
        ensures { Self.visits self.old (Operator.I64Store32 memarg) result self.new }
    {
        self.visit_any(Operator::I64Store32 { memarg })
    }

    #[inline(always)]
    fn visit_memory_size(&mut self, mem: u32) -> Self::Output
        ensures { Self.visits self.old (Operator.MemorySize mem) result self.new }
    {
        self.visit_any(Operator::MemorySize { mem })
    }

    #[inline(always)]
    fn visit_memory_grow(&mut self, mem: u32) -> Self::Output
        ensures { Self.visits self.old (Operator.MemoryGrow mem) result self.new }
    {
        self.visit_any(Operator::MemoryGrow { mem })
    }

    #[inline(always)]
    fn visit_i32_const(&mut self, value: i32) -> Self::Output
        ensures { Self.visits self.old (Operator.I32Const value) result self.new }
    {
        self.visit_any(Operator::I32Const { value })
    }

    #[inline(always)]
    fn visit_i64_const(&mut self, value: i64) -> Self::Output
        ensures { Self.visits self.old (Operator.I64Const value) result self.new }
    {
        self.visit_any(Operator::I64Const { value })
    }

    #[inline(always)]
    fn visit_f32_const(&mut self, value: Ieee32) -> Self::Output
        ensures { Self.visits self.old (Operator.F32Const value) result self.new }
    {
        self.visit_any(Operator::F32Const { value })
    }

    #[inline(always)]
    fn visit_f64_const(&mut self, value: Ieee64) -> Self::Output
        ensures { Self.visits self.old (Operator.F64Const value) result self.new }
    {
        self.visit_any(Operator::F64Const { value })
    }

    #[inline(always)]
    fn visit_ref_eq(&mut self) -> Self::Output
        ensures { Self.visits self.old Operator.RefEq result self.new }
    {
        self.visit_any(Operator::RefEq)
    }

    #[inline(always)]
    fn visit_typed_select(&mut self, ty: ValType) -> Self::Output
        ensures { Self.visits self.old (Operator.TypedSelect ty) result self.new }
    {
        self.visit_any(Operator::TypedSelect { ty })
    }

    #[inline(always)]
    fn visit_typed_select_multi(&mut self, tys: SelectTypes) -> Self::Output
        ensures { Self.visits self.old (Operator.TypedSelectMulti tys) result self.new }
    {
        self.visit_any(Operator::TypedSelectMulti { tys })
    }

    #[inline(always)]
    fn visit_ref_null(&mut self, hty: HeapType) -> Self::Output
        ensures { Self.visits self.old (Operator.RefNull hty) result self.new }
    {
        self.visit_any(Operator::RefNull { hty })
    }

    #[inline(always)]
    fn visit_ref_is_null(&mut self) -> Self::Output
        ensures { Self.visits self.old Operator.RefIsNull result self.new }
    {
        self.visit_any(Operator::RefIsNull)
    }

    #[inline(always)]
    fn visit_ref_func(&mut self, function_index: u32) -> Self::Output
        ensures { Self.visits self.old (Operator.RefFunc function_index) result self.new }
    {
        self.visit_any(Operator::RefFunc { function_index })
    }

    #[inline(always)]
    fn visit_table_get(&mut self, table: u32) -> Self::Output
        ensures { Self.visits self.old (Operator.TableGet table) result self.new }
    {
        self.visit_any(Operator::TableGet { table })
    }

    #[inline(always)]
    fn visit_table_set(&mut self, table: u32) -> Self::Output
        ensures { Self.visits self.old (Operator.TableSet table) result self.new }
    {
        self.visit_any(Operator::TableSet { table })
    }

    #[inline(always)]
    fn visit_return_call(&mut self, function_index: u32) -> Self::Output
        ensures { Self.visits self.old (Operator.ReturnCall function_index) result self.new }
    {
        self.visit_any(Operator::ReturnCall { function_index })
    }

    #[inline(always)]
    fn visit_return_call_indirect(&mut self, type_index: u32, table_index: u32) -> Self::Output
        ensures { Self.visits self.old (Operator.ReturnCallIndirect type_index table_index) result self.new }
    {
        self.visit_any(Operator::ReturnCallIndirect {
            type_index,
            table_index,
        })
    }

    #[inline(always)]
    fn visit_try_table(&mut self, try_table: TryTable) -> Self::Output
        ensures { Self.visits self.old (Operator.TryTable try_table) result self.new }
    {
        self.visit_any(Operator::TryTable { try_table })
    }

    #[inline(always)]
    fn visit_throw(&mut self, tag_index: u32) -> Self::Output
        ensures { Self.visits self.old (Operator.Throw tag_index) result self.new }
    {
        self.visit_any(Operator::Throw { tag_index })
    }

    #[inline(always)]
    fn visit_throw_ref(&mut self) -> Self::Output
        ensures { Self.visits self.old Operator.ThrowRef result self.new }
    {
        self.visit_any(Operator::ThrowRef)
    }

    #[inline(always)]
    fn visit_try(&mut self, blockty: BlockType) -> Self::Output
        ensures { Self.visits self.old (Operator.Try blockty) result self.new }
    {
        self.visit_any(Operator::Try { blockty })
    }

    #[inline(always)]
    fn visit_catch(&mut self, tag_index: u32) -> Self::Output
        ensures { Self.visits self.old (Operator.Catch tag_index) result self.new }
    {
        self.visit_any(Operator::Catch { tag_index })
    }

    #[inline(always)]
    fn visit_rethrow(&mut self, relative_depth: u32) -> Self::Output
        ensures { Self.visits self.old (Operator.Rethrow relative_depth) result self.new }
    {
        self.visit_any(Operator::Rethrow { relative_depth })
    }

    #[inline(always)]
    fn visit_delegate(&mut self, relative_depth: u32) -> Self::Output
        ensures { Self.visits self.old (Operator.Delegate relative_depth) result self.new }
    {
        self.visit_any(Operator::Delegate { relative_depth })
    }

    #[inline(always)]
    fn visit_catch_all(&mut self) -> Self::Output
        ensures { Self.visits self.old Operator.CatchAll result self.new }
    {
        self.visit_any(Operator::CatchAll)
    }

    #[inline(always)]
    fn visit_call_ref(&mut self, type_index: u32) -> Self::Output
        ensures { Self.visits self.old (Operator.CallRef type_index) result self.new }
    {
        self.visit_any(Operator::CallRef { type_index })
    }

    #[inline(always)]
    fn visit_return_call_ref(&mut self, type_index: u32) -> Self::Output
        ensures { Self.visits self.old (Operator.ReturnCallRef type_index) result self.new }
    {
        self.visit_any(Operator::ReturnCallRef { type_index })
    }

    #[inline(always)]
    fn visit_ref_as_non_null(&mut self) -> Self::Output
        ensures { Self.visits self.old Operator.RefAsNonNull result self.new }
    {
        self.visit_any(Operator::RefAsNonNull)
    }

    #[inline(always)]
    fn visit_br_on_null(&mut self, relative_depth: u32) -> Self::Output
        ensures { Self.visits self.old (Operator.BrOnNull relative_depth) result self.new }
    {
        self.visit_any(Operator::BrOnNull { relative_depth })
    }

    #[inline(always)]
    fn visit_br_on_non_null(&mut self, relative_depth: u32) -> Self::Output
        ensures { Self.visits self.old (Operator.BrOnNonNull relative_depth) result self.new }
    {
        self.visit_any(Operator::BrOnNonNull { relative_depth })
    }

    #[inline(always)]
    fn visit_cont_new(&mut self, cont_type_index: u32) -> Self::Output
        ensures { Self.visits self.old (Operator.ContNew cont_type_index) result self.new }
    {
        self.visit_any(Operator::ContNew { cont_type_index })
    }

    #[inline(always)]
    fn visit_cont_bind(&mut self, argument_index: u32, result_index: u32) -> Self::Output
        ensures { Self.visits self.old (Operator.ContBind argument_index result_index) result self.new }
    {
        self.visit_any(Operator::ContBind {
            argument_index,
            result_index,
        })
    }

    #[inline(always)]
    fn visit_suspend(&mut self, tag_index: u32) -> Self::Output
        ensures { Self.visits self.old (Operator.Suspend tag_index) result self.new }
    {
        self.visit_any(Operator::Suspend { tag_index })
    }

    #[inline(always)]
    fn visit_resume(&mut self, cont_type_index: u32, resume_table: ResumeTable) -> Self::Output
        ensures { Self.visits self.old (Operator.Resume cont_type_index resume_table) result self.new }
    {
        self.visit_any(Operator::Resume {
            cont_type_index,
            resume_table,
        })
    }

    #[inline(always)]
    fn visit_resume_throw(
        &mut self,
        cont_type_index: u32,
        tag_index: u32,
        resume_table: ResumeTable,
    ) -> Self::Output
        ensures { Self.visits self.old (Operator.ResumeThrow cont_type_index tag_index resume_table) result self.new }
    {
        self.visit_any(Operator::ResumeThrow {
            cont_type_index,
            tag_index,
            resume_table,
        })
    }

    #[inline(always)]
    fn visit_resume_throw_ref(
        &mut self,
        cont_type_index: u32,
        resume_table: ResumeTable,
    ) -> Self::Output
        ensures { Self.visits self.old (Operator.ResumeThrowRef cont_type_index resume_table) result self.new }
    {
        self.visit_any(Operator::ResumeThrowRef {
            cont_type_index,
            resume_table,
        })
    }

    #[inline(always)]
    fn visit_switch(&mut self, cont_type_index: u32, tag_index: u32) -> Self::Output
        ensures { Self.visits self.old (Operator.Switch cont_type_index tag_index) result self.new }
    {
        self.visit_any(Operator::Switch {
            cont_type_index,
            tag_index,
        })
    }
}
