//! Overridden visits of the operators with a one-byte opcode. Written by tools/lists.py from tools/operators.tsv.
use crate::teller::Teller;
use wasm_below::{HeapType, ValType};
use wasm_imm::{BlockType, Ieee32, Ieee64, MemArg, ResumeTable, SelectTypes, TryTable};
use wasm_instr::Operator;
use wasm_visit_groups::{VisitOneByte, Visitor};

impl VisitOneByte for Teller {
    fn visit_unreachable(&mut self) -> Self::Output {
        self.own(Operator::Unreachable)
    }

    fn visit_nop(&mut self) -> Self::Output {
        self.own(Operator::Nop)
    }

    fn visit_block(&mut self, blockty: BlockType) -> Self::Output {
        self.own(Operator::Block { blockty })
    }

    fn visit_loop(&mut self, blockty: BlockType) -> Self::Output {
        self.own(Operator::Loop { blockty })
    }

    fn visit_if(&mut self, blockty: BlockType) -> Self::Output {
        self.own(Operator::If { blockty })
    }

    fn visit_else(&mut self) -> Self::Output {
        self.own(Operator::Else)
    }

    fn visit_end(&mut self) -> Self::Output {
        self.own(Operator::End)
    }

    fn visit_br(&mut self, relative_depth: u32) -> Self::Output {
        self.own(Operator::Br { relative_depth })
    }

    fn visit_br_if(&mut self, relative_depth: u32) -> Self::Output {
        self.own(Operator::BrIf { relative_depth })
    }

    fn visit_return(&mut self) -> Self::Output {
        self.own(Operator::Return)
    }

    fn visit_call(&mut self, function_index: u32) -> Self::Output {
        self.own(Operator::Call { function_index })
    }

    fn visit_call_indirect(&mut self, type_index: u32, table_index: u32) -> Self::Output {
        self.own(Operator::CallIndirect {
            type_index,
            table_index,
        })
    }

    fn visit_drop(&mut self) -> Self::Output {
        self.own(Operator::Drop)
    }

    fn visit_select(&mut self) -> Self::Output {
        self.own(Operator::Select)
    }

    fn visit_local_get(&mut self, local_index: u32) -> Self::Output {
        self.own(Operator::LocalGet { local_index })
    }

    fn visit_local_set(&mut self, local_index: u32) -> Self::Output {
        self.own(Operator::LocalSet { local_index })
    }

    fn visit_local_tee(&mut self, local_index: u32) -> Self::Output {
        self.own(Operator::LocalTee { local_index })
    }

    fn visit_global_get(&mut self, global_index: u32) -> Self::Output {
        self.own(Operator::GlobalGet { global_index })
    }

    fn visit_global_set(&mut self, global_index: u32) -> Self::Output {
        self.own(Operator::GlobalSet { global_index })
    }

    fn visit_i32_load(&mut self, memarg: MemArg) -> Self::Output {
        self.own(Operator::I32Load { memarg })
    }

    fn visit_i64_load(&mut self, memarg: MemArg) -> Self::Output {
        self.own(Operator::I64Load { memarg })
    }

    fn visit_f32_load(&mut self, memarg: MemArg) -> Self::Output {
        self.own(Operator::F32Load { memarg })
    }

    fn visit_f64_load(&mut self, memarg: MemArg) -> Self::Output {
        self.own(Operator::F64Load { memarg })
    }

    fn visit_i32_load8_s(&mut self, memarg: MemArg) -> Self::Output {
        self.own(Operator::I32Load8S { memarg })
    }

    fn visit_i32_load8_u(&mut self, memarg: MemArg) -> Self::Output {
        self.own(Operator::I32Load8U { memarg })
    }

    fn visit_i32_load16_s(&mut self, memarg: MemArg) -> Self::Output {
        self.own(Operator::I32Load16S { memarg })
    }

    fn visit_i32_load16_u(&mut self, memarg: MemArg) -> Self::Output {
        self.own(Operator::I32Load16U { memarg })
    }

    fn visit_i64_load8_s(&mut self, memarg: MemArg) -> Self::Output {
        self.own(Operator::I64Load8S { memarg })
    }

    fn visit_i64_load8_u(&mut self, memarg: MemArg) -> Self::Output {
        self.own(Operator::I64Load8U { memarg })
    }

    fn visit_i64_load16_s(&mut self, memarg: MemArg) -> Self::Output {
        self.own(Operator::I64Load16S { memarg })
    }

    fn visit_i64_load16_u(&mut self, memarg: MemArg) -> Self::Output {
        self.own(Operator::I64Load16U { memarg })
    }

    fn visit_i64_load32_s(&mut self, memarg: MemArg) -> Self::Output {
        self.own(Operator::I64Load32S { memarg })
    }

    fn visit_i64_load32_u(&mut self, memarg: MemArg) -> Self::Output {
        self.own(Operator::I64Load32U { memarg })
    }

    fn visit_i32_store(&mut self, memarg: MemArg) -> Self::Output {
        self.own(Operator::I32Store { memarg })
    }

    fn visit_i64_store(&mut self, memarg: MemArg) -> Self::Output {
        self.own(Operator::I64Store { memarg })
    }

    fn visit_f32_store(&mut self, memarg: MemArg) -> Self::Output {
        self.own(Operator::F32Store { memarg })
    }

    fn visit_f64_store(&mut self, memarg: MemArg) -> Self::Output {
        self.own(Operator::F64Store { memarg })
    }

    fn visit_i32_store8(&mut self, memarg: MemArg) -> Self::Output {
        self.own(Operator::I32Store8 { memarg })
    }

    fn visit_i32_store16(&mut self, memarg: MemArg) -> Self::Output {
        self.own(Operator::I32Store16 { memarg })
    }

    fn visit_i64_store8(&mut self, memarg: MemArg) -> Self::Output {
        self.own(Operator::I64Store8 { memarg })
    }

    fn visit_i64_store16(&mut self, memarg: MemArg) -> Self::Output {
        self.own(Operator::I64Store16 { memarg })
    }

    fn visit_i64_store32(&mut self, memarg: MemArg) -> Self::Output {
        self.own(Operator::I64Store32 { memarg })
    }

    fn visit_memory_size(&mut self, mem: u32) -> Self::Output {
        self.own(Operator::MemorySize { mem })
    }

    fn visit_memory_grow(&mut self, mem: u32) -> Self::Output {
        self.own(Operator::MemoryGrow { mem })
    }

    fn visit_i32_const(&mut self, value: i32) -> Self::Output {
        self.own(Operator::I32Const { value })
    }

    fn visit_i64_const(&mut self, value: i64) -> Self::Output {
        self.own(Operator::I64Const { value })
    }

    fn visit_f32_const(&mut self, value: Ieee32) -> Self::Output {
        self.own(Operator::F32Const { value })
    }

    fn visit_f64_const(&mut self, value: Ieee64) -> Self::Output {
        self.own(Operator::F64Const { value })
    }

    fn visit_ref_eq(&mut self) -> Self::Output {
        self.own(Operator::RefEq)
    }

    fn visit_typed_select(&mut self, ty: ValType) -> Self::Output {
        self.own(Operator::TypedSelect { ty })
    }

    fn visit_typed_select_multi(&mut self, tys: SelectTypes) -> Self::Output {
        self.own(Operator::TypedSelectMulti { tys })
    }

    fn visit_ref_null(&mut self, hty: HeapType) -> Self::Output {
        self.own(Operator::RefNull { hty })
    }

    fn visit_ref_is_null(&mut self) -> Self::Output {
        self.own(Operator::RefIsNull)
    }

    fn visit_ref_func(&mut self, function_index: u32) -> Self::Output {
        self.own(Operator::RefFunc { function_index })
    }

    fn visit_table_get(&mut self, table: u32) -> Self::Output {
        self.own(Operator::TableGet { table })
    }

    fn visit_table_set(&mut self, table: u32) -> Self::Output {
        self.own(Operator::TableSet { table })
    }

    fn visit_return_call(&mut self, function_index: u32) -> Self::Output {
        self.own(Operator::ReturnCall { function_index })
    }

    fn visit_return_call_indirect(&mut self, type_index: u32, table_index: u32) -> Self::Output {
        self.own(Operator::ReturnCallIndirect {
            type_index,
            table_index,
        })
    }

    fn visit_try_table(&mut self, try_table: TryTable) -> Self::Output {
        self.own(Operator::TryTable { try_table })
    }

    fn visit_throw(&mut self, tag_index: u32) -> Self::Output {
        self.own(Operator::Throw { tag_index })
    }

    fn visit_throw_ref(&mut self) -> Self::Output {
        self.own(Operator::ThrowRef)
    }

    fn visit_try(&mut self, blockty: BlockType) -> Self::Output {
        self.own(Operator::Try { blockty })
    }

    fn visit_catch(&mut self, tag_index: u32) -> Self::Output {
        self.own(Operator::Catch { tag_index })
    }

    fn visit_rethrow(&mut self, relative_depth: u32) -> Self::Output {
        self.own(Operator::Rethrow { relative_depth })
    }

    fn visit_delegate(&mut self, relative_depth: u32) -> Self::Output {
        self.own(Operator::Delegate { relative_depth })
    }

    fn visit_catch_all(&mut self) -> Self::Output {
        self.own(Operator::CatchAll)
    }

    fn visit_call_ref(&mut self, type_index: u32) -> Self::Output {
        self.own(Operator::CallRef { type_index })
    }

    fn visit_return_call_ref(&mut self, type_index: u32) -> Self::Output {
        self.own(Operator::ReturnCallRef { type_index })
    }

    fn visit_ref_as_non_null(&mut self) -> Self::Output {
        self.own(Operator::RefAsNonNull)
    }

    fn visit_br_on_null(&mut self, relative_depth: u32) -> Self::Output {
        self.own(Operator::BrOnNull { relative_depth })
    }

    fn visit_br_on_non_null(&mut self, relative_depth: u32) -> Self::Output {
        self.own(Operator::BrOnNonNull { relative_depth })
    }

    fn visit_cont_new(&mut self, cont_type_index: u32) -> Self::Output {
        self.own(Operator::ContNew { cont_type_index })
    }

    fn visit_cont_bind(&mut self, argument_index: u32, result_index: u32) -> Self::Output {
        self.own(Operator::ContBind {
            argument_index,
            result_index,
        })
    }

    fn visit_suspend(&mut self, tag_index: u32) -> Self::Output {
        self.own(Operator::Suspend { tag_index })
    }

    fn visit_resume(&mut self, cont_type_index: u32, resume_table: ResumeTable) -> Self::Output {
        self.own(Operator::Resume {
            cont_type_index,
            resume_table,
        })
    }

    fn visit_resume_throw(
        &mut self,
        cont_type_index: u32,
        tag_index: u32,
        resume_table: ResumeTable,
    ) -> Self::Output {
        self.own(Operator::ResumeThrow {
            cont_type_index,
            tag_index,
            resume_table,
        })
    }

    fn visit_resume_throw_ref(
        &mut self,
        cont_type_index: u32,
        resume_table: ResumeTable,
    ) -> Self::Output {
        self.own(Operator::ResumeThrowRef {
            cont_type_index,
            resume_table,
        })
    }

    fn visit_switch(&mut self, cont_type_index: u32, tag_index: u32) -> Self::Output {
        self.own(Operator::Switch {
            cont_type_index,
            tag_index,
        })
    }
}
