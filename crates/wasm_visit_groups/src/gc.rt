//! Written by tools/lists.py from tools/operators.tsv.
ghost use Rattle.wasm_instr.specs.declared.operator.Operator.{Operator};
ghost use Rattle.wasm_instr_ops.specs.declared.gc.GcOperator.{GcOperator};

use crate::route::ToOwn;
use crate::routes::Routes;
use crate::visitor::Visitor;
use wasm_below::{HeapType, RefType};
use wasm_instr::Operator;
use wasm_instr_ops::GcOperator;

/// Visits of the operators with the prefix byte 0xfb. Specification: Aggregate Instructions. By
/// default they call `visit_any`. A visitor that overrides visits names `OwnGc` in its `Visits`.
pub trait VisitGc: Visitor<Visits: Routes<Gc: ToOwn>> {
    #[inline(always)]
    fn visit_struct_new(&mut self, struct_type_index: u32) -> Self::Output
        ensures { Self.visits self.old (Operator.Gc (GcOperator.StructNew struct_type_index)) result self.new }
    {
        self.visit_any(Operator::Gc(GcOperator::StructNew { struct_type_index }))
    }

    #[inline(always)]
    fn visit_struct_new_default(&mut self, struct_type_index: u32) -> Self::Output
        ensures { Self.visits self.old (Operator.Gc (GcOperator.StructNewDefault struct_type_index)) result self.new }
    {
        self.visit_any(Operator::Gc(GcOperator::StructNewDefault { struct_type_index }))
    }

    #[inline(always)]
    fn visit_struct_get(&mut self, struct_type_index: u32, field_index: u32) -> Self::Output
        ensures { Self.visits self.old (Operator.Gc (GcOperator.StructGet struct_type_index field_index))
            result self.new }
    {
        self.visit_any(Operator::Gc(GcOperator::StructGet {
            struct_type_index,
            field_index,
        }))
    }

    #[inline(always)]
    fn visit_struct_get_s(&mut self, struct_type_index: u32, field_index: u32) -> Self::Output
        ensures { Self.visits self.old (Operator.Gc (GcOperator.StructGetS struct_type_index field_index))
            result self.new }
    {
        self.visit_any(Operator::Gc(GcOperator::StructGetS {
            struct_type_index,
            field_index,
        }))
    }

    #[inline(always)]
    fn visit_struct_get_u(&mut self, struct_type_index: u32, field_index: u32) -> Self::Output
        ensures { Self.visits self.old (Operator.Gc (GcOperator.StructGetU struct_type_index field_index))
            result self.new }
    {
        self.visit_any(Operator::Gc(GcOperator::StructGetU {
            struct_type_index,
            field_index,
        }))
    }

    #[inline(always)]
    fn visit_struct_set(&mut self, struct_type_index: u32, field_index: u32) -> Self::Output
        ensures { Self.visits self.old (Operator.Gc (GcOperator.StructSet struct_type_index field_index))
            result self.new }
    {
        self.visit_any(Operator::Gc(GcOperator::StructSet {
            struct_type_index,
            field_index,
        }))
    }

    #[inline(always)]
    fn visit_array_new(&mut self, array_type_index: u32) -> Self::Output
        ensures { Self.visits self.old (Operator.Gc (GcOperator.ArrayNew array_type_index)) result self.new }
    {
        self.visit_any(Operator::Gc(GcOperator::ArrayNew { array_type_index }))
    }

    #[inline(always)]
    fn visit_array_new_default(&mut self, array_type_index: u32) -> Self::Output
        ensures { Self.visits self.old (Operator.Gc (GcOperator.ArrayNewDefault array_type_index)) result self.new }
    {
        self.visit_any(Operator::Gc(GcOperator::ArrayNewDefault { array_type_index }))
    }

    #[inline(always)]
    fn visit_array_new_fixed(&mut self, array_type_index: u32, array_size: u32) -> Self::Output
        ensures { Self.visits self.old (Operator.Gc (GcOperator.ArrayNewFixed array_type_index array_size))
            result self.new }
    {
        self.visit_any(Operator::Gc(GcOperator::ArrayNewFixed {
            array_type_index,
            array_size,
        }))
    }

    #[inline(always)]
    fn visit_array_new_data(&mut self, array_type_index: u32, array_data_index: u32) -> Self::Output
        ensures { Self.visits self.old (Operator.Gc (GcOperator.ArrayNewData array_type_index array_data_index))
            result self.new }
    {
        self.visit_any(Operator::Gc(GcOperator::ArrayNewData {
            array_type_index,
            array_data_index,
        }))
    }

    #[inline(always)]
    fn visit_array_new_elem(&mut self, array_type_index: u32, array_elem_index: u32) -> Self::Output
        ensures { Self.visits self.old (Operator.Gc (GcOperator.ArrayNewElem array_type_index array_elem_index))
            result self.new }
    {
        self.visit_any(Operator::Gc(GcOperator::ArrayNewElem {
            array_type_index,
            array_elem_index,
        }))
    }

    #[inline(always)]
    fn visit_array_get(&mut self, array_type_index: u32) -> Self::Output
        ensures { Self.visits self.old (Operator.Gc (GcOperator.ArrayGet array_type_index)) result self.new }
    {
        self.visit_any(Operator::Gc(GcOperator::ArrayGet { array_type_index }))
    }

    #[inline(always)]
    fn visit_array_get_s(&mut self, array_type_index: u32) -> Self::Output
        ensures { Self.visits self.old (Operator.Gc (GcOperator.ArrayGetS array_type_index)) result self.new }
    {
        self.visit_any(Operator::Gc(GcOperator::ArrayGetS { array_type_index }))
    }

    #[inline(always)]
    fn visit_array_get_u(&mut self, array_type_index: u32) -> Self::Output
        ensures { Self.visits self.old (Operator.Gc (GcOperator.ArrayGetU array_type_index)) result self.new }
    {
        self.visit_any(Operator::Gc(GcOperator::ArrayGetU { array_type_index }))
    }

    #[inline(always)]
    fn visit_array_set(&mut self, array_type_index: u32) -> Self::Output
        ensures { Self.visits self.old (Operator.Gc (GcOperator.ArraySet array_type_index)) result self.new }
    {
        self.visit_any(Operator::Gc(GcOperator::ArraySet { array_type_index }))
    }

    #[inline(always)]
    fn visit_array_len(&mut self) -> Self::Output
        ensures { Self.visits self.old (Operator.Gc GcOperator.ArrayLen) result self.new }
    {
        self.visit_any(Operator::Gc(GcOperator::ArrayLen))
    }

    #[inline(always)]
    fn visit_array_fill(&mut self, array_type_index: u32) -> Self::Output
        ensures { Self.visits self.old (Operator.Gc (GcOperator.ArrayFill array_type_index)) result self.new }
    {
        self.visit_any(Operator::Gc(GcOperator::ArrayFill { array_type_index }))
    }

    #[inline(always)]
    fn visit_array_copy(
        &mut self,
        array_type_index_dst: u32,
        array_type_index_src: u32,
    ) -> Self::Output
        ensures { Self.visits self.old (Operator.Gc (GcOperator.ArrayCopy array_type_index_dst array_type_index_src))
            result self.new }
    {
        self.visit_any(Operator::Gc(GcOperator::ArrayCopy {
            array_type_index_dst,
            array_type_index_src,
        }))
    }

    #[inline(always)]
    fn visit_array_init_data(
        &mut self,
        array_type_index: u32,
        array_data_index: u32,
    ) -> Self::Output
        ensures { Self.visits self.old (Operator.Gc (GcOperator.ArrayInitData array_type_index array_data_index))
            result self.new }
    {
        self.visit_any(Operator::Gc(GcOperator::ArrayInitData {
            array_type_index,
            array_data_index,
        }))
    }

    #[inline(always)]
    fn visit_array_init_elem(
        &mut self,
        array_type_index: u32,
        array_elem_index: u32,
    ) -> Self::Output
        ensures { Self.visits self.old (Operator.Gc (GcOperator.ArrayInitElem array_type_index array_elem_index))
            result self.new }
    {
        self.visit_any(Operator::Gc(GcOperator::ArrayInitElem {
            array_type_index,
            array_elem_index,
        }))
    }

    #[inline(always)]
    fn visit_ref_test_non_null(&mut self, hty: HeapType) -> Self::Output
        ensures { Self.visits self.old (Operator.Gc (GcOperator.RefTestNonNull hty)) result self.new }
    {
        self.visit_any(Operator::Gc(GcOperator::RefTestNonNull { hty }))
    }

    #[inline(always)]
    fn visit_ref_test_nullable(&mut self, hty: HeapType) -> Self::Output
        ensures { Self.visits self.old (Operator.Gc (GcOperator.RefTestNullable hty)) result self.new }
    {
        self.visit_any(Operator::Gc(GcOperator::RefTestNullable { hty }))
    }

    #[inline(always)]
    fn visit_ref_cast_non_null(&mut self, hty: HeapType) -> Self::Output
        ensures { Self.visits self.old (Operator.Gc (GcOperator.RefCastNonNull hty)) result self.new }
    {
        self.visit_any(Operator::Gc(GcOperator::RefCastNonNull { hty }))
    }

    #[inline(always)]
    fn visit_ref_cast_nullable(&mut self, hty: HeapType) -> Self::Output
        ensures { Self.visits self.old (Operator.Gc (GcOperator.RefCastNullable hty)) result self.new }
    {
        self.visit_any(Operator::Gc(GcOperator::RefCastNullable { hty }))
    }

    #[inline(always)]
    fn visit_br_on_cast(
        &mut self,
        relative_depth: u32,
        from_ref_type: RefType,
        to_ref_type: RefType,
    ) -> Self::Output
        ensures { Self.visits self.old (Operator.Gc (GcOperator.BrOnCast relative_depth from_ref_type to_ref_type))
            result self.new }
    {
        self.visit_any(Operator::Gc(GcOperator::BrOnCast {
            relative_depth,
            from_ref_type,
            to_ref_type,
        }))
    }

    #[inline(always)]
    fn visit_br_on_cast_fail(
        &mut self,
        relative_depth: u32,
        from_ref_type: RefType,
        to_ref_type: RefType,
    ) -> Self::Output
        ensures { Self.visits self.old (Operator.Gc (GcOperator.BrOnCastFail relative_depth from_ref_type to_ref_type))
            result self.new }
    {
        self.visit_any(Operator::Gc(GcOperator::BrOnCastFail {
            relative_depth,
            from_ref_type,
            to_ref_type,
        }))
    }

    #[inline(always)]
    fn visit_any_convert_extern(&mut self) -> Self::Output
        ensures { Self.visits self.old (Operator.Gc GcOperator.AnyConvertExtern) result self.new }
    {
        self.visit_any(Operator::Gc(GcOperator::AnyConvertExtern))
    }

    #[inline(always)]
    fn visit_extern_convert_any(&mut self) -> Self::Output
        ensures { Self.visits self.old (Operator.Gc GcOperator.ExternConvertAny) result self.new }
    {
        self.visit_any(Operator::Gc(GcOperator::ExternConvertAny))
    }

    #[inline(always)]
    fn visit_ref_i31(&mut self) -> Self::Output
        ensures { Self.visits self.old (Operator.Gc GcOperator.RefI31) result self.new }
    {
        self.visit_any(Operator::Gc(GcOperator::RefI31))
    }

    #[inline(always)]
    fn visit_i31_get_s(&mut self) -> Self::Output
        ensures { Self.visits self.old (Operator.Gc GcOperator.I31GetS) result self.new }
    {
        self.visit_any(Operator::Gc(GcOperator::I31GetS))
    }

    #[inline(always)]
    fn visit_i31_get_u(&mut self) -> Self::Output
        ensures { Self.visits self.old (Operator.Gc GcOperator.I31GetU) result self.new }
    {
        self.visit_any(Operator::Gc(GcOperator::I31GetU))
    }

    #[inline(always)]
    fn visit_struct_new_desc(&mut self, struct_type_index: u32) -> Self::Output
        ensures { Self.visits self.old (Operator.Gc (GcOperator.StructNewDesc struct_type_index)) result self.new }
    {
        self.visit_any(Operator::Gc(GcOperator::StructNewDesc { struct_type_index }))
    }

    #[inline(always)]
    fn visit_struct_new_default_desc(&mut self, struct_type_index: u32) -> Self::Output
        ensures { Self.visits self.old (Operator.Gc (GcOperator.StructNewDefaultDesc struct_type_index))
            result self.new }
    {
        self.visit_any(Operator::Gc(GcOperator::StructNewDefaultDesc { struct_type_index }))
    }

    #[inline(always)]
    fn visit_ref_get_desc(&mut self, type_index: u32) -> Self::Output
        ensures { Self.visits self.old (Operator.Gc (GcOperator.RefGetDesc type_index)) result self.new }
    {
        self.visit_any(Operator::Gc(GcOperator::RefGetDesc { type_index }))
    }

    #[inline(always)]
    fn visit_ref_cast_desc_eq_non_null(&mut self, hty: HeapType) -> Self::Output
        ensures { Self.visits self.old (Operator.Gc (GcOperator.RefCastDescEqNonNull hty)) result self.new }
    {
        self.visit_any(Operator::Gc(GcOperator::RefCastDescEqNonNull { hty }))
    }

    #[inline(always)]
    fn visit_ref_cast_desc_eq_nullable(&mut self, hty: HeapType) -> Self::Output
        ensures { Self.visits self.old (Operator.Gc (GcOperator.RefCastDescEqNullable hty)) result self.new }
    {
        self.visit_any(Operator::Gc(GcOperator::RefCastDescEqNullable { hty }))
    }

    #[inline(always)]
    fn visit_br_on_cast_desc_eq(
        &mut self,
        relative_depth: u32,
        from_ref_type: RefType,
        to_ref_type: RefType,
    ) -> Self::Output
        ensures { Self.visits self.old
            (Operator.Gc (GcOperator.BrOnCastDescEq relative_depth from_ref_type to_ref_type)) result self.new }
    {
        self.visit_any(Operator::Gc(GcOperator::BrOnCastDescEq {
            relative_depth,
            from_ref_type,
            to_ref_type,
        }))
    }

    #[inline(always)]
    fn visit_br_on_cast_desc_eq_fail(
        &mut self,
        relative_depth: u32,
        from_ref_type: RefType,
        to_ref_type: RefType,
    ) -> Self::Output
        ensures { Self.visits self.old
            (Operator.Gc (GcOperator.BrOnCastDescEqFail relative_depth from_ref_type to_ref_type)) result self.new }
    {
        self.visit_any(Operator::Gc(GcOperator::BrOnCastDescEqFail {
            relative_depth,
            from_ref_type,
            to_ref_type,
        }))
    }
}
