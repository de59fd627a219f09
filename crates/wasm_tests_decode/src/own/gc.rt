//! Overridden visits of the operators with prefix 0xfb. Written by tools/lists.py from tools/operators.tsv.
use crate::teller::Teller;
use wasm_below::{HeapType, RefType};
use wasm_instr_ops::GcOperator;
use wasm_visit_groups::{VisitGc, Visitor};

impl VisitGc for Teller {
    fn visit_struct_new(&mut self, struct_type_index: u32) -> Self::Output {
        self.own_gc(GcOperator::StructNew { struct_type_index })
    }

    fn visit_struct_new_default(&mut self, struct_type_index: u32) -> Self::Output {
        self.own_gc(GcOperator::StructNewDefault { struct_type_index })
    }

    fn visit_struct_get(&mut self, struct_type_index: u32, field_index: u32) -> Self::Output {
        self.own_gc(GcOperator::StructGet {
            struct_type_index,
            field_index,
        })
    }

    fn visit_struct_get_s(&mut self, struct_type_index: u32, field_index: u32) -> Self::Output {
        self.own_gc(GcOperator::StructGetS {
            struct_type_index,
            field_index,
        })
    }

    fn visit_struct_get_u(&mut self, struct_type_index: u32, field_index: u32) -> Self::Output {
        self.own_gc(GcOperator::StructGetU {
            struct_type_index,
            field_index,
        })
    }

    fn visit_struct_set(&mut self, struct_type_index: u32, field_index: u32) -> Self::Output {
        self.own_gc(GcOperator::StructSet {
            struct_type_index,
            field_index,
        })
    }

    fn visit_array_new(&mut self, array_type_index: u32) -> Self::Output {
        self.own_gc(GcOperator::ArrayNew { array_type_index })
    }

    fn visit_array_new_default(&mut self, array_type_index: u32) -> Self::Output {
        self.own_gc(GcOperator::ArrayNewDefault { array_type_index })
    }

    fn visit_array_new_fixed(&mut self, array_type_index: u32, array_size: u32) -> Self::Output {
        self.own_gc(GcOperator::ArrayNewFixed {
            array_type_index,
            array_size,
        })
    }

    fn visit_array_new_data(
        &mut self,
        array_type_index: u32,
        array_data_index: u32,
    ) -> Self::Output {
        self.own_gc(GcOperator::ArrayNewData {
            array_type_index,
            array_data_index,
        })
    }

    fn visit_array_new_elem(
        &mut self,
        array_type_index: u32,
        array_elem_index: u32,
    ) -> Self::Output {
        self.own_gc(GcOperator::ArrayNewElem {
            array_type_index,
            array_elem_index,
        })
    }

    fn visit_array_get(&mut self, array_type_index: u32) -> Self::Output {
        self.own_gc(GcOperator::ArrayGet { array_type_index })
    }

    fn visit_array_get_s(&mut self, array_type_index: u32) -> Self::Output {
        self.own_gc(GcOperator::ArrayGetS { array_type_index })
    }

    fn visit_array_get_u(&mut self, array_type_index: u32) -> Self::Output {
        self.own_gc(GcOperator::ArrayGetU { array_type_index })
    }

    fn visit_array_set(&mut self, array_type_index: u32) -> Self::Output {
        self.own_gc(GcOperator::ArraySet { array_type_index })
    }

    fn visit_array_len(&mut self) -> Self::Output {
        self.own_gc(GcOperator::ArrayLen)
    }

    fn visit_array_fill(&mut self, array_type_index: u32) -> Self::Output {
        self.own_gc(GcOperator::ArrayFill { array_type_index })
    }

    fn visit_array_copy(
        &mut self,
        array_type_index_dst: u32,
        array_type_index_src: u32,
    ) -> Self::Output {
        self.own_gc(GcOperator::ArrayCopy {
            array_type_index_dst,
            array_type_index_src,
        })
    }

    fn visit_array_init_data(
        &mut self,
        array_type_index: u32,
        array_data_index: u32,
    ) -> Self::Output {
        self.own_gc(GcOperator::ArrayInitData {
            array_type_index,
            array_data_index,
        })
    }

    fn visit_array_init_elem(
        &mut self,
        array_type_index: u32,
        array_elem_index: u32,
    ) -> Self::Output {
        self.own_gc(GcOperator::ArrayInitElem {
            array_type_index,
            array_elem_index,
        })
    }

    fn visit_ref_test_non_null(&mut self, hty: HeapType) -> Self::Output {
        self.own_gc(GcOperator::RefTestNonNull { hty })
    }

    fn visit_ref_test_nullable(&mut self, hty: HeapType) -> Self::Output {
        self.own_gc(GcOperator::RefTestNullable { hty })
    }

    fn visit_ref_cast_non_null(&mut self, hty: HeapType) -> Self::Output {
        self.own_gc(GcOperator::RefCastNonNull { hty })
    }

    fn visit_ref_cast_nullable(&mut self, hty: HeapType) -> Self::Output {
        self.own_gc(GcOperator::RefCastNullable { hty })
    }

    fn visit_br_on_cast(
        &mut self,
        relative_depth: u32,
        from_ref_type: RefType,
        to_ref_type: RefType,
    ) -> Self::Output {
        self.own_gc(GcOperator::BrOnCast {
            relative_depth,
            from_ref_type,
            to_ref_type,
        })
    }

    fn visit_br_on_cast_fail(
        &mut self,
        relative_depth: u32,
        from_ref_type: RefType,
        to_ref_type: RefType,
    ) -> Self::Output {
        self.own_gc(GcOperator::BrOnCastFail {
            relative_depth,
            from_ref_type,
            to_ref_type,
        })
    }

    fn visit_any_convert_extern(&mut self) -> Self::Output {
        self.own_gc(GcOperator::AnyConvertExtern)
    }

    fn visit_extern_convert_any(&mut self) -> Self::Output {
        self.own_gc(GcOperator::ExternConvertAny)
    }

    fn visit_ref_i31(&mut self) -> Self::Output {
        self.own_gc(GcOperator::RefI31)
    }

    fn visit_i31_get_s(&mut self) -> Self::Output {
        self.own_gc(GcOperator::I31GetS)
    }

    fn visit_i31_get_u(&mut self) -> Self::Output {
        self.own_gc(GcOperator::I31GetU)
    }

    fn visit_struct_new_desc(&mut self, struct_type_index: u32) -> Self::Output {
        self.own_gc(GcOperator::StructNewDesc { struct_type_index })
    }

    fn visit_struct_new_default_desc(&mut self, struct_type_index: u32) -> Self::Output {
        self.own_gc(GcOperator::StructNewDefaultDesc { struct_type_index })
    }

    fn visit_ref_get_desc(&mut self, type_index: u32) -> Self::Output {
        self.own_gc(GcOperator::RefGetDesc { type_index })
    }

    fn visit_ref_cast_desc_eq_non_null(&mut self, hty: HeapType) -> Self::Output {
        self.own_gc(GcOperator::RefCastDescEqNonNull { hty })
    }

    fn visit_ref_cast_desc_eq_nullable(&mut self, hty: HeapType) -> Self::Output {
        self.own_gc(GcOperator::RefCastDescEqNullable { hty })
    }

    fn visit_br_on_cast_desc_eq(
        &mut self,
        relative_depth: u32,
        from_ref_type: RefType,
        to_ref_type: RefType,
    ) -> Self::Output {
        self.own_gc(GcOperator::BrOnCastDescEq {
            relative_depth,
            from_ref_type,
            to_ref_type,
        })
    }

    fn visit_br_on_cast_desc_eq_fail(
        &mut self,
        relative_depth: u32,
        from_ref_type: RefType,
        to_ref_type: RefType,
    ) -> Self::Output {
        self.own_gc(GcOperator::BrOnCastDescEqFail {
            relative_depth,
            from_ref_type,
            to_ref_type,
        })
    }
}
