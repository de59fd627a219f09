//! Overridden visits of the operators with prefix 0xfe. Written by tools/lists.py from tools/operators.tsv.
use crate::teller::Teller;
use wasm_imm::{MemArg, Ordering};
use wasm_instr_ops::AtomicOperator;
use wasm_visit_groups::{VisitAtomic, Visitor};

impl VisitAtomic for Teller {
    fn visit_memory_atomic_notify(&mut self, memarg: MemArg) -> Self::Output {
        self.own_atomic(AtomicOperator::MemoryAtomicNotify { memarg })
    }

    fn visit_memory_atomic_wait32(&mut self, memarg: MemArg) -> Self::Output {
        self.own_atomic(AtomicOperator::MemoryAtomicWait32 { memarg })
    }

    fn visit_memory_atomic_wait64(&mut self, memarg: MemArg) -> Self::Output {
        self.own_atomic(AtomicOperator::MemoryAtomicWait64 { memarg })
    }

    fn visit_atomic_fence(&mut self, ordering: Ordering) -> Self::Output {
        self.own_atomic(AtomicOperator::AtomicFence { ordering })
    }

    fn visit_i32_atomic_load(&mut self, memarg: MemArg) -> Self::Output {
        self.own_atomic(AtomicOperator::I32AtomicLoad { memarg })
    }

    fn visit_i64_atomic_load(&mut self, memarg: MemArg) -> Self::Output {
        self.own_atomic(AtomicOperator::I64AtomicLoad { memarg })
    }

    fn visit_i32_atomic_load8_u(&mut self, memarg: MemArg) -> Self::Output {
        self.own_atomic(AtomicOperator::I32AtomicLoad8U { memarg })
    }

    fn visit_i32_atomic_load16_u(&mut self, memarg: MemArg) -> Self::Output {
        self.own_atomic(AtomicOperator::I32AtomicLoad16U { memarg })
    }

    fn visit_i64_atomic_load8_u(&mut self, memarg: MemArg) -> Self::Output {
        self.own_atomic(AtomicOperator::I64AtomicLoad8U { memarg })
    }

    fn visit_i64_atomic_load16_u(&mut self, memarg: MemArg) -> Self::Output {
        self.own_atomic(AtomicOperator::I64AtomicLoad16U { memarg })
    }

    fn visit_i64_atomic_load32_u(&mut self, memarg: MemArg) -> Self::Output {
        self.own_atomic(AtomicOperator::I64AtomicLoad32U { memarg })
    }

    fn visit_i32_atomic_store(&mut self, memarg: MemArg) -> Self::Output {
        self.own_atomic(AtomicOperator::I32AtomicStore { memarg })
    }

    fn visit_i64_atomic_store(&mut self, memarg: MemArg) -> Self::Output {
        self.own_atomic(AtomicOperator::I64AtomicStore { memarg })
    }

    fn visit_i32_atomic_store8(&mut self, memarg: MemArg) -> Self::Output {
        self.own_atomic(AtomicOperator::I32AtomicStore8 { memarg })
    }

    fn visit_i32_atomic_store16(&mut self, memarg: MemArg) -> Self::Output {
        self.own_atomic(AtomicOperator::I32AtomicStore16 { memarg })
    }

    fn visit_i64_atomic_store8(&mut self, memarg: MemArg) -> Self::Output {
        self.own_atomic(AtomicOperator::I64AtomicStore8 { memarg })
    }

    fn visit_i64_atomic_store16(&mut self, memarg: MemArg) -> Self::Output {
        self.own_atomic(AtomicOperator::I64AtomicStore16 { memarg })
    }

    fn visit_i64_atomic_store32(&mut self, memarg: MemArg) -> Self::Output {
        self.own_atomic(AtomicOperator::I64AtomicStore32 { memarg })
    }

    fn visit_i32_atomic_rmw_add(&mut self, memarg: MemArg) -> Self::Output {
        self.own_atomic(AtomicOperator::I32AtomicRmwAdd { memarg })
    }

    fn visit_i64_atomic_rmw_add(&mut self, memarg: MemArg) -> Self::Output {
        self.own_atomic(AtomicOperator::I64AtomicRmwAdd { memarg })
    }

    fn visit_i32_atomic_rmw8_add_u(&mut self, memarg: MemArg) -> Self::Output {
        self.own_atomic(AtomicOperator::I32AtomicRmw8AddU { memarg })
    }

    fn visit_i32_atomic_rmw16_add_u(&mut self, memarg: MemArg) -> Self::Output {
        self.own_atomic(AtomicOperator::I32AtomicRmw16AddU { memarg })
    }

    fn visit_i64_atomic_rmw8_add_u(&mut self, memarg: MemArg) -> Self::Output {
        self.own_atomic(AtomicOperator::I64AtomicRmw8AddU { memarg })
    }

    fn visit_i64_atomic_rmw16_add_u(&mut self, memarg: MemArg) -> Self::Output {
        self.own_atomic(AtomicOperator::I64AtomicRmw16AddU { memarg })
    }

    fn visit_i64_atomic_rmw32_add_u(&mut self, memarg: MemArg) -> Self::Output {
        self.own_atomic(AtomicOperator::I64AtomicRmw32AddU { memarg })
    }

    fn visit_i32_atomic_rmw_sub(&mut self, memarg: MemArg) -> Self::Output {
        self.own_atomic(AtomicOperator::I32AtomicRmwSub { memarg })
    }

    fn visit_i64_atomic_rmw_sub(&mut self, memarg: MemArg) -> Self::Output {
        self.own_atomic(AtomicOperator::I64AtomicRmwSub { memarg })
    }

    fn visit_i32_atomic_rmw8_sub_u(&mut self, memarg: MemArg) -> Self::Output {
        self.own_atomic(AtomicOperator::I32AtomicRmw8SubU { memarg })
    }

    fn visit_i32_atomic_rmw16_sub_u(&mut self, memarg: MemArg) -> Self::Output {
        self.own_atomic(AtomicOperator::I32AtomicRmw16SubU { memarg })
    }

    fn visit_i64_atomic_rmw8_sub_u(&mut self, memarg: MemArg) -> Self::Output {
        self.own_atomic(AtomicOperator::I64AtomicRmw8SubU { memarg })
    }

    fn visit_i64_atomic_rmw16_sub_u(&mut self, memarg: MemArg) -> Self::Output {
        self.own_atomic(AtomicOperator::I64AtomicRmw16SubU { memarg })
    }

    fn visit_i64_atomic_rmw32_sub_u(&mut self, memarg: MemArg) -> Self::Output {
        self.own_atomic(AtomicOperator::I64AtomicRmw32SubU { memarg })
    }

    fn visit_i32_atomic_rmw_and(&mut self, memarg: MemArg) -> Self::Output {
        self.own_atomic(AtomicOperator::I32AtomicRmwAnd { memarg })
    }

    fn visit_i64_atomic_rmw_and(&mut self, memarg: MemArg) -> Self::Output {
        self.own_atomic(AtomicOperator::I64AtomicRmwAnd { memarg })
    }

    fn visit_i32_atomic_rmw8_and_u(&mut self, memarg: MemArg) -> Self::Output {
        self.own_atomic(AtomicOperator::I32AtomicRmw8AndU { memarg })
    }

    fn visit_i32_atomic_rmw16_and_u(&mut self, memarg: MemArg) -> Self::Output {
        self.own_atomic(AtomicOperator::I32AtomicRmw16AndU { memarg })
    }

    fn visit_i64_atomic_rmw8_and_u(&mut self, memarg: MemArg) -> Self::Output {
        self.own_atomic(AtomicOperator::I64AtomicRmw8AndU { memarg })
    }

    fn visit_i64_atomic_rmw16_and_u(&mut self, memarg: MemArg) -> Self::Output {
        self.own_atomic(AtomicOperator::I64AtomicRmw16AndU { memarg })
    }

    fn visit_i64_atomic_rmw32_and_u(&mut self, memarg: MemArg) -> Self::Output {
        self.own_atomic(AtomicOperator::I64AtomicRmw32AndU { memarg })
    }

    fn visit_i32_atomic_rmw_or(&mut self, memarg: MemArg) -> Self::Output {
        self.own_atomic(AtomicOperator::I32AtomicRmwOr { memarg })
    }

    fn visit_i64_atomic_rmw_or(&mut self, memarg: MemArg) -> Self::Output {
        self.own_atomic(AtomicOperator::I64AtomicRmwOr { memarg })
    }

    fn visit_i32_atomic_rmw8_or_u(&mut self, memarg: MemArg) -> Self::Output {
        self.own_atomic(AtomicOperator::I32AtomicRmw8OrU { memarg })
    }

    fn visit_i32_atomic_rmw16_or_u(&mut self, memarg: MemArg) -> Self::Output {
        self.own_atomic(AtomicOperator::I32AtomicRmw16OrU { memarg })
    }

    fn visit_i64_atomic_rmw8_or_u(&mut self, memarg: MemArg) -> Self::Output {
        self.own_atomic(AtomicOperator::I64AtomicRmw8OrU { memarg })
    }

    fn visit_i64_atomic_rmw16_or_u(&mut self, memarg: MemArg) -> Self::Output {
        self.own_atomic(AtomicOperator::I64AtomicRmw16OrU { memarg })
    }

    fn visit_i64_atomic_rmw32_or_u(&mut self, memarg: MemArg) -> Self::Output {
        self.own_atomic(AtomicOperator::I64AtomicRmw32OrU { memarg })
    }

    fn visit_i32_atomic_rmw_xor(&mut self, memarg: MemArg) -> Self::Output {
        self.own_atomic(AtomicOperator::I32AtomicRmwXor { memarg })
    }

    fn visit_i64_atomic_rmw_xor(&mut self, memarg: MemArg) -> Self::Output {
        self.own_atomic(AtomicOperator::I64AtomicRmwXor { memarg })
    }

    fn visit_i32_atomic_rmw8_xor_u(&mut self, memarg: MemArg) -> Self::Output {
        self.own_atomic(AtomicOperator::I32AtomicRmw8XorU { memarg })
    }

    fn visit_i32_atomic_rmw16_xor_u(&mut self, memarg: MemArg) -> Self::Output {
        self.own_atomic(AtomicOperator::I32AtomicRmw16XorU { memarg })
    }

    fn visit_i64_atomic_rmw8_xor_u(&mut self, memarg: MemArg) -> Self::Output {
        self.own_atomic(AtomicOperator::I64AtomicRmw8XorU { memarg })
    }

    fn visit_i64_atomic_rmw16_xor_u(&mut self, memarg: MemArg) -> Self::Output {
        self.own_atomic(AtomicOperator::I64AtomicRmw16XorU { memarg })
    }

    fn visit_i64_atomic_rmw32_xor_u(&mut self, memarg: MemArg) -> Self::Output {
        self.own_atomic(AtomicOperator::I64AtomicRmw32XorU { memarg })
    }

    fn visit_i32_atomic_rmw_xchg(&mut self, memarg: MemArg) -> Self::Output {
        self.own_atomic(AtomicOperator::I32AtomicRmwXchg { memarg })
    }

    fn visit_i64_atomic_rmw_xchg(&mut self, memarg: MemArg) -> Self::Output {
        self.own_atomic(AtomicOperator::I64AtomicRmwXchg { memarg })
    }

    fn visit_i32_atomic_rmw8_xchg_u(&mut self, memarg: MemArg) -> Self::Output {
        self.own_atomic(AtomicOperator::I32AtomicRmw8XchgU { memarg })
    }

    fn visit_i32_atomic_rmw16_xchg_u(&mut self, memarg: MemArg) -> Self::Output {
        self.own_atomic(AtomicOperator::I32AtomicRmw16XchgU { memarg })
    }

    fn visit_i64_atomic_rmw8_xchg_u(&mut self, memarg: MemArg) -> Self::Output {
        self.own_atomic(AtomicOperator::I64AtomicRmw8XchgU { memarg })
    }

    fn visit_i64_atomic_rmw16_xchg_u(&mut self, memarg: MemArg) -> Self::Output {
        self.own_atomic(AtomicOperator::I64AtomicRmw16XchgU { memarg })
    }

    fn visit_i64_atomic_rmw32_xchg_u(&mut self, memarg: MemArg) -> Self::Output {
        self.own_atomic(AtomicOperator::I64AtomicRmw32XchgU { memarg })
    }

    fn visit_i32_atomic_rmw_cmpxchg(&mut self, memarg: MemArg) -> Self::Output {
        self.own_atomic(AtomicOperator::I32AtomicRmwCmpxchg { memarg })
    }

    fn visit_i64_atomic_rmw_cmpxchg(&mut self, memarg: MemArg) -> Self::Output {
        self.own_atomic(AtomicOperator::I64AtomicRmwCmpxchg { memarg })
    }

    fn visit_i32_atomic_rmw8_cmpxchg_u(&mut self, memarg: MemArg) -> Self::Output {
        self.own_atomic(AtomicOperator::I32AtomicRmw8CmpxchgU { memarg })
    }

    fn visit_i32_atomic_rmw16_cmpxchg_u(&mut self, memarg: MemArg) -> Self::Output {
        self.own_atomic(AtomicOperator::I32AtomicRmw16CmpxchgU { memarg })
    }

    fn visit_i64_atomic_rmw8_cmpxchg_u(&mut self, memarg: MemArg) -> Self::Output {
        self.own_atomic(AtomicOperator::I64AtomicRmw8CmpxchgU { memarg })
    }

    fn visit_i64_atomic_rmw16_cmpxchg_u(&mut self, memarg: MemArg) -> Self::Output {
        self.own_atomic(AtomicOperator::I64AtomicRmw16CmpxchgU { memarg })
    }

    fn visit_i64_atomic_rmw32_cmpxchg_u(&mut self, memarg: MemArg) -> Self::Output {
        self.own_atomic(AtomicOperator::I64AtomicRmw32CmpxchgU { memarg })
    }

    fn visit_global_atomic_get(&mut self, ordering: Ordering, global_index: u32) -> Self::Output {
        self.own_atomic(AtomicOperator::GlobalAtomicGet {
            ordering,
            global_index,
        })
    }

    fn visit_global_atomic_set(&mut self, ordering: Ordering, global_index: u32) -> Self::Output {
        self.own_atomic(AtomicOperator::GlobalAtomicSet {
            ordering,
            global_index,
        })
    }

    fn visit_global_atomic_rmw_add(
        &mut self,
        ordering: Ordering,
        global_index: u32,
    ) -> Self::Output {
        self.own_atomic(AtomicOperator::GlobalAtomicRmwAdd {
            ordering,
            global_index,
        })
    }

    fn visit_global_atomic_rmw_sub(
        &mut self,
        ordering: Ordering,
        global_index: u32,
    ) -> Self::Output {
        self.own_atomic(AtomicOperator::GlobalAtomicRmwSub {
            ordering,
            global_index,
        })
    }

    fn visit_global_atomic_rmw_and(
        &mut self,
        ordering: Ordering,
        global_index: u32,
    ) -> Self::Output {
        self.own_atomic(AtomicOperator::GlobalAtomicRmwAnd {
            ordering,
            global_index,
        })
    }

    fn visit_global_atomic_rmw_or(
        &mut self,
        ordering: Ordering,
        global_index: u32,
    ) -> Self::Output {
        self.own_atomic(AtomicOperator::GlobalAtomicRmwOr {
            ordering,
            global_index,
        })
    }

    fn visit_global_atomic_rmw_xor(
        &mut self,
        ordering: Ordering,
        global_index: u32,
    ) -> Self::Output {
        self.own_atomic(AtomicOperator::GlobalAtomicRmwXor {
            ordering,
            global_index,
        })
    }

    fn visit_global_atomic_rmw_xchg(
        &mut self,
        ordering: Ordering,
        global_index: u32,
    ) -> Self::Output {
        self.own_atomic(AtomicOperator::GlobalAtomicRmwXchg {
            ordering,
            global_index,
        })
    }

    fn visit_global_atomic_rmw_cmpxchg(
        &mut self,
        ordering: Ordering,
        global_index: u32,
    ) -> Self::Output {
        self.own_atomic(AtomicOperator::GlobalAtomicRmwCmpxchg {
            ordering,
            global_index,
        })
    }

    fn visit_table_atomic_get(&mut self, ordering: Ordering, table_index: u32) -> Self::Output {
        self.own_atomic(AtomicOperator::TableAtomicGet {
            ordering,
            table_index,
        })
    }

    fn visit_table_atomic_set(&mut self, ordering: Ordering, table_index: u32) -> Self::Output {
        self.own_atomic(AtomicOperator::TableAtomicSet {
            ordering,
            table_index,
        })
    }

    fn visit_table_atomic_rmw_xchg(
        &mut self,
        ordering: Ordering,
        table_index: u32,
    ) -> Self::Output {
        self.own_atomic(AtomicOperator::TableAtomicRmwXchg {
            ordering,
            table_index,
        })
    }

    fn visit_table_atomic_rmw_cmpxchg(
        &mut self,
        ordering: Ordering,
        table_index: u32,
    ) -> Self::Output {
        self.own_atomic(AtomicOperator::TableAtomicRmwCmpxchg {
            ordering,
            table_index,
        })
    }

    fn visit_struct_atomic_get(
        &mut self,
        ordering: Ordering,
        struct_type_index: u32,
        field_index: u32,
    ) -> Self::Output {
        self.own_atomic(AtomicOperator::StructAtomicGet {
            ordering,
            struct_type_index,
            field_index,
        })
    }

    fn visit_struct_atomic_get_s(
        &mut self,
        ordering: Ordering,
        struct_type_index: u32,
        field_index: u32,
    ) -> Self::Output {
        self.own_atomic(AtomicOperator::StructAtomicGetS {
            ordering,
            struct_type_index,
            field_index,
        })
    }

    fn visit_struct_atomic_get_u(
        &mut self,
        ordering: Ordering,
        struct_type_index: u32,
        field_index: u32,
    ) -> Self::Output {
        self.own_atomic(AtomicOperator::StructAtomicGetU {
            ordering,
            struct_type_index,
            field_index,
        })
    }

    fn visit_struct_atomic_set(
        &mut self,
        ordering: Ordering,
        struct_type_index: u32,
        field_index: u32,
    ) -> Self::Output {
        self.own_atomic(AtomicOperator::StructAtomicSet {
            ordering,
            struct_type_index,
            field_index,
        })
    }

    fn visit_struct_atomic_rmw_add(
        &mut self,
        ordering: Ordering,
        struct_type_index: u32,
        field_index: u32,
    ) -> Self::Output {
        self.own_atomic(AtomicOperator::StructAtomicRmwAdd {
            ordering,
            struct_type_index,
            field_index,
        })
    }

    fn visit_struct_atomic_rmw_sub(
        &mut self,
        ordering: Ordering,
        struct_type_index: u32,
        field_index: u32,
    ) -> Self::Output {
        self.own_atomic(AtomicOperator::StructAtomicRmwSub {
            ordering,
            struct_type_index,
            field_index,
        })
    }

    fn visit_struct_atomic_rmw_and(
        &mut self,
        ordering: Ordering,
        struct_type_index: u32,
        field_index: u32,
    ) -> Self::Output {
        self.own_atomic(AtomicOperator::StructAtomicRmwAnd {
            ordering,
            struct_type_index,
            field_index,
        })
    }

    fn visit_struct_atomic_rmw_or(
        &mut self,
        ordering: Ordering,
        struct_type_index: u32,
        field_index: u32,
    ) -> Self::Output {
        self.own_atomic(AtomicOperator::StructAtomicRmwOr {
            ordering,
            struct_type_index,
            field_index,
        })
    }

    fn visit_struct_atomic_rmw_xor(
        &mut self,
        ordering: Ordering,
        struct_type_index: u32,
        field_index: u32,
    ) -> Self::Output {
        self.own_atomic(AtomicOperator::StructAtomicRmwXor {
            ordering,
            struct_type_index,
            field_index,
        })
    }

    fn visit_struct_atomic_rmw_xchg(
        &mut self,
        ordering: Ordering,
        struct_type_index: u32,
        field_index: u32,
    ) -> Self::Output {
        self.own_atomic(AtomicOperator::StructAtomicRmwXchg {
            ordering,
            struct_type_index,
            field_index,
        })
    }

    fn visit_struct_atomic_rmw_cmpxchg(
        &mut self,
        ordering: Ordering,
        struct_type_index: u32,
        field_index: u32,
    ) -> Self::Output {
        self.own_atomic(AtomicOperator::StructAtomicRmwCmpxchg {
            ordering,
            struct_type_index,
            field_index,
        })
    }

    fn visit_array_atomic_get(
        &mut self,
        ordering: Ordering,
        array_type_index: u32,
    ) -> Self::Output {
        self.own_atomic(AtomicOperator::ArrayAtomicGet {
            ordering,
            array_type_index,
        })
    }

    fn visit_array_atomic_get_s(
        &mut self,
        ordering: Ordering,
        array_type_index: u32,
    ) -> Self::Output {
        self.own_atomic(AtomicOperator::ArrayAtomicGetS {
            ordering,
            array_type_index,
        })
    }

    fn visit_array_atomic_get_u(
        &mut self,
        ordering: Ordering,
        array_type_index: u32,
    ) -> Self::Output {
        self.own_atomic(AtomicOperator::ArrayAtomicGetU {
            ordering,
            array_type_index,
        })
    }

    fn visit_array_atomic_set(
        &mut self,
        ordering: Ordering,
        array_type_index: u32,
    ) -> Self::Output {
        self.own_atomic(AtomicOperator::ArrayAtomicSet {
            ordering,
            array_type_index,
        })
    }

    fn visit_array_atomic_rmw_add(
        &mut self,
        ordering: Ordering,
        array_type_index: u32,
    ) -> Self::Output {
        self.own_atomic(AtomicOperator::ArrayAtomicRmwAdd {
            ordering,
            array_type_index,
        })
    }

    fn visit_array_atomic_rmw_sub(
        &mut self,
        ordering: Ordering,
        array_type_index: u32,
    ) -> Self::Output {
        self.own_atomic(AtomicOperator::ArrayAtomicRmwSub {
            ordering,
            array_type_index,
        })
    }

    fn visit_array_atomic_rmw_and(
        &mut self,
        ordering: Ordering,
        array_type_index: u32,
    ) -> Self::Output {
        self.own_atomic(AtomicOperator::ArrayAtomicRmwAnd {
            ordering,
            array_type_index,
        })
    }

    fn visit_array_atomic_rmw_or(
        &mut self,
        ordering: Ordering,
        array_type_index: u32,
    ) -> Self::Output {
        self.own_atomic(AtomicOperator::ArrayAtomicRmwOr {
            ordering,
            array_type_index,
        })
    }

    fn visit_array_atomic_rmw_xor(
        &mut self,
        ordering: Ordering,
        array_type_index: u32,
    ) -> Self::Output {
        self.own_atomic(AtomicOperator::ArrayAtomicRmwXor {
            ordering,
            array_type_index,
        })
    }

    fn visit_array_atomic_rmw_xchg(
        &mut self,
        ordering: Ordering,
        array_type_index: u32,
    ) -> Self::Output {
        self.own_atomic(AtomicOperator::ArrayAtomicRmwXchg {
            ordering,
            array_type_index,
        })
    }

    fn visit_array_atomic_rmw_cmpxchg(
        &mut self,
        ordering: Ordering,
        array_type_index: u32,
    ) -> Self::Output {
        self.own_atomic(AtomicOperator::ArrayAtomicRmwCmpxchg {
            ordering,
            array_type_index,
        })
    }

    fn visit_ref_i31_shared(&mut self) -> Self::Output {
        self.own_atomic(AtomicOperator::RefI31Shared)
    }

    fn visit_pause(&mut self) -> Self::Output {
        self.own_atomic(AtomicOperator::Pause)
    }
}
