//! `CountAny` has no overridden visits.
ghost use Rattle.std.specs.Prelude.{◌≡◌, ◌+◌, ◌-◌, ◌^◌, ◌<◌};

use wasm_operators::{
    BrTable, ByAny, MemArg, Operator, OwnOneByte, VisitOneByte, VisitOperator, Visitor,
};

#[derive(Drop)]
pub struct CountAny {
    pub operators: u64,
}

impl Visitor for CountAny {
    type Output = ();

    type Visits = ByAny;

    ghost visits = { λ before op outcome after. before.operators < 2 ^ 64 - 1 → after.operators ≡ before.operators + 1 };

    #[inline(always)]
    fn visit_any(&mut self, _op: Operator<'static>) {
        self.operators = self.operators.wrapping_add(1);
    }
}

impl<'a> VisitOperator<'a> for CountAny {
    #[inline(always)]
    fn visit_br_table(&mut self, _targets: BrTable<'a>) {
        self.operators = self.operators.wrapping_add(1);
    }
}

/// Counts operators, and overrides four visits to add up their immediates.
#[derive(Drop)]
pub struct CountSome {
    pub operators: u64,
    pub sum: u64,
}

impl Visitor for CountSome {
    type Output = ();

    type Visits = OwnOneByte<ByAny>;

    ghost visits = { λ before op outcome after. before.operators < 2 ^ 64 - 1 → after.operators ≡ before.operators + 1 };

    #[inline(always)]
    fn visit_any(&mut self, _op: Operator<'static>) {
        self.operators = self.operators.wrapping_add(1);
    }
}

impl CountSome {
    #[inline(always)]
    fn add(&mut self, number: u64)
        ensures { self.old.operators < 2 ^ 64 - 1 → self.new.operators ≡ self.old.operators + 1 }
    {
        self.operators = self.operators.wrapping_add(1);
        self.sum = self.sum.wrapping_add(number);
    }
}

impl VisitOneByte for CountSome {
    #[inline(always)]
    fn visit_local_get(&mut self, local_index: u32) {
        self.add(u64::from(local_index));
    }

    #[inline(always)]
    fn visit_i32_const(&mut self, value: i32) {
        self.add(u64::from(value.cast_unsigned()));
    }

    #[inline(always)]
    fn visit_i32_load(&mut self, memarg: MemArg) {
        self.add(memarg.offset);
    }

    #[inline(always)]
    fn visit_call(&mut self, function_index: u32) {
        self.add(u64::from(function_index));
    }
}

impl<'a> VisitOperator<'a> for CountSome {
    #[inline(always)]
    fn visit_br_table(&mut self, _targets: BrTable<'a>) {
        self.operators = self.operators.wrapping_add(1);
    }
}
