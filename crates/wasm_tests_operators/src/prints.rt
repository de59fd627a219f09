use crate::reported::Listed;
use std::fmt::{self, Write};
use wasm_operators::{
    BrTable, ByAny, MiscOperator, Operator, OwnMisc, Result, VisitOperator, Visitor,
};

/// The number of operators, and the 64-bit FNV-1a hash of their texts.
#[derive(Clone, Copy, Debug, PartialEq, Eq)]
pub struct Prints {
    pub operators: usize,
    pub print: u64,
}

impl Prints {
    pub fn new() -> Prints {
        Prints {
            operators: 0,
            print: 0xcbf2_9ce4_8422_2325,
        }
    }

    pub fn of(list: Listed<'_, '_>, operators: usize) -> Prints {
        let mut prints = Prints::new();
        for (op, _) in list.get(..operators).unwrap_or(&[]).iter() {
            prints.add(op);
        }
        prints
    }

    fn add(&mut self, op: &Operator<'_>) {
        self.operators = self.operators.saturating_add(1);
        let _ = write!(self, "{op:?}");
    }
}

impl Write for Prints {
    fn write_str(&mut self, text: &str) -> fmt::Result {
        for byte in text.as_bytes() {
            self.print = (self.print ^ u64::from(*byte)).wrapping_mul(0x100_0000_01b3);
        }
        Ok(())
    }
}

impl Visitor for Prints {
    type Output = ();

    type Visits = ByAny;

    ghost visits = { λ before op outcome after. Unit {0} };

    fn visit_any(&mut self, op: Operator<'static>) {
        self.add(&op);
    }
}

impl<'a> VisitOperator<'a> for Prints {
    fn visit_br_table(&mut self, targets: BrTable<'a>) {
        self.add(&Operator::BrTable { targets });
    }
}

/// A visitor with results of 4096 bytes: the hash, repeated.
#[derive(Clone, Copy, Debug, PartialEq, Eq)]
pub struct LargePrints {
    pub prints: Prints,
}

impl Visitor for LargePrints {
    type Output = [u64; 512];

    type Visits = ByAny;

    ghost visits = { λ before op outcome after. Unit {0} };

    fn visit_any(&mut self, op: Operator<'static>) -> [u64; 512] {
        self.prints.add(&op);
        [self.prints.print; 512]
    }
}

impl<'a> VisitOperator<'a> for LargePrints {
    fn visit_br_table(&mut self, targets: BrTable<'a>) -> [u64; 512] {
        self.prints.add(&Operator::BrTable { targets });
        [self.prints.print; 512]
    }
}

/// Overrides and counts the visits of operators with the prefix byte 0xfc.
#[derive(Clone, Copy, Debug, PartialEq, Eq)]
pub struct OwnPrints {
    pub prints: Prints,
    pub own: usize,
}

impl OwnPrints {
    pub fn own(&mut self, op: MiscOperator) {
        self.own = self.own.saturating_add(1);
        self.prints.add(&Operator::Misc(op));
    }
}

impl Visitor for OwnPrints {
    type Output = ();

    type Visits = OwnMisc<ByAny>;

    ghost visits = { λ before op outcome after. Unit {0} };

    fn visit_any(&mut self, op: Operator<'static>) {
        self.prints.add(&op);
    }
}

impl<'a> VisitOperator<'a> for OwnPrints {
    fn visit_br_table(&mut self, targets: BrTable<'a>) {
        self.prints.add(&Operator::BrTable { targets });
    }
}
