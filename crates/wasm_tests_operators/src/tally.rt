use std::alloc::Global;
use std::io::{self, Print};
use wasm_operators::{
    BinaryReader, BrTable, ByAny, Operator, OperatorsReader, OwnMisc, OwnOneByte, Result,
    VisitMisc, VisitOneByte, VisitOperator, Visitor,
};

/// `data.drop` twice, then `drop` and `end`.
static DATA_DROPS: [u8; 8] = [0xfc, 0x09, 0x07, 0xfc, 0x09, 0x07, 0x1a, 0x0b];

/// `nop` twice, then `drop` and `end`: only opcodes below 0x20.
static NOPS: [u8; 4] = [0x01, 0x01, 0x1a, 0x0b];

/// `i32.const 5`, `local.get 3`, `drop` and `end`: one visit of an opcode from 0x20 on is
/// overridden.
static CONSTANT: [u8; 6] = [0x41, 0x05, 0x20, 0x03, 0x1a, 0x0b];

/// Counts visits. Overrides `Nop`, `LocalGet` and `DataDrop`.
#[derive(Debug, Drop)]
pub struct Tally {
    pub own: u32,
    pub any: u32,
}

impl Visitor for Tally {
    type Output = ();

    type Visits = OwnOneByte<OwnMisc<ByAny>>;

    ghost visits = { λ before op outcome after. Unit {0} };

    fn visit_any(&mut self, _op: Operator<'static>) {
        self.any = self.any.saturating_add(1);
    }
}

impl VisitOneByte for Tally {
    fn visit_nop(&mut self) {
        self.own = self.own.saturating_add(1);
    }

    fn visit_local_get(&mut self, _local_index: u32) {
        self.own = self.own.saturating_add(1);
    }
}

impl VisitMisc for Tally {
    fn visit_data_drop(&mut self, _data_index: u32) {
        self.own = self.own.saturating_add(1);
    }
}

impl<'a> VisitOperator<'a> for Tally {
    fn visit_br_table(&mut self, _targets: BrTable<'a>) {
        self.any = self.any.saturating_add(1);
    }
}

/// Prints counts of overridden and other visits: directly by both drivers; by reference, in a
/// `Box`, and by reference to it.
pub fn print_tallies<R: Print>(rt: &R, alloc: Global) -> io::Result<()> {
    print_visits(rt, alloc, "data drops", &DATA_DROPS)?;
    print_visits(rt, alloc, "nops", &NOPS)?;
    print_visits(rt, alloc, "a constant", &CONSTANT)
}

fn print_visits<R: Print>(rt: &R, alloc: Global, name: &str, bytes: &[u8]) -> io::Result<()> {
    let mut tally = Tally { own: 0, any: 0 };
    let outcome = operators(alloc, bytes).visit_all(&mut tally);
    println!(rt; "visits of its own, {name}: {outcome:?}, {tally:?}")?;
    let outcome = operators(alloc, bytes).visit_all_simd(&mut tally);
    println!(rt; "once more: {outcome:?}, {tally:?}")?;
    let mut tally = Tally { own: 0, any: 0 };
    let mut borrowed = &mut tally;
    let outcome = operators(alloc, bytes).visit_all(&mut borrowed);
    println!(rt; "by reference: {outcome:?}, {tally:?}")?;
    let mut made = Box::new(alloc, Tally { own: 0, any: 0 });
    if made.is_err() {
        made = Box::new(alloc, Tally { own: 0, any: 0 });
    }
    let mut boxed = made?;
    let outcome = operators(alloc, bytes).visit_all(&mut boxed);
    println!(rt; "in a box: {outcome:?}, {:?}", *boxed)?;
    let mut borrowed = &mut boxed;
    let outcome = operators(alloc, bytes).visit_all(&mut borrowed);
    println!(rt; "by reference, once more: {outcome:?}, {:?}", *boxed)
}

fn operators<'a>(alloc: Global, bytes: &'a [u8]) -> OperatorsReader<'a> {
    OperatorsReader::new(alloc, BinaryReader::new(bytes, 0))
}
