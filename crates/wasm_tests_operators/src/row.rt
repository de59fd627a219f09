use crate::input::Features;
use crate::items::{items, items_with_offsets};
use crate::reads::{read_all, read_clones, read_each};
use crate::reported::{Listed, Reported};
use crate::visits::{visit_all, visit_all_simd, visit_boxed, visit_large, visit_own};
use bitflags::Flags;
use std::alloc::Global;
use std::io::{self, Print};
use wasm_operators::{
    BinaryReader, Error, FrameKind, FrameStack, Operator, OperatorsReader, WasmFeatures,
};

/// The number of operators that are printed in full, and read by clones.
const FEW: usize = 16;

#[derive(Clone, Copy, Debug, PartialEq, Eq)]
struct Outcomes {
    read: Reported,
    position: u64,
    frame: Option<FrameKind>,
    finish: Option<Error>,
    items: Reported,
    plain: Reported,
    agree: Agree,
}

/// For each call, whether it returns what `read_all` returns.
#[derive(Clone, Copy, Debug, PartialEq, Eq)]
struct Agree {
    reads: bool,
    clones: bool,
    offsets: bool,
    visits: bool,
    boxed: bool,
    large: bool,
    own: bool,
}

const ALL_AGREE: Agree = Agree {
    reads: true,
    clones: true,
    offsets: true,
    visits: true,
    boxed: true,
    large: true,
    own: true,
};

/// Prints the operators, the results of the calls, and for how many feature sets `read_all` has
/// another result than for the first.
pub fn run_row<R: Print>(
    rt: &R,
    alloc: Global,
    features: Features,
    bytes: &[u8],
) -> io::Result<()> {
    let mut list = Vec::new(alloc);
    let outcomes = outcomes_of(alloc, features.first(), bytes, &mut list);
    print_list(rt, list.as_slice())?;
    print_outcomes(rt, outcomes)?;
    if let Features::These(_) = features {
        return println!(rt);
    }
    let mut sets = 0u32;
    let mut others = 0u32;
    for bits in 0..64u32 {
        if features.take(bits) {
            sets = sets.wrapping_add(1);
            if !is_read(alloc, bits, bytes, list.as_slice(), outcomes.read) {
                others = others.wrapping_add(1);
            }
        }
    }
    println!(rt; "; {sets} sets, {others} with another answer")
}

fn is_read(
    alloc: Global,
    bits: u32,
    bytes: &[u8],
    list: Listed<'_, '_>,
    expected: Reported,
) -> bool {
    let reader = BinaryReader::new_features(bytes, 0, WasmFeatures::from_bits_retain(bits));
    let mut found = Vec::new(alloc);
    let mut reported = read_all(&mut OperatorsReader::new(alloc, reader), &mut found);
    reported.operators = 0;
    for (op, offset) in found.iter() {
        reported.give_at(list, op, *offset);
    }
    reported == expected
}

fn outcomes_of<'a>(
    alloc: Global,
    bits: u32,
    bytes: &'a [u8],
    list: &mut Vec<(Operator<'a>, u64)>,
) -> Outcomes {
    let reader = BinaryReader::new_features(bytes, 0, WasmFeatures::from_bits_retain(bits));
    let mut operators = OperatorsReader::new(alloc, reader.clone());
    let read = read_all(&mut operators, list);
    let list = list.as_slice();
    let (offsets, allocations) = items_with_offsets(alloc, &reader, list);
    let items = items(alloc, &reader, list);
    let mut again = OperatorsReader::new_with_allocs(alloc, reader.clone(), allocations);
    let plain = visit_all(&mut again, list);
    Outcomes {
        read,
        position: operators.original_position(),
        frame: operators.current_frame(),
        finish: operators.finish().err(),
        items,
        plain,
        agree: Agree {
            reads: read_each(&mut OperatorsReader::new(alloc, reader.clone()), list) == read,
            clones: list.len() > FEW || are_clones(alloc, &reader, list),
            offsets: offsets == items,
            visits: visit_all_simd(&mut OperatorsReader::new(alloc, reader.clone()), list) == read,
            boxed: visit_boxed(alloc, &reader, list) == read,
            large: visit_large(&mut OperatorsReader::new(alloc, reader.clone()), list) == read,
            own: visit_own(&mut OperatorsReader::new(alloc, reader), list) == read,
        },
    }
}

fn are_clones<'a>(alloc: Global, reader: &BinaryReader<'a>, list: Listed<'_, 'a>) -> bool {
    let mut operators = OperatorsReader::new(alloc, reader.clone());
    let reported = read_clones(&mut operators, list);
    reported.is_right && reported.operators == list.len()
}

fn print_list<R: Print>(rt: &R, list: Listed<'_, '_>) -> io::Result<()> {
    match list.last() {
        None => print!(rt; "nothing"),
        Some((op, offset)) if list.len() > FEW => {
            print!(rt; "{} operators, the last {op:?} {offset}", list.len())
        }
        _ => {
            for (place, (op, offset)) in list.iter().enumerate() {
                let before = if place == 0 { "" } else { ", " };
                print!(rt; "{before}{op:?} {offset}")?;
            }
            Ok(())
        }
    }
}

fn print_outcomes<R: Print>(rt: &R, outcomes: Outcomes) -> io::Result<()> {
    print!(rt; "; ")?;
    print_end(rt, outcomes.read.refusal)?;
    if let Some(e) = outcomes.read.refusal {
        print!(rt; ": {}", e.message())?;
    }
    print!(rt; "\n    at {} in ", outcomes.position)?;
    match outcomes.frame {
        Some(kind) => print!(rt; "{kind:?}")?,
        None => print!(rt; "no frame")?,
    }
    print!(rt; "; finish: ")?;
    print_end(rt, outcomes.finish)?;
    print_reported(rt, "items", outcomes.items)?;
    print_reported(rt, "plain visits", outcomes.plain)?;
    if outcomes.read.is_right && outcomes.agree == ALL_AGREE {
        print!(rt; "; the others agree")
    } else {
        print!(rt; "; NOT: {:?}", outcomes.agree)
    }
}

fn print_reported<R: Print>(rt: &R, name: &str, reported: Reported) -> io::Result<()> {
    print!(rt; "; {name}: {}", reported.operators)?;
    if !reported.is_right {
        print!(rt; ", NOT those of the list")?;
    }
    match reported.refusal {
        Some(e) => {
            print!(rt; ", ")?;
            print_end(rt, Some(e))
        }
        None => Ok(()),
    }
}

fn print_end<R: Print>(rt: &R, refusal: Option<Error>) -> io::Result<()> {
    match refusal {
        Some(e) => print!(rt; "E{} at {}", e.message().number(), e.offset()),
        None => print!(rt; "Ok"),
    }
}
