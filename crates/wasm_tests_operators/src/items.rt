use crate::reported::{Listed, Reported};
use std::alloc::Global;
use wasm_operators::{BinaryReader, OperatorsReader, OperatorsReaderAllocations};

pub fn items<'a>(alloc: Global, reader: &BinaryReader<'a>, list: Listed<'_, 'a>) -> Reported {
    let reported = items_once(alloc, reader, list);
    if reported.lacked_memory() {
        return items_once(alloc, reader, list);
    }
    reported
}

fn items_once<'a>(alloc: Global, reader: &BinaryReader<'a>, list: Listed<'_, 'a>) -> Reported {
    let mut items = OperatorsReader::new(alloc, reader.clone()).into_iter();
    let mut reported = Reported::new();
    let count = list.len() as u64;
    for _ in 0..=count {
        match items.next() {
            Some(Ok(op)) => reported.give(list, &op),
            Some(Err(e)) => {
                reported.refusal = Some(e);
                break;
            }
            None => break,
        }
    }
    reported.check(items.next().is_none());
    reported.check(items.next().is_none());
    reported
}

pub fn items_with_offsets<'a>(
    alloc: Global,
    reader: &BinaryReader<'a>,
    list: Listed<'_, 'a>,
) -> (Reported, OperatorsReaderAllocations) {
    let (reported, allocations) = offsets_once(alloc, reader, list);
    if reported.lacked_memory() {
        return offsets_once(alloc, reader, list);
    }
    (reported, allocations)
}

fn offsets_once<'a>(
    alloc: Global,
    reader: &BinaryReader<'a>,
    list: Listed<'_, 'a>,
) -> (Reported, OperatorsReaderAllocations) {
    let mut items = OperatorsReader::new(alloc, reader.clone()).into_iter_with_offsets();
    let mut reported = Reported::new();
    let count = list.len() as u64;
    for _ in 0..=count {
        match items.next() {
            Some(Ok((op, offset))) => reported.give_at(list, &op, offset),
            Some(Err(e)) => {
                reported.refusal = Some(e);
                break;
            }
            None => break,
        }
    }
    reported.check(items.next().is_none());
    (reported, items.into_allocations())
}
