use crate::extent::Extent;
use crate::numbers::{Tally, slow_signed, slow_unsigned};
use wasm_below::{AbstractHeapType, BinaryReader, HeapType, RefType, ValType};

const ABSTRACT: [AbstractHeapType; 14] = [
    AbstractHeapType::Cont,
    AbstractHeapType::Exn,
    AbstractHeapType::Array,
    AbstractHeapType::Struct,
    AbstractHeapType::I31,
    AbstractHeapType::Eq,
    AbstractHeapType::Any,
    AbstractHeapType::Extern,
    AbstractHeapType::Func,
    AbstractHeapType::None,
    AbstractHeapType::NoExtern,
    AbstractHeapType::NoFunc,
    AbstractHeapType::NoExn,
    AbstractHeapType::NoCont,
];

fn slow_short(bytes: &[u8]) -> Option<(HeapType, usize)> {
    let shared = *bytes.first()? == 0x65;
    let at = usize::from(shared);
    let code = *bytes.get(at)?;
    let ty = *ABSTRACT.get(usize::from(code.checked_sub(0x68)?))?;
    Some((HeapType::Abstract { shared, ty }, at + 1))
}

fn slow_heap_type(bytes: &[u8]) -> Option<(HeapType, usize)> {
    if let Some(found) = slow_short(bytes) {
        return Some(found);
    }
    if let [0x62, after @ ..] = bytes {
        let (index, length) = slow_unsigned(after, 32)?;
        let index = u32::try_from(index).ok()?;
        return if index < 1048576 {
            Some((HeapType::Exact(index), length.checked_add(1)?))
        } else {
            None
        };
    }
    let (index, length) = slow_signed(bytes, 33)?;
    let index = u32::try_from(index).ok()?;
    if index < 1048576 {
        Some((HeapType::Concrete(index), length))
    } else {
        None
    }
}

fn slow_ref_type(bytes: &[u8]) -> Option<(RefType, usize)> {
    if let Some((heap_type, length)) = slow_short(bytes) {
        return Some((RefType::new(true, heap_type)?, length));
    }
    match bytes {
        [code @ (0x63 | 0x64), after @ ..] => {
            let (heap_type, length) = slow_heap_type(after)?;
            let ty = RefType::new(*code == 0x63, heap_type)?;
            Some((ty, length.checked_add(1)?))
        }
        _ => None,
    }
}

fn slow_value_type(bytes: &[u8]) -> Option<(ValType, usize)> {
    match bytes {
        [0x7f, ..] => Some((ValType::I32, 1)),
        [0x7e, ..] => Some((ValType::I64, 1)),
        [0x7d, ..] => Some((ValType::F32, 1)),
        [0x7c, ..] => Some((ValType::F64, 1)),
        [0x7b, ..] => Some((ValType::V128, 1)),
        _ => {
            let (ty, length) = slow_ref_type(bytes)?;
            Some((ValType::Ref(ty), length))
        }
    }
}

fn compare(tally: &mut Tally, bytes: &[u8]) {
    let mut reader = BinaryReader::new(bytes, 0);
    let heap_type = match HeapType::read(&mut reader) {
        Ok(ty) => Some((ty, reader.current_position())),
        Err(_) => None,
    };
    tally.count(heap_type.is_some(), heap_type == slow_heap_type(bytes));
    let mut reader = BinaryReader::new(bytes, 0);
    let ref_type = match RefType::read(&mut reader) {
        Ok(ty) => Some((ty, reader.current_position())),
        Err(_) => None,
    };
    tally.count(ref_type.is_some(), ref_type == slow_ref_type(bytes));
    let mut reader = BinaryReader::new(bytes, 0);
    let value_type = match ValType::read(&mut reader) {
        Ok(ty) => Some((ty, reader.current_position())),
        Err(_) => None,
    };
    tally.count(value_type.is_some(), value_type == slow_value_type(bytes));
}

pub fn short_strings(extent: Extent) -> Tally {
    let mut tally = Tally::new();
    compare(&mut tally, &[]);
    for first in 0..=255u8 {
        compare(&mut tally, &[first]);
        for second in 0..=255u8 {
            compare(&mut tally, &[first, second]);
            if extent.is_full() {
                for third in 0..=255u8 {
                    compare(&mut tally, &[first, second, third]);
                }
            }
        }
    }
    tally
}
