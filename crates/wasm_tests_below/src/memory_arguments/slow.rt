use wasm_below::WasmFeatures;
use wasm_imm::{MemArg, MemArgKind, MemArgOrdering, MemArgTarget, Ordering};

const ORDERINGS: [(Option<MemArgOrdering>, u8); 5] = [
    (None, 0),
    (Some(MemArgOrdering::Op(Ordering::SeqCst)), 0x00),
    (Some(MemArgOrdering::Op(Ordering::AcqRel)), 0x01),
    (Some(MemArgOrdering::Rmw(Ordering::SeqCst)), 0x00),
    (Some(MemArgOrdering::Rmw(Ordering::AcqRel)), 0x11),
];

/// What a target adds to the flags number.
const NO_INDEX: u64 = 0;

const ARRAY: u64 = 32;

const MEMORY: u64 = 64;

/// Returns the memory argument that a prefix encodes, and its length. Tries each alignment,
/// ordering and target.
pub fn memory_argument(
    bytes: &[u8],
    features: WasmFeatures,
    kind: MemArgKind,
    max_align: u8,
) -> Option<(MemArg, usize)> {
    let (flags, size) = number(bytes, 32)?;
    for part in [NO_INDEX, ARRAY, MEMORY] {
        for (ordering, byte) in ORDERINGS {
            if may_reach(features, part) && may_order(features, kind, ordering) {
                for align in 0..=15u8 {
                    if flags != sum(align, ordering, part) {
                        continue;
                    }
                    let read = parts(bytes, size, features, ordering, byte, part);
                    if let Some((target, offset, whole)) = read {
                        let argument = MemArg {
                            align,
                            max_align,
                            offset,
                            target,
                            ordering,
                        };
                        return Some((argument, whole));
                    }
                }
            }
        }
    }
    None
}

fn sum(align: u8, ordering: Option<MemArgOrdering>, part: u64) -> u64 {
    u64::from(align)
        .saturating_add(if ordering.is_some() { 16 } else { 0 })
        .saturating_add(part)
}

fn may_order(features: WasmFeatures, kind: MemArgKind, ordering: Option<MemArgOrdering>) -> bool {
    let on = features.contains(WasmFeatures::ACQUIRE_RELEASE_ATOMICS);
    match ordering {
        None => true,
        Some(MemArgOrdering::Op(_)) => on && kind == MemArgKind::Op,
        Some(MemArgOrdering::Rmw(_)) => on && kind == MemArgKind::Rmw,
    }
}

fn may_reach(features: WasmFeatures, part: u64) -> bool {
    match part {
        ARRAY => features.contains(WasmFeatures::MULTIBYTE_ARRAY_ACCESS),
        MEMORY => features.contains(WasmFeatures::MULTI_MEMORY),
        _ => true,
    }
}

fn parts(
    bytes: &[u8],
    at: usize,
    features: WasmFeatures,
    ordering: Option<MemArgOrdering>,
    byte: u8,
    part: u64,
) -> Option<(MemArgTarget, u64, usize)> {
    let mut at = at;
    let mut target = MemArgTarget::Memory(0);
    if part != NO_INDEX {
        let (index, size) = number(bytes.get(at..)?, 32)?;
        let index = u32::try_from(index).ok()?;
        target = if part == ARRAY {
            MemArgTarget::Array(index)
        } else {
            MemArgTarget::Memory(index)
        };
        at = at.checked_add(size)?;
    }
    if ordering.is_some() {
        if *bytes.get(at)? != byte {
            return None;
        }
        at = at.checked_add(1)?;
    }
    let width = if features.contains(WasmFeatures::MEMORY64) {
        64
    } else {
        32
    };
    let (offset, size) = number(bytes.get(at..)?, width)?;
    Some((target, offset, at.checked_add(size)?))
}

fn number(bytes: &[u8], width: u32) -> Option<(u64, usize)> {
    let mut value = 0u128;
    let mut weight = 1u128;
    for (i, byte) in bytes
        .iter()
        .take(if width == 64 { 10 } else { 5 })
        .enumerate()
    {
        let low = u128::from(byte % 128).checked_mul(weight)?;
        value = value.checked_add(low)?;
        weight = weight.checked_mul(128)?;
        if *byte < 128 {
            let value = u64::try_from(value).ok()?;
            if width == 32 && value > 4294967295 {
                return None;
            }
            return Some((value, i.checked_add(1)?));
        }
    }
    None
}
