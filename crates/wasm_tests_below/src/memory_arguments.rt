//! Memory arguments with all 64 feature sets, compared with a slow reading that tries every memory
//! argument.

mod slow;

use crate::extent::Extent;
use bitflags::Flags;
use std::io::{self, Print};
use wasm_below::{BinaryReader, WasmFeatures};
use wasm_imm::{MemArg, MemArgKind};

const TAILS: [[u8; 6]; 4] = [
    [0x05, 0x00, 0x00, 0x00, 0x00, 0x00],
    [0x01, 0x01, 0x08, 0x00, 0x00, 0x00],
    [0x11, 0x00, 0x02, 0x00, 0x00, 0x00],
    [0x80, 0x80, 0x80, 0x80, 0x80, 0x00],
];

/// The number of reads that succeeded, at index 0, and that failed with error N, at index N.
#[derive(Drop)]
struct Counts {
    outcomes: [u64; 26],
    offsets: u64,
    differ: u64,
}

pub fn print_memory_arguments<R: Print>(rt: &R, extent: Extent) -> io::Result<()> {
    for kind in [MemArgKind::Plain, MemArgKind::Op, MemArgKind::Rmw] {
        let counts = count(kind, extent);
        println!(rt;
            "{kind:?}: {} differ, offsets {}",
            counts.differ, counts.offsets
        )?;
        for (number, outcomes) in counts.outcomes.iter().enumerate() {
            if *outcomes != 0 {
                println!(rt; "  {number}: {outcomes}")?;
            }
        }
    }
    Ok(())
}

/// Counts the results for flags 0 to 255, cut to two bytes and with each tail. A short run tries
/// only all features and none.
fn count(kind: MemArgKind, extent: Extent) -> Counts {
    let mut counts = Counts {
        outcomes: [0; 26],
        offsets: 0,
        differ: 0,
    };
    for bits in 0..64u32 {
        if !extent.is_full() && bits % 63 != 0 {
            continue;
        }
        let features = WasmFeatures::from_bits_retain(bits);
        for flags in 0..=255u8 {
            try_one(&mut counts, features, kind, &text(flags, &TAILS[0]), 2);
            for tail in &TAILS {
                try_one(&mut counts, features, kind, &text(flags, tail), 8);
            }
        }
    }
    counts
}

fn text(flags: u8, tail: &[u8; 6]) -> [u8; 8] {
    if flags < 128 {
        [
            flags, tail[0], tail[1], tail[2], tail[3], tail[4], tail[5], 0,
        ]
    } else {
        [
            flags, 1, tail[0], tail[1], tail[2], tail[3], tail[4], tail[5],
        ]
    }
}

fn try_one(
    counts: &mut Counts,
    features: WasmFeatures,
    kind: MemArgKind,
    text: &[u8; 8],
    size: usize,
) {
    let bytes = text.get(..size).unwrap_or(&[]);
    let mut reader = BinaryReader::new_features(bytes, 0, features);
    let read = MemArg::read(&mut reader, 2, kind);
    let taken = reader.current_position();
    let slow = slow::memory_argument(bytes, features, kind, 2);
    match read {
        Ok(argument) => {
            counts.outcomes[0] = counts.outcomes[0].saturating_add(1);
            counts.offsets = counts.offsets.saturating_add(taken as u64);
            if slow != Some((argument, taken)) {
                counts.differ = counts.differ.saturating_add(1);
            }
        }
        Err(e) => {
            let number = usize::from(e.message.number());
            if number < 26 {
                counts.outcomes[number] = counts.outcomes[number].saturating_add(1);
            }
            counts.offsets = counts.offsets.saturating_add(e.offset % 1024);
            if slow.is_some() || taken != 0 {
                counts.differ = counts.differ.saturating_add(1);
            }
        }
    }
}
