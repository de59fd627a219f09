use std::alloc::{AllocError, Global};
use wasm_c::{
    WasmOperator, WasmReader, WasmRefusal, wasm_finish, wasm_frames_needed, wasm_next,
    wasm_next_plain, wasm_open, wasm_open_body, wasm_read, wasm_read_body,
};

/// The most operators of a batch.
const BATCH: usize = 5;

/// A refusal before a call writes it, with a number that no call writes.
pub const UNWRITTEN: WasmRefusal = WasmRefusal {
    offset: 0,
    number: 77,
    name: 0,
    value: 0,
    reserved: 0,
};

/// Bytes to read: a function body, or an expression.
#[derive(Clone, Copy)]
pub struct Source<'b> {
    pub bytes: &'b [u8],
    pub offset: u64,
    pub features: u32,
    pub is_body: bool,
}

/// The operators read, how many there are, and how reading ended.
#[derive(Drop)]
pub struct Found {
    pub operators: Vec<WasmOperator>,
    pub count: usize,
    pub end: WasmRefusal,
}

#[derive(Drop)]
struct Opened {
    frames: Vec<u8>,
    reader: WasmReader,
    end: WasmRefusal,
}

fn open(alloc: Global, source: &Source<'_>) -> Result<Opened, AllocError> {
    let Source {
        bytes,
        offset,
        features,
        is_body,
    } = *source;
    let mut frames = vec![in alloc; 0u8; wasm_frames_needed(bytes.len())]?;
    let mut reader = WasmReader {
        offset: 0,
        position: 0,
        depth: 0,
        features: 0,
        reserved: 0,
    };
    let mut end = UNWRITTEN;
    let places = frames.as_mut_slice();
    if is_body {
        wasm_open_body(bytes, offset, features, places, &mut reader, &mut end);
    } else {
        wasm_open(bytes, offset, features, places, &mut reader, &mut end);
    }
    Ok(Opened {
        frames,
        reader,
        end,
    })
}

/// Calls `wasm_finish` unless an earlier call failed. Returns the operators and how reading ended.
fn finished(opened: Opened, bytes: &[u8], operators: Vec<WasmOperator>) -> Found {
    let Opened {
        frames,
        reader,
        mut end,
    } = opened;
    if end.number == 0 {
        wasm_finish(bytes, frames.as_slice(), &reader, &mut end);
    }
    let count = operators.len();
    Found {
        operators,
        count,
        end,
    }
}

pub fn whole(alloc: Global, source: &Source<'_>, room: usize) -> Result<Found, AllocError> {
    let mut operators = vec![in alloc; WasmOperator::bare(0, 0, 0); room]?;
    let mut count = 0;
    let mut end = UNWRITTEN;
    wasm_read_body(
        alloc,
        source.bytes,
        source.offset,
        source.features,
        operators.as_mut_slice(),
        &mut count,
        &mut end,
    );
    operators.truncate(count);
    Ok(Found {
        operators,
        count,
        end,
    })
}

/// Reads operator by operator, by `wasm_next_plain` if `is_plain`, otherwise by `wasm_next`.
pub fn step_by_step(
    alloc: Global,
    source: &Source<'_>,
    is_plain: bool,
) -> Result<Found, AllocError> {
    let bytes = source.bytes;
    let mut opened = open(alloc, source)?;
    let mut operators = Vec::new(alloc);
    for _ in 0..bytes.len() {
        if opened.end.number != 0 || opened.reader.position >= bytes.len() as u64 {
            break;
        }
        let mut operator = WasmOperator::bare(0, 0, 0);
        let number = if is_plain {
            wasm_next_plain(
                alloc,
                bytes,
                opened.frames.as_mut_slice(),
                &mut opened.reader,
                &mut operator,
                &mut opened.end,
            )
        } else {
            wasm_next(
                alloc,
                bytes,
                opened.frames.as_mut_slice(),
                &mut opened.reader,
                &mut operator,
                &mut opened.end,
            )
        };
        if number == 0 {
            operators.push(operator)?;
        }
    }
    Ok(finished(opened, bytes, operators))
}

pub fn by_batches(alloc: Global, source: &Source<'_>) -> Result<Found, AllocError> {
    let bytes = source.bytes;
    let mut opened = open(alloc, source)?;
    let mut operators = Vec::new(alloc);
    let mut batch = vec![in alloc; WasmOperator::bare(0, 0, 0); BATCH]?;
    for _ in 0..bytes.len() {
        if opened.end.number != 0 || opened.reader.position >= bytes.len() as u64 {
            break;
        }
        let mut count = 0;
        wasm_read(
            alloc,
            bytes,
            opened.frames.as_mut_slice(),
            &mut opened.reader,
            batch.as_mut_slice(),
            &mut count,
            &mut opened.end,
        );
        for operator in batch.as_slice().iter().take(count) {
            operators.push(*operator)?;
        }
    }
    Ok(finished(opened, bytes, operators))
}
