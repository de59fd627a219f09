use crate::failure::Failure;
use std::alloc::Global;
use wasm_below::{BinaryReader, WasmFeatures};

#[derive(Clone, Copy)]
pub struct Row<'r> {
    /// What is read.
    pub call: &'r str,
    pub input: &'r str,
    pub expected: &'r str,
}

impl<'r> Row<'r> {
    pub fn of(line: &'r str) -> Option<Row<'r>> {
        let (call, others) = line.split_once('\t')?;
        let (input, expected) = others.split_once('\t')?;
        Some(Row {
            call,
            input,
            expected,
        })
    }
}

#[derive(Drop)]
pub struct Input {
    bytes: Vec<u8>,
    offset: u64,
    features: WasmFeatures,
}

impl Input {
    /// Parses an input: bytes in hexadecimal and `offset=N` and `features=none`, each
    /// optional.
    pub fn parse(alloc: Global, cell: &str) -> Result<Input, Failure> {
        let mut input = Input {
            bytes: Vec::new(alloc),
            offset: 0,
            features: WasmFeatures::all(),
        };
        for word in cell.split(' ') {
            match word.split_once('=') {
                Some(("offset", number)) => input.offset = number.parse::<u64>()?,
                Some(("features", "none")) => input.features = WasmFeatures::empty(),
                Some(_) => return Err(Failure::Malformed),
                None => input.bytes = bytes_of(alloc, word)?,
            }
        }
        Ok(input)
    }

    pub fn reader(&self) -> Result<BinaryReader<'_>, Failure> {
        if self.bytes.len() > BinaryReader::max_data_len(self.offset) {
            return Err(Failure::Malformed);
        }
        Ok(BinaryReader::new_features(self.bytes.as_slice(), self.offset, self.features))
    }
}

fn bytes_of(alloc: Global, word: &str) -> Result<Vec<u8>, Failure> {
    let mut bytes = Vec::new(alloc);
    bytes.reserve_exact(word.len() / 2)?;
    let mut high = None;
    for letter in word.as_bytes() {
        let digit = digit_of(*letter)?;
        high = match high {
            None => Some(digit),
            Some(first) => {
                bytes.push(digit.wrapping_add(16u8.wrapping_mul(first)))?;
                None
            }
        };
    }
    match high {
        None => Ok(bytes),
        Some(_) => Err(Failure::Malformed),
    }
}

fn digit_of(letter: u8) -> Result<u8, Failure> {
    match letter {
        b'0'..=b'9' => Ok(letter.wrapping_sub(b'0')),
        b'a'..=b'f' => Ok(letter.wrapping_sub(b'a').wrapping_add(10)),
        _ => Err(Failure::Malformed),
    }
}
