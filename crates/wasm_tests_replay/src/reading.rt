use std::alloc::{AllocError, Global};
use wasm_operators::{BinaryReader, FunctionBody, Operator, Result, WasmFeatures};
use wasm_tests_texts::{Written, write_operator};

pub fn write_fields(
    alloc: Global,
    features: WasmFeatures,
    body: &[u8],
    out: &mut String,
) -> std::result::Result<Result<()>, AllocError> {
    let mut operators = Vec::new(alloc);
    let outcome = read_body(alloc, features, body, &mut operators);
    for (operator, offset) in operators.as_slice() {
        write_line(out, operator, *offset)?;
    }
    Ok(outcome)
}

fn read_body<'a>(
    alloc: Global,
    features: WasmFeatures,
    body: &'a [u8],
    operators: &mut Vec<(Operator<'a>, u64)>,
) -> Result<()> {
    let reader = BinaryReader::new_features(body, 0, features);
    match FunctionBody::new(reader).get_operators_reader(alloc) {
        Ok(mut after) => after.read_all(operators),
        Err(e) => Err(e),
    }
}

fn write_line(out: &mut String, operator: &Operator<'_>, offset: u64) -> Written {
    write!(out, "{offset} ")?;
    write_operator(out, operator)?;
    out.push_str("\n")
}
