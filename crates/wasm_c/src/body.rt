//! All operators of a body, as C structs in an array.
ghost use Rattle.std.specs.Prelude.{◌≡◌, ◌<◌, ◌^◌, []};
ghost use Rattle.wasm_operators.specs.below.Source.{reader_of, end_of};
ghost use Rattle.wasm_operators.specs.Expression.{Placed};
ghost use Rattle.wasm_operators.specs.MainTheorem.{ReadSoFar};
ghost use Rattle.wasm_c.specs.Reads.{IsWithin, FillsArray, FindsBody, FindsOperators};

use crate::counter::Counter;
use crate::viewer::Viewer;
use std::alloc::Global;
use wasm_operators::{
    BinaryReader, FunctionBody, OperatorsReader, Result, WasmFeatures, body_laws, decoding_laws,
    expression_laws, run_laws,
};
use wasm_view::WasmOperator;

/// The number of operators that were found, and how reading them ended.
#[derive(Drop)]
pub struct Found {
    pub count: usize,
    pub end: Result<()>,
}

/// Reads operators into the array until it is full, the data ends, or a read fails.
fn fill(operators: &mut OperatorsReader<'_>, out: &mut [WasmOperator]) -> Found
    ensures { (found : Placed) × FillsArray result.end operators.old operators.new result.count out.old out.new found }
{
    run_laws::single_reads();
    let mut viewer = Viewer::new();
    let mut count: usize = 0;
    'places: while count < out.len() {
        if operators.eof() {
            return Found { count, end: Ok(()) };
        }
        viewer.offset = operators.original_position();
        match operators.visit_operator_simd(&mut viewer) {
            Ok(()) => {
                out[count] = viewer.view;
                count += 1;
            }
            Err(error) => {
                return Found {
                    count,
                    end: Err(error),
                };
            }
        }
    }
    Found { count, end: Ok(()) }
}

/// Reads the operators of a new reader to the end of the data or an error. Writes as many as fit to
/// the array, and counts all.
fn read_operators(
    features: WasmFeatures,
    operators: &mut OperatorsReader<'_>,
    out: &mut [WasmOperator],
) -> Found
    requires read_so_far { ReadSoFar [] operators.old }
    requires features { operators.old.reader.features ≡ features }
    requires within { end_of operators.old.reader < 2 ^ 64 }
    ensures { (placed : Placed) × FindsOperators result.end operators.old result.count out.old out.new placed }
{
    run_laws::single_reads();
    run_laws::read_to_the_end();
    decoding_laws::memory_asked();
    expression_laws::layouts(features);
    let filled = fill(operators, out);
    match filled.end {
        Ok(()) => {
            let mut counter = Counter {
                count: filled.count,
            };
            let end = operators.visit_all_simd(&mut counter);
            Found {
                count: counter.count,
                end,
            }
        }
        Err(error) => Found {
            count: filled.count,
            end: Err(error),
        },
    }
}

/// Reads the operators of a body, and writes as many C structs as fit to `out`. The operators are
/// the body's if the bytes encode one, otherwise the longest prefix, with the error after it.
pub fn read_body(
    alloc: Global,
    features: WasmFeatures,
    offset: u64,
    bytes: &[u8],
    out: &mut [WasmOperator],
) -> Found
    requires { IsWithin offset bytes.now }
    ensures { (placed : Placed) × FindsBody result.end (reader_of features offset bytes.now) result.count out.old out.new placed }
{
    body_laws::past_locals();
    body_laws::refused_locals();
    let body = FunctionBody::new(BinaryReader::new_features(bytes, offset, features));
    match body.get_operators_reader(alloc) {
        Ok(mut operators) => read_operators(features, &mut operators, out),
        Err(error) => Found {
            count: 0,
            end: Err(error),
        },
    }
}
