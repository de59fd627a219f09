ghost use Rattle.wasm_below.specs.Fault.{DeterminesRefusal};
ghost use Rattle.wasm_decode_opcodes.specs.OperatorFaults.{OperatorFault, ScalarOperatorFault, FaultIn};

use wasm_below::WasmFeatures;
use wasm_grammar::FrameKind;

/// States that the fault of an operator determines its error: the same bytes, features and frame
/// give the same error, unless allocation fails.
pub fn operator_refusals(features: WasmFeatures, frame: Option<FrameKind>)
    ensures any { DeterminesRefusal (FaultIn (OperatorFault features) frame) }
    ensures scalar { DeterminesRefusal (FaultIn (ScalarOperatorFault features) frame) }
{}
