ghost use Rattle.wasm_below.specs.Fault.{DeterminesRefusal};
ghost use Rattle.wasm_below.specs.FromReader.{SameReader};
ghost use Rattle.wasm_below.specs.Sequence.{PrefixCodeUpTo};
ghost use Rattle.wasm_operators.specs.Constant.{EncodesConstantReader};
ghost use Rattle.wasm_operators.specs.ConstantFaults.{ConstantFault};

use wasm_below::WasmFeatures;

/// States that no constant expression is a proper prefix of another.
pub fn constant_expressions(features: WasmFeatures)
    ensures { PrefixCodeUpTo SameReader (EncodesConstantReader features) }
{}

/// States that the error of a constant expression is determined.
pub fn constant_refusals()
    ensures { DeterminesRefusal ConstantFault }
{}
