ghost use Rattle.std.specs.Prelude.{ℕ};
ghost use Rattle.wasm_below.specs.declared.features.WasmFeatures.{WasmFeatures};
ghost use Rattle.wasm_below.specs.Fault.{DeterminesRefusal};
ghost use Rattle.wasm_below.specs.Sequence.{PrefixCode};
ghost use Rattle.wasm_imm.specs.Indices.{MemoryIndexFault, TableIndexFault};
ghost use Rattle.wasm_imm.specs.Orderings.{EncodesOrderingByte, EncodesFence, OrderingByteFault, FenceFault};
ghost use Rattle.wasm_imm.specs.MemoryArgumentFaults.{MemArgFault};
ghost use Rattle.wasm_imm.specs.MemoryArgument.{EncodesMemArg};

use crate::memory_argument::MemArgKind;
use wasm_below::WasmFeatures;

pub fn memory_arguments(features: WasmFeatures, kind: MemArgKind, max_align: u8)
    ensures { PrefixCode (EncodesMemArg features kind max_align) }
{}

pub fn orderings(features: WasmFeatures)
    ensures alone { PrefixCode EncodesOrderingByte }
    ensures fence { PrefixCode (EncodesFence features) }
{}

pub fn index_refusals(features: WasmFeatures)
    ensures memory { DeterminesRefusal (MemoryIndexFault features) }
    ensures table { DeterminesRefusal (TableIndexFault features) }
{}

pub fn short_refusals(features: WasmFeatures)
    ensures ordering { DeterminesRefusal OrderingByteFault }
    ensures fence { (start : ℕ) → DeterminesRefusal (FenceFault features start) }
{}

pub fn memory_argument_refusals(features: WasmFeatures, kind: MemArgKind)
    ensures { DeterminesRefusal (MemArgFault features kind) }
{}
