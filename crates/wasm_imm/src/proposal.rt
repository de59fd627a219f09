//! Written by tools/lists.py from tools/operators.tsv.
ghost use Rattle.std.specs.Prelude.{◌≡◌};
ghost use Rattle.wasm_imm.specs.Proposal.{proposal_name};

use std::fmt;

/// A proposal that added operators to WebAssembly. `Mvp` is the first version.
#[derive(Clone, Copy, Debug, PartialEq, Eq)]
pub enum Proposal {
    Mvp,
    SignExtension,
    Gc,
    CustomDescriptors,
    SaturatingFloatToInt,
    BulkMemory,
    ReferenceTypes,
    TailCall,
    MemoryControl,
    Threads,
    Simd,
    RelaxedSimd,
    Exceptions,
    LegacyExceptions,
    SharedEverythingThreads,
    FunctionReferences,
    StackSwitching,
    WideArithmetic,
    AcquireReleaseAtomics,
}

impl Proposal {
    /// Returns the name, as wasmparser's macros write it.
    pub fn name(self) -> &'static str
        ensures { result.now ≡ proposal_name self }
    {
        match self {
            Proposal::Mvp => "mvp",
            Proposal::SignExtension => "sign_extension",
            Proposal::Gc => "gc",
            Proposal::CustomDescriptors => "custom_descriptors",
            Proposal::SaturatingFloatToInt => "saturating_float_to_int",
            Proposal::BulkMemory => "bulk_memory",
            Proposal::ReferenceTypes => "reference_types",
            Proposal::TailCall => "tail_call",
            Proposal::MemoryControl => "memory_control",
            Proposal::Threads => "threads",
            Proposal::Simd => "simd",
            Proposal::RelaxedSimd => "relaxed_simd",
            Proposal::Exceptions => "exceptions",
            Proposal::LegacyExceptions => "legacy_exceptions",
            Proposal::SharedEverythingThreads => "shared_everything_threads",
            Proposal::FunctionReferences => "function_references",
            Proposal::StackSwitching => "stack_switching",
            Proposal::WideArithmetic => "wide_arithmetic",
            Proposal::AcquireReleaseAtomics => "acquire_release_atomics",
        }
    }
}

impl fmt::Display for Proposal {
    fn fmt<W: fmt::Write>(&self, f: &mut fmt::Formatter<W>) -> fmt::Result {
        f.write_str(self.name())
    }
}
