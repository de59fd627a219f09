use std::fmt;
use wasm_context::{ContextError, Counted, Unsupported};
use wasm_externals::ExternalKind;
use wasm_subtypes::TypeError;

/// Why the sections before the code give no context, in wasmparser's words.
#[derive(Clone, Copy)]
pub struct Refusal(pub ContextError);

/// Returns the plural of what a module may have many of.
fn plural(what: Counted) -> &'static str {
    match what {
        Counted::Functions => "functions",
        Counted::Tables => "tables",
        Counted::Memories => "memories",
        Counted::Globals => "globals",
        Counted::Tags => "tags",
        Counted::ElementSegments => "element segments",
        Counted::DataSegments => "data segments",
        Counted::Exports => "exports",
    }
}

fn kind_name(kind: ExternalKind) -> &'static str {
    match kind {
        ExternalKind::Func => "function",
        ExternalKind::Table => "table",
        ExternalKind::Memory => "memory",
        ExternalKind::Global => "global",
        ExternalKind::Tag => "tag",
    }
}

fn unsupported(part: Unsupported) -> &'static str {
    match part {
        Unsupported::SharedType => {
            "shared composite types require the shared-everything-threads proposal"
        }
        Unsupported::SharedReference => {
            "shared reference types require the shared-everything-threads proposal"
        }
        Unsupported::SharedTable => {
            "shared tables require the shared-everything-threads proposal"
        }
        Unsupported::SharedGlobal => {
            "shared globals require the shared-everything-threads proposal"
        }
        Unsupported::ExactReference => "exact references require the custom descriptors proposal",
        Unsupported::ContinuationType => {
            "cannot define continuation types when stack switching is disabled"
        }
        Unsupported::ContinuationReference => {
            "continuation refs not supported without the stack switching feature"
        }
    }
}

impl fmt::Display for Refusal {
    fn fmt<W: fmt::Write>(&self, f: &mut fmt::Formatter<W>) -> fmt::Result {
        match self.0 {
            ContextError::OutOfMemory => f.write_str("out of memory"),
            ContextError::Type(TypeError::OutOfMemory) => f.write_str("out of memory"),
            ContextError::Type(TypeError::TooManyTypes) => {
                f.write_str("types count exceeds limit of 1000000")
            }
            ContextError::Type(TypeError::Supertype) => {
                f.write_str("sub type cannot have this super type")
            }
            ContextError::Type(TypeError::Invalid) => {
                f.write_str("unknown type, or sub type must match super type")
            }
            ContextError::TooMany(what) => {
                let what = plural(what);
                write!(f, "{what} count exceeds limit")
            }
            ContextError::UnknownType(index) => {
                write!(f, "unknown type {index}: type index out of bounds")
            }
            ContextError::NotFunction(index) => {
                write!(f, "type index {index} is not a function type")
            }
            ContextError::TagResults => {
                f.write_str("invalid exception type: non-empty tag result type")
            }
            ContextError::MinimumAboveMaximum => {
                f.write_str("size minimum must not be greater than maximum")
            }
            ContextError::PageSize => f.write_str("invalid custom page size"),
            ContextError::MemorySize(pages, bytes) => write!(
                f,
                "memory size must be at most 0x{pages:x} {bytes}-byte pages"
            ),
            ContextError::SharedWithoutMaximum => {
                f.write_str("shared memory must have maximum size")
            }
            ContextError::TableSize(most) => write!(
                f,
                "table size must be at most {most} elements"
            ),
            ContextError::StartType => f.write_str("invalid start function type"),
            ContextError::DuplicateExport => f.write_str("duplicate export name"),
            ContextError::Unsupported(part) => f.write_str(unsupported(part)),
            ContextError::Unknown(kind, index) => {
                let kind = kind_name(kind);
                write!(f, "unknown {kind} {index}: {kind} index out of bounds")
            }
        }
    }
}
