ghost use Rattle.std.specs.Prelude.{◌≡◌};
ghost use Rattle.wasm_typing.specs.Rules.{at};
ghost use Rattle.wasm_check_locals.specs.Runs.{types_from, AreRuns};

use wasm_below::ValType;

/// Locals of one type.
#[derive(Clone, Copy)]
pub struct Run {
    /// The index after the last of them.
    pub end: u32,
    pub ty: ValType,
}

/// Returns the type of the local at an index, by binary search.
pub fn type_in(runs: &[Run], index: u32) -> Option<ValType>
    requires { AreRuns 0 runs.now }
    ensures { result ≡ at (types_from 0 runs.now) index }
{
    let mut low = 0usize;
    let mut high = runs.len();
    'search: while low < high {
        let middle = low + (high - low) / 2;
        if runs[middle].end <= index {
            low = middle + 1;
        } else {
            high = middle;
        }
    }
    if low < runs.len() {
        return Some(runs[low].ty);
    }
    None
}
