ghost use Rattle.std.specs.Prelude.{ℕ, IfOk};
ghost use Rattle.wasm_operators.specs.below.declared.error.Error.{Error};

use std::io;
use wasm_operators::Error;

/// Receives the errors of functions.
pub trait Complaints {
    // The states before and after a report.
    ghost reports: { Self → ℕ → Error → Self → Type 0 };

    /// Reports the error of the function with this index.
    fn complain(&mut self, index: u32, error: Error) -> io::Result<()>
        ensures { IfOk result (λ done. Self.reports self.old index error self.new) };
}
