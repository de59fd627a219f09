/// The construct of an open control frame. WebAssembly Core Specification 3.0: Appendix, Validation
/// Algorithm.
///
/// The last three kinds belong to legacy exception handling.
#[derive(Clone, Copy, Debug, PartialEq, Eq)]
pub enum FrameKind {
    /// A `block`, or the expression itself.
    Block,
    /// An `if`, up to its `else` or `end`.
    If,
    /// An `if` from its `else` on.
    Else,
    Loop,
    TryTable,
    /// A legacy `try`, up to its first handler, its `delegate` or its `end`.
    LegacyTry,
    LegacyCatch,
    LegacyCatchAll,
}
