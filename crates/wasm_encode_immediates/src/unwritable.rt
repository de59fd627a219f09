use wasm_below::WasmFeatures;

/// Why an operator, or a list of operators, was not written. Except for `OutOfMemory`, it has no
/// encoding under the features.
#[derive(Clone, Copy, Debug, PartialEq, Eq)]
pub enum Unwritable {
    /// It needs this feature, which is off.
    NeedsFeature(WasmFeatures),
    /// The alignment of a memory argument, as an exponent, is above 15.
    Alignment,
    /// `max_align` of a memory argument is not the operator's natural alignment.
    NaturalAlignment,
    /// The memory argument has the ordering of another kind of operator: `Rmw` in a load or store,
    /// `Op` in a read-modify-write operator, or any in an operator without one.
    WrongOrdering,
    /// A type index is above 1048575, the greatest that is read.
    TypeIndex,
    /// A list is longer than its limit: 10 types of a `select`, 10000 catches or clauses, 2^32 - 1
    /// declarations of locals.
    TooMany,
    /// A `TypedSelectMulti` has one type. These bytes encode a `TypedSelect`.
    SingleType,
    /// The vector can't grow: allocation failed.
    OutOfMemory,
}
