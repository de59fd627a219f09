/// Why a group cannot be added to the types of a module.
#[derive(Clone, Copy, Debug, PartialEq, Eq)]
pub enum TypeError {
    OutOfMemory,
    /// The module has more than 1,000,000 types.
    TooManyTypes,
    /// The supertype of a type does not come before it, is final, or is of another kind.
    Supertype,
    /// A type index in the group has no type, or a type does not match its supertype.
    Invalid,
}
