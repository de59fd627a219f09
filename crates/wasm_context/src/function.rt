/// A function of a module.
#[derive(Clone, Copy, Debug, PartialEq, Eq)]
pub struct Function {
    /// The index of its type.
    pub type_index: u32,
    /// Whether the module refers to it outside of function bodies. Specification: Contexts, REFS.
    pub declared: bool,
}
