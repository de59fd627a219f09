#[derive(Clone, Copy)]
pub enum Extent {
    Full,
    /// Ends within seconds under the checks of `rt try`.
    Short,
}

impl Extent {
    pub fn is_full(self) -> bool {
        matches!(self, Extent::Full)
    }

    pub fn longest_number(self) -> &'static str {
        match self {
            Extent::Full => "two bytes",
            Extent::Short => "one byte",
        }
    }

    pub fn longest_type(self) -> &'static str {
        match self {
            Extent::Full => "three bytes",
            Extent::Short => "two bytes",
        }
    }
}
