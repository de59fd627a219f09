use std::alloc::AllocError;
use std::fmt;

/// Why arguments are wrong.
#[derive(Drop)]
pub enum Mistake {
    /// An argument is no option of the program. The text is an option with a similar name.
    Unknown(String, Option<&'static str>),
    /// An argument is empty.
    Empty,
    /// The last option lacks its value.
    NoValue(&'static str),
    /// An option that takes no value has one.
    Value(&'static str),
    /// No file is named.
    NoFile,
    /// What is wrong with an argument, and the argument.
    Word(&'static str, String),
    /// An argument is not UTF-8.
    NotText,
    /// Allocation failed.
    Memory,
}

impl fmt::Display for Mistake {
    fn fmt<W: fmt::Write>(&self, f: &mut fmt::Formatter<W>) -> fmt::Result {
        match self {
            Mistake::Unknown(word, None) => {
                write!(f, "unknown option: {word}; --help prints the options")
            }
            Mistake::Unknown(word, Some(option)) => {
                write!(f, "unknown option: {word}; did you mean {option}?")
            }
            Mistake::Empty => f.write_str("an argument is empty; --help prints the options"),
            Mistake::NoValue(option) => write!(f, "{option} needs a value"),
            Mistake::Value(option) => write!(f, "{option} takes no value"),
            Mistake::NoFile => f.write_str("no file is named; --help prints the options"),
            Mistake::Word(what, word) => write!(f, "{what}: {word}"),
            Mistake::NotText => f.write_str("an argument is not UTF-8"),
            Mistake::Memory => f.write_str("out of memory"),
        }
    }
}

impl From<AllocError> for Mistake {
    fn from(_: AllocError) -> Mistake {
        Mistake::Memory
    }
}

/// Adds an item at the end of a list.
pub fn add<T: Drop>(list: &mut Vec<T>, item: T) -> Result<(), Mistake> {
    match list.push(item) {
        Ok(()) => Ok(()),
        Err(_) => Err(Mistake::Memory),
    }
}
