use crate::mistake::{Mistake, add};
use std::alloc::Global;

/// Whether an option has a value.
#[derive(Clone, Copy, PartialEq, Eq)]
pub enum Kind {
    Flag,
    Value,
}

/// An option of a program: its name with the two dashes, and the letter after one dash, if there is
/// one.
#[derive(Clone, Copy)]
pub struct Choice(pub &'static str, pub Option<char>, pub Kind);

impl Choice {
    fn long(&self) -> &'static str {
        self.0
    }

    fn has_value(&self) -> bool {
        self.2 == Kind::Value
    }
}

/// What one or two arguments request. Options are indices of the program's choices.
#[derive(Drop)]
pub enum Argument {
    /// A path; `-` is standard input.
    File(String),
    Option(usize),
    Value(usize, String),
    /// `--help`. The arguments after it are ignored.
    Help,
    /// `--version`. The arguments after it are ignored.
    Version,
}

/// How many bytes a suggestion has in common with the word, at least, if the word is not near to it: two
/// letters after the dashes.
const LEAST: usize = 4;

/// The options of all programs.
const COMMON: [Choice; 2] = [
    Choice("--help", None, Kind::Flag),
    Choice("--version", None, Kind::Flag),
];

/// The arguments so far.
#[derive(Drop)]
struct Read {
    found: Vec<Argument>,
    /// The option whose value is the next argument.
    waiting: Option<usize>,
    /// Whether all arguments from here on are files.
    files: bool,
    /// Whether the arguments from here on are ignored.
    ended: bool,
}

/// Returns how many bytes at the start are the same in both texts.
fn same_start(one: &str, other: &str) -> usize {
    let mut count: usize = 0;
    for (byte, wanted) in one.bytes().zip(other.bytes()) {
        if byte != wanted {
            return count;
        }
        count = count.saturating_add(1);
    }
    count
}

/// Returns whether both texts start with the same two bytes in exchanged order, and are the same after
/// them.
fn starts_exchanged(one: &[u8], other: &[u8]) -> bool {
    match (one, other) {
        ([first, second, one @ ..], [third, fourth, other @ ..]) => {
            first == fourth && second == third && one == other
        }
        _ => false,
    }
}

/// Returns whether a name becomes an option's if one byte is added, dropped or replaced, or if two
/// neighbours are exchanged.
fn is_near(name: &str, option: &str) -> bool {
    let same = same_start(name, option);
    let Some(name) = name.as_bytes().get(same..) else {
        return false;
    };
    let Some(option) = option.as_bytes().get(same..) else {
        return false;
    };
    match (name, option) {
        ([_, after @ ..], [_, wanted @ ..]) => {
            after == wanted || after == option || name == wanted || starts_exchanged(name, option)
        }
        _ => name.len().max(option.len()) <= 1,
    }
}

/// Returns the first option that a name is near to.
fn near(choices: &[Choice], name: &str) -> Option<&'static str> {
    for choice in choices {
        if is_near(name, choice.long()) {
            return Some(choice.long());
        }
    }
    None
}

/// Returns the first option of those with the most bytes at the start in common with the name.
fn similar(choices: &[Choice], name: &str) -> Option<&'static str> {
    let mut found = None;
    let mut most = LEAST - 1;
    for choice in choices {
        let count = same_start(name, choice.long());
        if count > most {
            most = count;
            found = Some(choice.long());
        }
    }
    found
}

/// Returns the option that a word is probably meant to be: one that its name is near to, or else one
/// that starts like it.
fn suggested(choices: &[Choice], word: &str) -> Option<&'static str> {
    let name = match word.split_once('=') {
        Some((name, _)) => name,
        None => word,
    };
    let option = near(choices, name).or(near(&COMMON, name));
    option.or(similar(choices, name)).or(similar(&COMMON, name))
}

/// Returns the index of the option with this name.
fn long_choice(choices: &[Choice], name: &str) -> Option<usize> {
    for index in 0..choices.len() {
        if choices[index].long() == name {
            return Some(index);
        }
    }
    None
}

/// Returns the index of the option with this letter.
fn letter_choice(choices: &[Choice], letter: char) -> Option<usize> {
    for index in 0..choices.len() {
        if choices[index].1 == Some(letter) {
            return Some(index);
        }
    }
    None
}

/// Adds the option at an index, or awaits its value.
fn with_option(mut read: Read, choices: &[Choice], index: usize) -> Result<Read, Mistake> {
    match choices.get(index) {
        Some(choice) if choice.has_value() => read.waiting = Some(index),
        _ => add(&mut read.found, Argument::Option(index))?,
    }
    Ok(read)
}

/// Returns the mistake of a word that names no option.
fn unknown(choices: &[Choice], word: String) -> Mistake {
    let option = suggested(choices, word.as_str());
    Mistake::Unknown(word, option)
}

/// Adds the option at an index with a value, which it must take.
fn with_value(
    mut read: Read,
    choices: &[Choice],
    index: usize,
    value: String,
) -> Result<Read, Mistake> {
    match choices.get(index) {
        Some(choice) if !choice.has_value() => return Err(Mistake::Value(choice.long())),
        _ => add(&mut read.found, Argument::Value(index, value))?,
    }
    Ok(read)
}

/// Reads an option with its value after `=`.
fn read_assigned(
    alloc: Global,
    read: Read,
    choices: &[Choice],
    word: String,
) -> Result<Read, Mistake> {
    let Some((name, value)) = word.as_str().split_once('=') else {
        return Err(unknown(choices, word));
    };
    let Some(index) = long_choice(choices, name) else {
        return Err(unknown(choices, word));
    };
    match String::from_str(alloc, value) {
        Ok(value) => with_value(read, choices, index, value),
        Err(_) => Err(Mistake::Memory),
    }
}

/// Reads an argument that starts with two dashes.
fn read_long(
    alloc: Global,
    mut read: Read,
    choices: &[Choice],
    word: String,
) -> Result<Read, Mistake> {
    match word.as_str() {
        "--" => {
            read.files = true;
            Ok(read)
        }
        "--help" => {
            read.ended = true;
            add(&mut read.found, Argument::Help)?;
            Ok(read)
        }
        "--version" => {
            read.ended = true;
            add(&mut read.found, Argument::Version)?;
            Ok(read)
        }
        _ => match long_choice(choices, word.as_str()) {
            Some(index) => with_option(read, choices, index),
            None => read_assigned(alloc, read, choices, word),
        },
    }
}

/// Returns the name of the option at an index.
fn name_at(choices: &[Choice], index: usize) -> &'static str {
    match choices.get(index) {
        Some(choice) => choice.long(),
        None => "",
    }
}

/// Reads an argument that starts with one dash: the letters of options. The last one may take the
/// next argument as its value.
fn read_letters(mut read: Read, choices: &[Choice], word: String) -> Result<Read, Mistake> {
    for letter in word.as_str().chars().skip(1) {
        let Some(index) = letter_choice(choices, letter) else {
            return Err(Mistake::Unknown(word, None));
        };
        if let Some(waiting) = read.waiting {
            return Err(Mistake::NoValue(name_at(choices, waiting)));
        }
        read = with_option(read, choices, index)?;
    }
    Ok(read)
}

/// Reads one argument.
fn read_word(
    alloc: Global,
    mut read: Read,
    choices: &[Choice],
    word: String,
) -> Result<Read, Mistake> {
    if read.ended {
        return Ok(read);
    }
    if let Some(index) = read.waiting {
        read.waiting = None;
        add(&mut read.found, Argument::Value(index, word))?;
        return Ok(read);
    }
    let text = word.as_str();
    if !read.files && text.is_empty() {
        return Err(Mistake::Empty);
    }
    if read.files || text == "-" || !text.starts_with('-') {
        add(&mut read.found, Argument::File(word))?;
        return Ok(read);
    }
    if text.starts_with("--") {
        read_long(alloc, read, choices, word)
    } else {
        read_letters(read, choices, word)
    }
}

/// Reads the arguments after the program's name. A value is the argument after its option, or
/// the text after `=` in the same argument. After `--`, all arguments are files.
pub fn read_arguments(
    alloc: Global,
    choices: &[Choice],
    words: Vec<String>,
) -> Result<Vec<Argument>, Mistake> {
    let mut read = Read {
        found: Vec::new(alloc),
        waiting: None,
        files: false,
        ended: false,
    };
    for word in words {
        read = read_word(alloc, read, choices, word)?;
    }
    match read.waiting {
        Some(index) => Err(Mistake::NoValue(name_at(choices, index))),
        None => Ok(read.found),
    }
}
