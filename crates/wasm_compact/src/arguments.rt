use std::alloc::Global;
use wasm_programs::{Argument, Choice, Kind, Mistake, add, read_arguments};

/// What the arguments request.
#[derive(Drop)]
pub struct Options {
    /// Whether custom sections that may hold offsets of the code are dropped.
    pub drop_offsets: bool,
    /// The names of the unknown custom sections that are copied.
    pub keep: Vec<String>,
    /// The path of the new module. `None` is standard output.
    pub output: Option<String>,
    /// The path of the module; `-` is standard input.
    pub file: String,
}

/// The meaning of all arguments.
#[derive(Drop)]
pub enum Request {
    Help,
    Version,
    Options(Options),
}

const OUTPUT: usize = 0;

const CHOICES: [Choice; 3] = [
    Choice("--output", Some('o'), Kind::Value),
    Choice("--keep", None, Kind::Value),
    Choice("--drop-offsets", None, Kind::Flag),
];

/// Sets a path, which must be the first.
fn set_path(place: &mut Option<String>, path: String) -> Result<(), Mistake> {
    if place.is_some() {
        return Err(Mistake::Word("more than one file", path));
    }
    *place = Some(path);
    Ok(())
}

/// Reads the arguments after the program's name.
pub fn read_request(alloc: Global, words: Vec<String>) -> Result<Request, Mistake> {
    let mut drop_offsets = false;
    let mut keep = Vec::new(alloc);
    let mut output = None;
    let mut file = None;
    for argument in read_arguments(alloc, &CHOICES, words)? {
        match argument {
            Argument::Help => return Ok(Request::Help),
            Argument::Version => return Ok(Request::Version),
            Argument::File(path) => set_path(&mut file, path)?,
            Argument::Value(OUTPUT, path) => set_path(&mut output, path)?,
            Argument::Value(_, name) => add(&mut keep, name)?,
            Argument::Option(_) => drop_offsets = true,
        }
    }
    match file {
        Some(file) => Ok(Request::Options(Options {
            drop_offsets,
            keep,
            output,
            file,
        })),
        None => Err(Mistake::NoFile),
    }
}
