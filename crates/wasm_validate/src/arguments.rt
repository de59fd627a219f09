use std::alloc::Global;
use wasm_operators::WasmFeatures;
use wasm_programs::{Argument, Choice, Kind, Mistake, add, named_features, read_arguments};

/// What the arguments request.
#[derive(Drop)]
pub struct Options {
    /// The features that the functions are read with.
    pub features: WasmFeatures,
    /// Whether a line is printed for each section.
    pub verbose: bool,
    /// The paths of the modules; `-` is standard input.
    pub files: Vec<String>,
}

/// The meaning of all arguments.
#[derive(Drop)]
pub enum Request {
    Help,
    Version,
    Options(Options),
}

const CHOICES: [Choice; 2] = [
    Choice("--features", None, Kind::Value),
    Choice("--verbose", Some('v'), Kind::Flag),
];

/// Reads the arguments after the program's name.
pub fn read_request(alloc: Global, words: Vec<String>) -> Result<Request, Mistake> {
    let mut options = Options {
        features: WasmFeatures::all(),
        verbose: false,
        files: Vec::new(alloc),
    };
    for argument in read_arguments(alloc, &CHOICES, words)? {
        match argument {
            Argument::Help => return Ok(Request::Help),
            Argument::Version => return Ok(Request::Version),
            Argument::File(path) => add(&mut options.files, path)?,
            Argument::Value(_, word) => match named_features(alloc, word.as_str())? {
                Some(features) => options.features = features,
                None => return Err(Mistake::Word("unknown features", word)),
            },
            Argument::Option(_) => options.verbose = true,
        }
    }
    if options.files.is_empty() {
        return Err(Mistake::NoFile);
    }
    Ok(Request::Options(options))
}
