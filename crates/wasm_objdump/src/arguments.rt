use std::alloc::Global;
use wasm_operators::WasmFeatures;
use wasm_programs::{Argument, Choice, Kind, Mistake, add, named_features, read_arguments};

/// Which functions are requested.
#[derive(Drop)]
pub enum Functions {
    /// All functions that the module defines.
    All,
    /// The function with this index.
    Index(u32),
    /// The first function with this name.
    Name(String),
}

/// What the arguments request.
#[derive(Drop)]
pub struct Options {
    /// Whether the sections are listed.
    pub headers: bool,
    /// Whether the contents of the sections are shown.
    pub details: bool,
    /// Whether the functions are disassembled.
    pub functions: bool,
    /// Whether the bytes of the sections are shown.
    pub contents: bool,
    /// The only section whose contents or bytes are shown, if one is requested.
    pub section: Option<String>,
    /// Whether the operators are counted, in place of all these.
    pub census: bool,
    /// Which functions are disassembled or counted.
    pub function: Functions,
    /// The features that the functions are read with.
    pub features: WasmFeatures,
    /// The paths of the modules; `-` is standard input.
    pub files: Vec<String>,
    /// Whether standard input is read because no file is named.
    pub is_without_file: bool,
}

/// The meaning of all arguments.
#[derive(Drop)]
pub enum Request {
    Help,
    Version,
    Options(Options),
}

const HEADERS: usize = 0;

const DETAILS: usize = 1;

const DISASSEMBLE: usize = 2;

const CENSUS: usize = 3;

const FUNCTION: usize = 4;

const FEATURES: usize = 5;

const CONTENTS: usize = 6;

const SECTION: usize = 7;

/// The options. Those after `--section` are options of `wasm-objdump` that this program does not
/// have.
const CHOICES: [Choice; 11] = [
    Choice("--headers", Some('h'), Kind::Flag),
    Choice("--details", Some('x'), Kind::Flag),
    Choice("--disassemble", Some('d'), Kind::Flag),
    Choice("--census", None, Kind::Flag),
    Choice("--function", None, Kind::Value),
    Choice("--features", None, Kind::Value),
    Choice("--full-contents", Some('s'), Kind::Flag),
    Choice("--section", Some('j'), Kind::Value),
    Choice("--reloc", Some('r'), Kind::Flag),
    Choice("--debug", None, Kind::Flag),
    Choice("--section-offsets", None, Kind::Flag),
];

/// Returns the functions that a word names: an index, in decimal or after `0x` in hexadecimal, or a
/// name.
fn functions_of(word: String) -> Functions {
    let index = match word.as_str().strip_prefix("0x") {
        Some(digits) => u32::from_str_radix(digits, 16),
        None => word.as_str().parse::<u32>(),
    };
    match index {
        Ok(index) => Functions::Index(index),
        Err(_) => Functions::Name(word),
    }
}

/// Returns the mistake of an option that this program does not have.
fn unsupported(alloc: Global, index: usize) -> Mistake {
    let name = match CHOICES.get(index) {
        Some(choice) => choice.0,
        None => "",
    };
    match String::from_str(alloc, name) {
        Ok(word) => Mistake::Word("not supported", word),
        Err(_) => Mistake::Memory,
    }
}

/// Sets an option without a value.
fn set_option(alloc: Global, options: &mut Options, index: usize) -> Result<(), Mistake> {
    match index {
        HEADERS => options.headers = true,
        DETAILS => options.details = true,
        DISASSEMBLE => options.functions = true,
        CENSUS => options.census = true,
        CONTENTS => options.contents = true,
        _ => return Err(unsupported(alloc, index)),
    }
    Ok(())
}

/// Sets an option to a value.
fn set_value(
    alloc: Global,
    options: &mut Options,
    index: usize,
    word: String,
) -> Result<(), Mistake> {
    match index {
        FUNCTION => options.function = functions_of(word),
        SECTION => options.section = Some(word),
        FEATURES => match named_features(alloc, word.as_str())? {
            Some(features) => options.features = features,
            None => return Err(Mistake::Word("unknown features", word)),
        },
        _ => return Err(unsupported(alloc, index)),
    }
    Ok(())
}

/// Completes the request: disassembly if nothing else is requested, standard input if no file is
/// named.
fn finished(alloc: Global, mut options: Options) -> Result<Request, Mistake> {
    options.functions |= !options.headers && !options.details && !options.contents;
    if options.files.is_empty() {
        options.is_without_file = true;
        let Ok(input) = String::from_str(alloc, "-") else {
            return Err(Mistake::Memory);
        };
        add(&mut options.files, input)?;
    }
    Ok(Request::Options(options))
}

/// Reads the arguments after the program's name.
pub fn read_request(alloc: Global, words: Vec<String>) -> Result<Request, Mistake> {
    let mut options = Options {
        headers: false,
        details: false,
        functions: false,
        contents: false,
        section: None,
        census: false,
        function: Functions::All,
        features: WasmFeatures::all(),
        files: Vec::new(alloc),
        is_without_file: false,
    };
    for argument in read_arguments(alloc, &CHOICES, words)? {
        match argument {
            Argument::Help => return Ok(Request::Help),
            Argument::Version => return Ok(Request::Version),
            Argument::File(path) => add(&mut options.files, path)?,
            Argument::Option(index) => set_option(alloc, &mut options, index)?,
            Argument::Value(index, word) => set_value(alloc, &mut options, index, word)?,
        }
    }
    finished(alloc, options)
}
