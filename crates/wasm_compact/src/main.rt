//! Rewrites the code section of a WebAssembly module with the shortest encodings.
//!
//! The main theorem is the contract of `compact` of `wasm_compaction`.
#![tactic(auto)]

mod arguments;
mod files;

use crate::arguments::{Options, Request, read_request};
use crate::files::write_module;
use std::io;
use std::io::Write;
use std::process::ExitCode;
use wasm_compaction::{Choices, CompactionFault, compact};
use wasm_module::CustomSection;
use wasm_operators::BinaryReader;
use wasm_programs::{
    Mistake, OUTSIDE, REFUSED, complain_input, complain_memory, complain_mistake, complain_output,
    print_text, read_module, shown_path, words_of,
};

/// The name of the program, in messages.
const PROGRAM: &str = "wasm_compact";

const HELP: &str = "Usage: wasm_compact [OPTION].. FILE

Rewrites the code section of a WebAssembly module with numbers of the fewest bytes. Everything else
is copied. Reads standard input if FILE is `-`, and writes to standard output without -o.

  -o, --output OUT     write to the file OUT, which may be FILE
      --drop-offsets   drop custom sections that may hold offsets of the code: .debug_*,
                       sourceMappingURL, external_debug_info, build_id, metadata.code.*
      --keep NAME      copy custom sections with the unknown name NAME
      --help           print this text
      --version        print the version
      --               treat the other arguments as files

The custom sections name, producers, target_features, dylink.0 and go.buildid are copied. Others are
errors unless an option drops or keeps them. reloc.* and linking are always errors.

The exit status is 0 if the module is written. It is 1 if the module has an error or can't be
rewritten, 2 if an argument is wrong, and 3 if input, output or allocation fails. It is 141 if the
output is a closed pipe. After a failure, OUT is as it was.
";

const VERSION: &str = "wasm_compact 0.1.0, follows wasmparser 0.263.0\n";

/// Prints which custom section can't be copied, and why.
fn complain_custom(
    rt: &HostRuntime,
    path: &str,
    bytes: &[u8],
    fault: CompactionFault,
    offset: u64,
) {
    let mut reader = BinaryReader::new(bytes, 0);
    let read = match reader.read_bytes(offset as usize) {
        Ok(_) => CustomSection::new(reader),
        Err(e) => Err(e),
    };
    let _ = match read {
        Ok(custom) => match str::from_utf8(custom.name()) {
            Ok(name) => eprintln!(rt; "wasm_compact: {path}: {name:?}: {fault}"),
            Err(_) => eprintln!(rt; "wasm_compact: {path}: {fault}"),
        },
        Err(_) => eprintln!(rt; "wasm_compact: {path}: {fault}"),
    };
}

/// Prints why a module is not rewritten, and returns the exit status.
fn complain_module(rt: &HostRuntime, path: &str, bytes: &[u8], fault: CompactionFault) -> u8 {
    match fault {
        CompactionFault::Custom(_, offset) => {
            complain_custom(rt, path, bytes, fault, offset);
            REFUSED
        }
        CompactionFault::Memory => {
            let _ = eprintln!(rt; "wasm_compact: {path}: {fault}");
            OUTSIDE
        }
        _ => {
            let _ = eprintln!(rt; "wasm_compact: {path}: {fault}");
            REFUSED
        }
    }
}

/// Rewrites the module, and returns the exit status.
fn rewrite(rt: &HostRuntime, options: &Options) -> u8 {
    let path = options.file.as_str();
    let Ok(shown) = shown_path(rt.alloc(), path) else {
        return complain_memory(rt, PROGRAM);
    };
    let shown = shown.as_str();
    let bytes = match read_module(rt, path) {
        Ok(bytes) => bytes,
        Err(error) => return complain_input(rt, PROGRAM, shown, error),
    };
    let choices = Choices {
        drop_offsets: options.drop_offsets,
        keep: options.keep.as_slice(),
    };
    let module = match compact(rt.alloc(), choices, bytes.as_slice()) {
        Ok(module) => module,
        Err(fault) => return complain_module(rt, shown, bytes.as_slice(), fault),
    };
    match &options.output {
        Some(out) => match write_module(rt, out.as_str(), module.as_slice()) {
            Ok(()) => 0,
            Err(error) => complain_input(rt, PROGRAM, out.as_str(), error),
        },
        None => match print_bytes(rt, module.as_slice()) {
            Ok(()) => 0,
            Err(error) => complain_output(rt, PROGRAM, error),
        },
    }
}

/// Prints bytes on standard output.
fn print_bytes(rt: &HostRuntime, bytes: &[u8]) -> io::Result<()> {
    let mut writer = io::writer(rt);
    writer.write_all(bytes)
}

/// Reads the arguments.
fn request_of(rt: &HostRuntime) -> Result<Request, Mistake> {
    let words = words_of(rt)?;
    read_request(rt.alloc(), words)
}

fn main(rt: HostRuntime) -> ExitCode {
    ExitCode::from(match &request_of(&rt) {
        Ok(Request::Help) => print_text(&rt, PROGRAM, HELP),
        Ok(Request::Version) => print_text(&rt, PROGRAM, VERSION),
        Ok(Request::Options(options)) => rewrite(&rt, options),
        Err(mistake) => complain_mistake(&rt, PROGRAM, mistake, HELP),
    })
}
