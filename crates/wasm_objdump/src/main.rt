//! Lists the sections of WebAssembly modules, shows their contents and disassembles their functions
//! in the form of `wasm-objdump` of wabt, or counts their operators by proposal.
//!
//! The main theorems are the contracts of `run` and `list_headers` of `wasm_disassembly`, of
//! `list_details` of `wasm_details` and of `list_contents` of `wasm_rows`, which hold for any writer.
#![tactic(auto)]

mod arguments;
mod output;
mod printed;

use crate::arguments::{Functions as Wanted, Options, Request, read_request};
use crate::output::Watched;
use crate::printed::{PROGRAM, Printed};
use std::io;
use std::io::{BufWriter, IsTerminal, Write};
use std::process::ExitCode;
use wasm_constant_texts::ListedConstant;
use wasm_details::list_details;
use wasm_disassembly::{
    Fault, ModuleRequest, before_cut, find_cut, function_named, list_headers, run,
};
use wasm_module::{Functions, ModuleFault};
use wasm_programs::{
    Mistake, complain_input, complain_memory, complain_mistake, complain_output, print_text,
    read_module, shown_path, words_of,
};
use wasm_rows::{has_section, list_contents};

const HELP: &str = "Usage: wasm_objdump [OPTION].. [FILE]..

Lists the sections of WebAssembly modules, shows their contents and disassembles their functions.
Reads standard input for a FILE that is `-`, and if no FILE is given, unless it is a terminal.

  -h, --headers        list the sections
  -x, --details        show the contents of the sections
  -d, --disassemble    disassemble the functions; the default without -h, -x and -s
  -s, --full-contents  show the bytes of the sections
  -j, --section NAME   for -x and -s: only sections with this name, such as code, or the name of a
                       custom section; upper or lower case
      --census         count the operators by proposal, in place of -h, -x, -d and -s
      --function F     only the function with index F, such as 3 or 0x3, or with the name F
      --features WORD  all (the default), none, or names separated by commas: multi_memory,
                       memory64, call_indirect_overlong, legacy_exceptions,
                       acquire_release_atomics, multibyte_array_access
      --help           print this text
      --version        print the version
      --               treat the other arguments as files

The exit status is 0 if all is written, and 1 if a module or a function has an error, or if a module
does not define function F or has no section NAME. It is 2 if an argument is wrong, and 3 if input,
output or allocation fails. For several files it is the largest. It is 141 if the output is a closed
pipe.
";

const VERSION: &str = "wasm_objdump 0.1.0, follows wasmparser 0.263.0\n";

/// The capacity of the output buffer in bytes.
const WRITTEN: usize = 0x1_0000;

/// Standard output, with a buffer.
type Output<'a> = Watched<BufWriter<io::Printer<'a, HostRuntime>>>;

/// Returns the index of the requested function, if one is requested.
///
/// Fails with the exit status, after a message, if no function has the requested name.
fn chosen_index(
    rt: &HostRuntime,
    options: &Options,
    printed: &mut Printed<'_>,
    bytes: &[u8],
) -> Result<Option<u32>, u8> {
    let name = match &options.function {
        Wanted::All => return Ok(None),
        Wanted::Index(index) => return Ok(Some(*index)),
        Wanted::Name(name) => name,
    };
    let part = before_cut(find_cut(options.features, bytes), bytes);
    let functions = match Functions::new(rt.alloc(), options.features, part) {
        Ok(functions) => functions,
        Err(fault) => return Err(printed.fault(Fault::Module(fault))),
    };
    match function_named(rt.alloc(), &functions, name.as_str()) {
        Ok(Some(index)) => match u32::try_from(index) {
            Ok(index) => Ok(Some(index)),
            Err(_) => Err(printed.no_name(name.as_str())),
        },
        Ok(None) => Err(printed.no_name(name.as_str())),
        Err(_) => Err(printed.fault(Fault::Memory)),
    }
}

/// Writes the functions or the operator counts of a module. Returns the exit status.
fn dump_functions(
    rt: &HostRuntime,
    options: &Options,
    title: Option<&str>,
    bytes: &[u8],
    writer: &mut Output<'_>,
    printed: &mut Printed<'_>,
) -> u8 {
    let function = match chosen_index(rt, options, printed, bytes) {
        Ok(function) => function,
        Err(status) => return status,
    };
    let requested = ModuleRequest {
        census: options.census,
        function,
        features: options.features,
    };
    match run(rt.alloc(), requested, title, bytes, writer, printed) {
        Ok(true) => 0,
        Ok(false) => 1,
        Err(fault) => {
            let _ = writer.flush();
            printed.fault(fault)
        }
    }
}

/// Returns the result of a listing that is the result of one by `wasm_rows` or `wasm_details`.
fn listed_of(listed: Result<Result<(), wasm_rows::Fault>, ModuleFault>) -> Result<(), Fault> {
    match listed {
        Ok(Ok(())) => Ok(()),
        Ok(Err(wasm_rows::Fault::Section(e))) => Err(Fault::Section(e)),
        Ok(Err(wasm_rows::Fault::Writing)) => Err(Fault::Writing),
        Ok(Err(wasm_rows::Fault::Memory)) => Err(Fault::Memory),
        Err(fault) => Err(Fault::Module(fault)),
    }
}

/// Prints why the sections are not listed or shown completely. Returns the exit status; as an error
/// if no other listing follows.
fn section_status(
    listed: Result<(), Fault>,
    writer: &mut Output<'_>,
    printed: &mut Printed<'_>,
) -> Result<u8, u8> {
    let Err(fault) = listed else {
        return Ok(0);
    };
    let _ = writer.flush();
    let status = printed.fault(fault);
    match fault {
        Fault::Section(_) => Ok(status),
        _ => Err(status),
    }
}

/// Returns the name of the only section that is shown, if one is requested.
fn requested_section(options: &Options) -> Option<&str> {
    match &options.section {
        Some(name) => Some(name.as_str()),
        None => None,
    }
}

/// Returns the exit status of a module whose sections are listed, after a message if it has none with
/// the requested name.
fn found_status(options: &Options, bytes: &[u8], printed: &Printed<'_>) -> u8 {
    let Some(name) = requested_section(options) else {
        return 0;
    };
    match has_section(options.features, name, bytes) {
        Ok(false) => printed.no_section(name),
        _ => 0,
    }
}

/// Writes the bytes of the sections, if they are requested. Returns the exit status.
fn dump_contents(
    rt: &HostRuntime,
    options: &Options,
    title: Option<&str>,
    bytes: &[u8],
    writer: &mut Output<'_>,
    printed: &mut Printed<'_>,
) -> u8 {
    if !options.contents {
        return 0;
    }
    let asked = requested_section(options);
    let listed = list_contents(rt.alloc(), options.features, title, asked, bytes, writer);
    match section_status(listed_of(listed), writer, printed) {
        Ok(status) => status,
        Err(status) => status,
    }
}

/// Writes the sections and their contents, as requested. Returns the exit status, as an error if no
/// other listing follows, and the title if it is not written.
fn dump_sections<'a>(
    rt: &HostRuntime,
    options: &Options,
    title: Option<&'a str>,
    bytes: &[u8],
    writer: &mut Output<'_>,
    printed: &mut Printed<'_>,
) -> Result<(u8, Option<&'a str>), u8> {
    let mut untold = title;
    let mut status: u8 = 0;
    if options.headers {
        let listed = list_headers(rt.alloc(), options.features, untold, bytes, writer);
        status = section_status(listed, writer, printed)?;
        untold = None;
    }
    if options.details {
        let listed = list_details::<_, ListedConstant<'_>>(
            rt.alloc(),
            options.features,
            untold,
            requested_section(options),
            bytes,
            writer,
        );
        status = status.max(section_status(listed_of(listed), writer, printed)?);
        untold = None;
    }
    Ok((status, untold))
}

/// Writes the listings of a module that are requested, and returns the exit status.
fn dump_listings(
    rt: &HostRuntime,
    options: &Options,
    title: Option<&str>,
    bytes: &[u8],
    writer: &mut Output<'_>,
    printed: &mut Printed<'_>,
) -> u8 {
    let (mut status, mut untold) = match dump_sections(rt, options, title, bytes, writer, printed) {
        Ok(dumped) => dumped,
        Err(status) => return status,
    };
    if options.functions {
        status = status.max(dump_functions(rt, options, untold, bytes, writer, printed));
        untold = None;
    }
    status = status.max(dump_contents(rt, options, untold, bytes, writer, printed));
    if status == 0 && (options.headers || options.details || options.contents) {
        status = found_status(options, bytes, printed);
    }
    status
}

/// Writes what is requested of a module, and returns the exit status. `shown` is its path as shown in
/// messages.
fn dump_module(
    rt: &HostRuntime,
    options: &Options,
    shown: &str,
    bytes: &[u8],
    writer: &mut Output<'_>,
) -> u8 {
    let mut printed = Printed::new(rt, shown);
    let title = match shown.rsplit_once('/') {
        Some((_, name)) => Some(name),
        None => Some(shown),
    };
    if options.census {
        return dump_functions(rt, options, title, bytes, writer, &mut printed);
    }
    dump_listings(rt, options, title, bytes, writer, &mut printed)
}

/// Writes what is requested of the module in a file, and returns the exit status.
fn dump_file(rt: &HostRuntime, options: &Options, path: &str, writer: &mut Output<'_>) -> u8 {
    let Ok(shown) = shown_path(rt.alloc(), path) else {
        let _ = writer.flush();
        return complain_memory(rt, PROGRAM);
    };
    match read_module(rt, path) {
        Ok(bytes) => dump_module(rt, options, shown.as_str(), bytes.as_slice(), writer),
        Err(error) => {
            let _ = writer.flush();
            complain_input(rt, PROGRAM, shown.as_str(), error)
        }
    }
}

/// Writes what the options request of all files, until standard output fails. Returns the largest
/// exit status.
fn dump_files(rt: &HostRuntime, options: &Options, writer: &mut Output<'_>) -> u8 {
    let mut worst: u8 = 0;
    for path in &options.files {
        worst = worst.max(dump_file(rt, options, path.as_str(), writer));
        if writer.failure().is_some() {
            return worst;
        }
    }
    let _ = writer.flush();
    worst
}

/// Writes what is requested, and returns the exit status.
fn dump(rt: &HostRuntime, options: &Options) -> u8 {
    let Ok(buffered) = BufWriter::with_capacity(rt.alloc(), WRITTEN, io::writer(rt)) else {
        return complain_memory(rt, PROGRAM);
    };
    let mut writer = Watched::new(buffered);
    let status = dump_files(rt, options, &mut writer);
    match writer.failure() {
        Some(error) => complain_output(rt, PROGRAM, error),
        None => status,
    }
}

/// Reads the arguments. Without a file, standard input may not be a terminal.
fn request_of(rt: &HostRuntime) -> Result<Request, Mistake> {
    let words = words_of(rt)?;
    match read_request(rt.alloc(), words)? {
        Request::Options(options) if options.is_without_file && rt.stdin().is_terminal() => {
            Err(Mistake::NoFile)
        }
        request => Ok(request),
    }
}

fn main(rt: HostRuntime) -> ExitCode {
    ExitCode::from(match &request_of(&rt) {
        Ok(Request::Help) => print_text(&rt, PROGRAM, HELP),
        Ok(Request::Version) => print_text(&rt, PROGRAM, VERSION),
        Ok(Request::Options(options)) => dump(&rt, options),
        Err(mistake) => complain_mistake(&rt, PROGRAM, mistake, HELP),
    })
}
