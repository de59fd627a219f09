use crate::mistake::Mistake;
use std::alloc::{AllocError, Global};
use std::io;
use wasm_escapes::write_escaped;

/// The exit status if a module has an error.
pub const REFUSED: u8 = 1;

/// The exit status if an argument is wrong.
pub const USAGE: u8 = 2;

/// The exit status if input, output or allocation fails.
pub const OUTSIDE: u8 = 3;

/// The exit status of a program that SIGPIPE ends, in shells.
pub const CLOSED_PIPE: u8 = 141;

/// Returns a text as shown in messages: ASCII control characters are escaped.
pub fn shown_text(alloc: Global, text: &str) -> Result<String, AllocError> {
    let mut shown = String::new(alloc);
    write_escaped(alloc, &mut shown, text.as_bytes())?;
    Ok(shown)
}

/// Returns the path of a module as shown in messages: `<stdin>` for `-`, otherwise with escaped control
/// characters.
pub fn shown_path(alloc: Global, path: &str) -> Result<String, AllocError> {
    shown_text(alloc, if path == "-" { "<stdin>" } else { path })
}

/// Returns an error's text without its number.
fn without_number(text: &str) -> &str {
    match text.split_once(" (os error ") {
        Some((reason, _)) => reason,
        None => text,
    }
}

/// Returns the message that `what` could not be read or written.
fn input_message(alloc: Global, what: &str, error: io::Error) -> Result<String, AllocError> {
    let text = error.to_string(alloc)?;
    let reason = without_number(text.as_str());
    let message = format!(in alloc; "{what}: {reason}")?;
    shown_text(alloc, message.as_str())
}

/// Prints why `what`, such as a path, could not be read or written, and returns the exit status.
/// Control characters are escaped. `program` is the program's name.
pub fn complain_input(rt: &HostRuntime, program: &str, what: &str, error: io::Error) -> u8 {
    let _ = match input_message(rt.alloc(), what, error) {
        Ok(message) => eprintln!(rt; "{program}: {message}"),
        Err(_) => eprintln!(rt; "{program}: {error}"),
    };
    OUTSIDE
}

/// Prints why standard output failed, unless it is a closed pipe. Returns the exit status.
pub fn complain_output(rt: &HostRuntime, program: &str, error: io::Error) -> u8 {
    if error.kind() == io::ErrorKind::BrokenPipe {
        return CLOSED_PIPE;
    }
    complain_input(rt, program, "cannot write output", error)
}

/// Prints a text on standard output, and returns the exit status.
pub fn print_text(rt: &HostRuntime, program: &str, text: &str) -> u8 {
    match print!(rt; "{text}") {
        Ok(()) => 0,
        Err(error) => complain_output(rt, program, error),
    }
}

/// Prints that allocation failed, and returns the exit status.
pub fn complain_memory(rt: &HostRuntime, program: &str) -> u8 {
    let _ = eprintln!(rt; "{program}: {}", Mistake::Memory);
    OUTSIDE
}

/// Returns the message about a mistake.
fn mistake_message(alloc: Global, mistake: &Mistake) -> Result<String, AllocError> {
    let text = format!(in alloc; "{mistake}")?;
    shown_text(alloc, text.as_str())
}

/// Prints the first line of a help text on standard error.
fn print_usage(rt: &HostRuntime, help: &str) {
    let usage = match help.split_once('\n') {
        Some((line, _)) => line,
        None => help,
    };
    let _ = eprintln!(rt; "{usage}");
}

/// Prints why the arguments are wrong, with escaped control characters, and returns the exit status. If
/// no file is named, the first line of `help` follows: how the program is called.
pub fn complain_mistake(rt: &HostRuntime, program: &str, mistake: &Mistake, help: &str) -> u8 {
    if let Mistake::Memory = mistake {
        return complain_memory(rt, program);
    }
    match mistake_message(rt.alloc(), mistake) {
        Ok(message) => {
            let _ = eprintln!(rt; "{program}: {message}");
            if let Mistake::NoFile = mistake {
                print_usage(rt, help);
            }
            USAGE
        }
        Err(_) => complain_memory(rt, program),
    }
}
