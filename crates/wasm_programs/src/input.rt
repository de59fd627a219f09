use crate::mistake::{Mistake, add};
use std::env::Env;
use std::io::Read;
use std::rt::Files;
use std::{env, fs, io};

/// Returns the arguments after the program's name.
pub fn words_of<R: Env + AllocGlobal>(rt: &R) -> Result<Vec<String>, Mistake> {
    let mut args = match env::args(rt) {
        Ok(args) => args,
        Err(error) => {
            return match error.kind() {
                io::ErrorKind::OutOfMemory => Err(Mistake::Memory),
                _ => Err(Mistake::NotText),
            };
        }
    };
    let _program = args.next();
    let mut words = Vec::new(rt.alloc());
    for word in args {
        add(&mut words, word)?;
    }
    Ok(words)
}

/// Reads a file, or standard input if the path is `-`.
pub fn read_module<R: Files + Input + AllocGlobal>(rt: &R, path: &str) -> io::Result<Vec<u8>> {
    if path != "-" {
        return fs::read(rt, path);
    }
    let mut input = Vec::new(rt.alloc());
    rt.reader().read_to_end(&mut input)?;
    Ok(input)
}
