use std::fs::File;
use std::io::Write;
use std::path::Path;
use std::{fs, io};

/// Writes a file. The bytes go to a new file `PATH.partial`, which then gets the name of the file.
/// So after an error the file is as it was. A device or a pipe is written directly.
///
/// Fails with `AlreadyExists` if `PATH.partial` exists.
pub fn write_module(rt: &HostRuntime, path: &str, bytes: &[u8]) -> io::Result<()> {
    let place = Path::new(path);
    if place.try_exists(rt)? && !place.is_file(rt) {
        return fs::write(rt, path, bytes);
    }
    let Ok(partial) = format!(in rt.alloc(); "{path}.partial") else {
        return Err(io::Error::from(io::ErrorKind::OutOfMemory));
    };
    let mut file = File::create_new(rt, partial.as_str())?;
    let written = match file.write_all(bytes) {
        Ok(()) => fs::rename(rt, partial.as_str(), path),
        Err(error) => Err(error),
    };
    if written.is_err() {
        let _ = fs::remove_file(rt, partial.as_str());
    }
    written
}
