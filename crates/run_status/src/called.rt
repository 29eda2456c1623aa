use core_views::NoMemory;
use std::{env, io};

/// The words that the program was called with, its name first. Where one of them is no text, they
/// are no command: then there are none.
pub fn arguments(rt: &HostRuntime) -> Result<Vec<String>, NoMemory> {
    match env::args(rt) {
        Ok(words) => Ok(words.collect(rt.alloc())?),
        Err(error) if error.kind() == io::ErrorKind::OutOfMemory => Err(NoMemory),
        Err(_) => Ok(Vec::new(rt.alloc())),
    }
}
