//! The words of the command line, out of what the system tells of it.

use std::alloc::{AllocError, Global};
use std::env::Args;
use std::io;

/// The status if memory is wanting before the words are read.
pub const NO_MEMORY: u8 = 9;

// The arguments but the first, which is the program's name.
fn behind_name(alloc: Global, args: Args) -> Result<Vec<String>, AllocError> {
    let mut words = Vec::new(alloc);
    let mut args = args;
    let _name = args.next();
    for word in args {
        words.push(word)?;
    }
    Ok(words)
}

/// The words behind the program's name. If an argument is no text there are none, and no words are no form of a command.
pub fn words_of(alloc: Global, args: io::Result<Args>) -> Result<Vec<String>, AllocError> {
    match args {
        Ok(args) => behind_name(alloc, args),
        Err(error) if error.kind() == io::ErrorKind::OutOfMemory => Err(AllocError),
        Err(_) => Ok(Vec::new(alloc)),
    }
}
