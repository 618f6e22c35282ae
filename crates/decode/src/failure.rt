// Why the program ends with status 1.
use std::alloc::AllocError;
use std::io;
use thiserror::Error;

// It is no anyhow::Error, which would cut a long argument short.
#[derive(Debug, Drop, Error)]
pub enum Failure {
    #[error("unknown argument '{0}' (see --help)")]
    Argument(String),
    #[error("lines that are no hex text: {0}")]
    Lines(u64),
    #[error("cannot read or write: {0}")]
    Stream(#[from] io::Error),
    #[error("out of memory")]
    Memory(#[from] AllocError),
}
