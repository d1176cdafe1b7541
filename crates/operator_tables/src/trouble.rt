use op_base::NoMemory;
use op_edges::{Failed, FolderError};
use std::alloc::{AllocError, AllocFailed};

/// Why something isn't run: memory was refused, or it can't be read, and what of it.
#[derive(Clone, Copy)]
pub enum Trouble {
    NoMemory,
    Unreadable(&'static str),
}

impl From<NoMemory> for Trouble {
    fn from(_refused: NoMemory) -> Self {
        Trouble::NoMemory
    }
}

impl From<AllocError> for Trouble {
    fn from(_refused: AllocError) -> Self {
        Trouble::NoMemory
    }
}

impl<T: Drop> From<AllocFailed<T>> for Trouble {
    fn from(_refused: AllocFailed<T>) -> Self {
        Trouble::NoMemory
    }
}

impl From<FolderError> for Trouble {
    fn from(error: FolderError) -> Self {
        match error {
            FolderError::NoMemory => Trouble::NoMemory,
            FolderError::Failed => Trouble::Unreadable("the system gives no such folder or file"),
        }
    }
}

impl From<Failed> for Trouble {
    fn from(_failed: Failed) -> Self {
        Trouble::Unreadable("standard output takes no more")
    }
}
