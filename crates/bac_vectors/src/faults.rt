//! Why a file of vectors is not run to its end.

use bac_tables::TableFault;
use bac_tag::OutOfMemory;
use std::alloc::AllocError;
use std::io;
use thiserror::Error;

/// Why a file of vectors is not run to its end.
#[derive(Debug, Drop, Error)]
pub enum VectorFault {
    #[error("out of memory")]
    OutOfMemory,
    /// A line is neither a section, nor a front, nor a row, or its octets are none.
    #[error("line {0} is no row")]
    Line(u64),
    #[error(transparent)]
    Io(#[from] io::Error),
}

/// Why a row comes to nothing.
#[derive(Drop)]
pub enum RowFault {
    /// Memory was refused.
    OutOfMemory,
    /// There is a mistake in the row.
    Mistake,
}

impl RowFault {
    /// Returns the fault of the file whose line with this number the row is.
    pub fn at(self, line: u64) -> VectorFault {
        match self {
            RowFault::OutOfMemory => VectorFault::OutOfMemory,
            RowFault::Mistake => VectorFault::Line(line),
        }
    }
}

impl From<OutOfMemory> for RowFault {
    fn from(_error: OutOfMemory) -> RowFault {
        RowFault::OutOfMemory
    }
}

impl From<AllocError> for RowFault {
    fn from(_error: AllocError) -> RowFault {
        RowFault::OutOfMemory
    }
}

impl<'a> From<TableFault<'a>> for RowFault {
    fn from(_error: TableFault<'a>) -> RowFault {
        RowFault::Mistake
    }
}

impl From<AllocError> for VectorFault {
    fn from(_error: AllocError) -> VectorFault {
        VectorFault::OutOfMemory
    }
}
