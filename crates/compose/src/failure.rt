//! Why no turn file is written.
ghost use Rattle.std.specs.Prelude.{◌≡◌};
ghost use Rattle.compose.specs.Failing.{unreadable, refused, system, IsOutOfMemory, failure_text};

use crate::unreadable::Unreadable;
use std::alloc::{AllocError, AllocFailed};
use std::{fmt, io};
use turn_file::fault::FileFault;

#[derive(Debug, Drop)]
pub(crate) enum Failure {
    Unreadable(Unreadable),
    Refused(FileFault),
    System(io::Error),
}

impl fmt::Display for Failure {
    ghost output = { failure_text };

    fn fmt<W: fmt::Write>(&self, f: &mut fmt::Formatter<W>) -> fmt::Result {
        match self {
            Failure::Unreadable(unreadable) => write!(f, "{unreadable}"),
            Failure::Refused(fault) => write!(f, "{fault}"),
            Failure::System(error) => write!(f, "{error}"),
        }
    }
}

impl From<Unreadable> for Failure {
    ghost from_gives = { λ u f. f ≡ unreadable u };

    fn from(unreadable: Unreadable) -> Failure {
        Failure::Unreadable(unreadable)
    }
}

impl From<FileFault> for Failure {
    ghost from_gives = { λ e f. f ≡ refused e };

    fn from(fault: FileFault) -> Failure {
        Failure::Refused(fault)
    }
}

impl From<io::Error> for Failure {
    ghost from_gives = { λ e f. f ≡ system e };

    fn from(error: io::Error) -> Failure {
        Failure::System(error)
    }
}

// No memory for bytes: what `resize` may answer.
impl From<AllocError> for Failure {
    ghost from_gives = { λ _ f. IsOutOfMemory f };

    fn from(error: AllocError) -> Failure {
        Failure::System(error.into())
    }
}

// No memory for a further entry.
impl From<AllocFailed<u8>> for Failure {
    ghost from_gives = { λ _ f. IsOutOfMemory f };

    fn from(entry: AllocFailed<u8>) -> Failure {
        Failure::System(entry.into())
    }
}
