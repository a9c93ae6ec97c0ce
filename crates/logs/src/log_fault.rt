// Why a list of calls was not run to its end.
ghost use Rattle.std.specs.Prelude.{◌≡◌, Some};
ghost use Rattle.logs.specs.declared.log_fault.LogFault.TheVariants.{Refused, Memory};
ghost use Rattle.logs.specs.Faults.{fault_said};

use bus::refusal::Refusal;
use std::alloc::AllocError;
use std::error::Error;
use std::fmt;

#[derive(Clone, Copy, PartialEq, Eq, Debug)]
pub enum LogFault {
    // the making of the board was refused
    Refused(Refusal),
    // memory was wanting for the answers, or for the rows of a list or a check
    Memory,
}

impl From<Refusal> for LogFault {
    ghost from_gives = { λ refusal fault. fault ≡ Refused refusal };

    fn from(refusal: Refusal) -> LogFault {
        LogFault::Refused(refusal)
    }
}

impl From<AllocError> for LogFault {
    ghost from_gives = { λ _ fault. fault ≡ Memory };

    fn from(_: AllocError) -> LogFault {
        LogFault::Memory
    }
}

impl fmt::Display for LogFault {
    ghost output = { λ fault. Some (fault_said fault) };

    fn fmt<W: fmt::Write>(&self, f: &mut fmt::Formatter<W>) -> fmt::Result {
        match self {
            Self::Refused(refusal) => write!(f, "{refusal}"),
            Self::Memory => f.write_str("memory is wanting"),
        }
    }
}

impl Error for LogFault {}
