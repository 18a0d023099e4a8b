//! What comes of a call: whether its answer is right, or memory was wanted.
//! The calls themselves are in `texts` and `files`.

use resb::CompileError;
use resb::binary::{BinarySerializerError, PlanError, PoolMakerError, ReadingError};
use resb::bundle::NoMemory;
use resb::filter::RuleError;
use resb::text::{Expected, IcuExpected, IcuTextError, LimitError, TextParserError};
use std::alloc::AllocError;

/// What comes of a call, the worst last.
#[derive(Clone, Copy, PartialEq, Eq, PartialOrd, Ord)]
pub(crate) enum Outcome {
    /// The answer is that of ample memory.
    Right,
    /// The call answers want of memory.
    Wanted,
    /// Anything else.
    Wrong,
}

/// Why a call is refused, as far as it matters here.
#[derive(Clone, Copy)]
pub(crate) struct Refused {
    is_memory: bool,
}

/// What comes of a call that answered whether it was right, or an error.
pub(crate) fn outcome_of(answer: Result<bool, Refused>) -> Outcome {
    match answer {
        Ok(true) => Outcome::Right,
        Err(refused) if refused.is_memory => Outcome::Wanted,
        _ => Outcome::Wrong,
    }
}

impl From<AllocError> for Refused {
    fn from(_: AllocError) -> Refused {
        Refused { is_memory: true }
    }
}

impl From<NoMemory> for Refused {
    fn from(_: NoMemory) -> Refused {
        Refused { is_memory: true }
    }
}

impl From<TextParserError> for Refused {
    fn from(e: TextParserError) -> Refused {
        Refused {
            is_memory: e.expected() == Expected::Memory,
        }
    }
}

impl From<IcuTextError> for Refused {
    fn from(e: IcuTextError) -> Refused {
        Refused {
            is_memory: e.expected() == IcuExpected::Memory,
        }
    }
}

impl From<LimitError> for Refused {
    fn from(e: LimitError) -> Refused {
        match e {
            LimitError::Text(e) => Refused::from(e),
            LimitError::Larger => Refused { is_memory: false },
        }
    }
}

impl From<BinarySerializerError> for Refused {
    fn from(e: BinarySerializerError) -> Refused {
        Refused {
            is_memory: e.is_out_of_memory(),
        }
    }
}

impl From<PlanError> for Refused {
    fn from(e: PlanError) -> Refused {
        Refused {
            is_memory: e == PlanError::OutOfMemory,
        }
    }
}

impl From<PoolMakerError> for Refused {
    fn from(e: PoolMakerError) -> Refused {
        Refused {
            is_memory: matches!(e, PoolMakerError::OutOfMemory),
        }
    }
}

impl From<RuleError> for Refused {
    fn from(e: RuleError) -> Refused {
        Refused {
            is_memory: matches!(e, RuleError::OutOfMemory),
        }
    }
}

impl<'m> From<ReadingError<'m>> for Refused {
    fn from(e: ReadingError<'m>) -> Refused {
        Refused {
            is_memory: e.is_out_of_memory(),
        }
    }
}

impl From<CompileError> for Refused {
    fn from(e: CompileError) -> Refused {
        Refused {
            is_memory: e.is_out_of_memory(),
        }
    }
}
