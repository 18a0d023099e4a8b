//! What a refusal says, and what it prints, as a line that rows compare.
//! Holds no rows.
use resb_format::{BinaryDeserializerError, ErrorKind, NoMemory};
use std::alloc::{AllocError, Global};
use std::test::Fail;

/// Whether the answer is a refusal of this kind and message.
pub(crate) fn is_refused<T: Drop>(
    answer: Result<T, BinaryDeserializerError>,
    kind: ErrorKind,
    message: &str,
) -> bool {
    match answer {
        Ok(_) => false,
        Err(error) => error.kind() == kind && error.message() == message,
    }
}

/// A kind of refusal, and what one of it with the message `m` prints.
const PRINTED: [(ErrorKind, &str); 5] = [
    (ErrorKind::InvalidData, "Invalid resource bundle data: m"),
    (
        ErrorKind::ResourceTypeMismatch,
        "Resource did not match expected data type: m",
    ),
    (
        ErrorKind::UnsupportedFormat,
        "Unsupported resource bundle format: m",
    ),
    (ErrorKind::Unknown, "Unknown error: m"),
    (ErrorKind::OutOfMemory, "Out of memory: while reading"),
];

fn error_of(kind: ErrorKind) -> BinaryDeserializerError {
    match kind {
        ErrorKind::InvalidData => BinaryDeserializerError::invalid_data("m"),
        ErrorKind::ResourceTypeMismatch => BinaryDeserializerError::resource_type_mismatch("m"),
        ErrorKind::UnsupportedFormat => BinaryDeserializerError::unsupported_format("m"),
        ErrorKind::Unknown => BinaryDeserializerError::unknown("m"),
        ErrorKind::OutOfMemory => BinaryDeserializerError::from(NoMemory),
    }
}

fn prints(alloc: Global, kind: ErrorKind, text: &str) -> Result<bool, AllocError> {
    let error = error_of(kind);
    let printed = format!(in alloc; "{error}")?;
    let wants_memory = kind == ErrorKind::OutOfMemory;
    Ok(printed.as_str() == text && error.is_out_of_memory() == wants_memory)
}

#[test]
fn refusals_print(rt: HostRuntime) -> Result<(), Fail> {
    for (kind, text) in PRINTED {
        let printed = prints(rt.alloc(), kind, text)?;
        assert!(rt; printed, "{text}");
    }
    Ok(())
}
