//! The errors of the ciphers and of sealed streams.

use aegis_core::Error;
use aegis_stream::StreamError;
use std::test::Fail;

#[test]
fn errors_have_their_numbers_and_texts(rt: HostRuntime) -> Result<(), Fail> {
    let errors = [
        (Error::InvalidTag, 1, "invalid tag"),
        (Error::OutputBufferTooSmall, 2, "output buffer too small"),
        (Error::MessageTooLong, 3, "message too long"),
        (Error::OutOfMemory, 4, "out of memory"),
    ];
    for (error, number, text) in errors {
        assert_eq!(rt; error as u8, number);
        assert_eq!(rt; format!(in rt.alloc(); "{error}")?.as_str(), text);
    }
    Ok(())
}

#[test]
fn errors_of_streams_have_their_numbers_and_texts(rt: HostRuntime) -> Result<(), Fail> {
    let errors = [
        (StreamError::Frame, 1, "invalid frame"),
        (StreamError::InvalidTag, 2, "invalid tag"),
        (StreamError::Trailing, 3, "bytes after the end"),
        (StreamError::Finished, 4, "stream is finished"),
        (StreamError::OutOfMemory, 5, "out of memory"),
    ];
    for (error, number, text) in errors {
        assert_eq!(rt; error as u8, number);
        assert_eq!(rt; format!(in rt.alloc(); "{error}")?.as_str(), text);
    }
    Ok(())
}
