//! Messages that say only which one they are: Capabilities-Exchange-Requests without AVPs.
use std::alloc::{AllocError, Global};

/// The octets of a message.
const MESSAGE: usize = 20;

/// Messages one behind the other, each with its Hop-by-Hop Identifier.
pub fn stream_of(alloc: Global, messages: u8) -> Result<Vec<u8>, AllocError> {
    let mut stream = Vec::new(alloc);
    for id in 0..messages {
        let message = [
            1, 0, 0, 20, 128, 0, 1, 1, 0, 0, 0, 0, 0, 0, 0, id, 0, 0, 0, 9,
        ];
        stream.extend_from_slice(&message)?;
    }
    Ok(stream)
}

/// The letter of a message.
pub fn letter_of(message: &[u8]) -> char {
    if message.len() == MESSAGE {
        char::from(b'a' + message[15] % 26)
    } else {
        '?'
    }
}
