//! Requests of transfers.

use dap_messages::Request;
use std::alloc::{AllocError, Global};
use test_words::{RowError, RowWords, access_of};

// A read of a register that is repeated until its value is the word: `dp match 0x0 0x77`.
fn match_of(ap: bool, words: &mut RowWords<'_>) -> Result<Request, RowError> {
    words.word()?;
    words.word()?;
    Ok(Request::value_match(ap, words.number8()?, words.number32()?))
}

/// A request: an access, as `dp read 0x4` or `ap write 0x4 0x20000000`; a value match, `dp match 0x0 0x77`; or the match mask,
/// `mask 0xFF`.
pub fn request_of(words: &mut RowWords<'_>) -> Result<Request, RowError> {
    let mut after = *words;
    if after.takes("mask") {
        *words = after;
        return Ok(Request::match_mask(words.number32()?));
    }
    let ap = after.word()? == "ap";
    if after.takes("match") {
        return match_of(ap, words);
    }
    let access = access_of(words)?;
    Ok(if access.read {
        Request::read(access.ap, access.addr)
    } else {
        Request::write(access.ap, access.addr, access.value)
    })
}

/// The requests of a text, with `;` between them.
pub fn requests_of(alloc: Global, text: &str) -> Result<Vec<Request>, RowError> {
    let mut requests = Vec::new(alloc);
    for item in text.split(";") {
        let mut words = RowWords::new(item);
        requests.push(request_of(&mut words)?)?;
        words.end()?;
    }
    Ok(requests)
}

/// Writes a request: its byte, and its word.
pub fn put_request(text: &mut String, request: Request) -> Result<(), AllocError> {
    let Request { byte, word } = request;
    write!(text, "{byte:02X} {word:#X}")
}

/// Writes requests, with `,` between them.
pub fn put_requests(text: &mut String, requests: &[Request]) -> Result<(), AllocError> {
    for (index, request) in requests.iter().enumerate() {
        if index != 0 {
            text.push_str(", ")?;
        }
        put_request(text, *request)?;
    }
    Ok(())
}
