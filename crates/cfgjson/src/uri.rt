//! URIs of files.

ghost use Rattle.std.specs.Prelude.{◌≡◌, ◌++◌, IfOk, OnOk, string_bytes};
ghost use Rattle.cfgjson.specs.Sarif.{is_kept, uri_byte, uri_of};

use std::alloc::{AllocError, Global};

/// The URI of a file of this name.
pub(crate) fn uri_of(alloc: Global, name: &str) -> Result<String, AllocError>
    ensures { IfOk result (λ uri. string_bytes uri ≡ uri_of name.now) }
{
    let mut uri = String::new(alloc);
    for byte in name.as_bytes() {
        push_byte(&mut uri, *byte)?;
    }
    Ok(uri)
}

/// Writes a byte of a path: as it is, or with its digits in base 16.
#[tactic(auto, unfolding(crate::specs::Sarif::uri_byte))]
fn push_byte(uri: &mut String, byte: u8) -> Result<(), AllocError>
    ensures { OnOk result (string_bytes uri.new ≡ string_bytes uri.old ++ uri_byte byte) }
{
    if is_kept(byte) {
        uri.push(char::from(byte))
    } else {
        write!(uri, "%{byte:02X}")
    }
}

/// Whether a byte of a path is in a URI as it is.
fn is_kept(byte: u8) -> bool
    ensures { result ≡ is_kept byte }
{
    byte.is_ascii_alphanumeric() || matches!(byte, b'-' | b'.' | b'/' | b'_' | b'~')
}
