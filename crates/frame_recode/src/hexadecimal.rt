//! Bytes as hexadecimal text with lower-case letters, two digits a byte, and back.

ghost use Rattle.std.specs.Prelude.{◌≡◌, ◌≢◌, Some, None, IfOk, IfErr, OnOk};
ghost use Rattle.std.specs.List.{list_any};
ghost use Rattle.hex.specs.Hex.{IsBytes, encode_lower};
ghost use Rattle.frame_recode.specs.declared.recode.RecodeError.TheVariants.{Memory};
ghost use Rattle.frame_recode.specs.Hexadecimal.{bytes_in, is_capital};

use crate::recode::RecodeError;
use hex::FromHexError;
use rec_id::Text;
use std::alloc::{AllocError, Global};

/// The hexadecimal text of the bytes.
pub fn text_of(alloc: Global, bytes: &[u8]) -> Result<Text, AllocError>
    ensures text { IfOk result (λ text. text ≡ encode_lower bytes.now) }
    ensures bytes { OnOk result (IsBytes bytes.now) }
{
    Ok(Text::from_vec(hex::encode(alloc, bytes)?.into_bytes()))
}

fn has_capital(line: &[u8]) -> bool
    ensures { result ≡ list_any is_capital line.now }
{
    line.iter().any(|byte| byte.is_ascii_uppercase())
}

/// The bytes that the line is the text of, if it is one and has no capital letter.
pub fn bytes_in(alloc: Global, line: &[u8]) -> Result<Vec<u8>, RecodeError>
    ensures ok { IfOk result (λ bytes. bytes_in line.now ≡ Some bytes.items) }
    ensures bad { IfErr result (λ e. e ≢ Memory → bytes_in line.now ≡ None) }
{
    if has_capital(line) {
        return Err(RecodeError::BadLine);
    }
    let bytes = match hex::decode(alloc, line) {
        Ok(bytes) => bytes,
        Err(FromHexError::OutOfMemory) => return Err(RecodeError::Memory),
        Err(_) => return Err(RecodeError::BadLine),
    };
    Ok(bytes)
}
