ghost use Rattle.std.specs.Prelude.{◌≡◌, ◌+◌, ◌<◌, ◌≤◌, ◌↔◌, true, false, length, vec_len, IfOk, IfSome, IsErrOf};
ghost use Rattle.byte_streams.specs.GivenBytes.{HasGiven};

use crate::Source;
use std::alloc::Allocator;
use thiserror::Error;

/// Why a file was not read.
#[derive(Clone, Copy, Debug, PartialEq, Eq, Error)]
pub enum ReadRefused {
    /// Memory was refused.
    #[error("memory")]
    Memory,
    /// A read failed.
    #[error("read")]
    Read,
    /// The file has more bytes than the limit: a byte past it was read.
    #[error("too long")]
    TooLong,
}

/// How many bytes are asked for at a time.
const CHUNK: usize = 65536;

/// Reads to the end, at most `limit` bytes.
///
/// It asks for 65,536 bytes at a time, so up to that many past the limit may have been read. It makes at most `limit` +
/// 2 reads, however few bytes each of them gives. With an error the bytes that were read are dropped, and the source
/// stands behind them.
pub fn read_file<R: Source, A: Allocator>(
    alloc: A,
    reader: &mut R,
    limit: usize,
) -> Result<Vec<u8, A>, ReadRefused>
    requires { R.has_failed reader.old ≡ false }
    ensures whole { IfOk result (λ text. IfSome (R.left reader.old) (λ bytes. text.items ≡ bytes)) }
    ensures fits { IfOk result (λ text. vec_len text ≤ limit) }
    ensures too_long { IsErrOf result ReadRefused.TooLong → IfSome (R.left reader.old) (λ bytes. limit < length bytes) }
    ensures failed { IsErrOf result ReadRefused.Read ↔ (R.has_failed reader.new ≡ true) }
    ensures read_on { HasGiven (R.left reader.old) (R.left reader.new) }
    ensures few_reads { R.reads reader.new ≤ R.reads reader.old + limit + 2 }
{
    let mut text = Vec::new(alloc);
    let mut buffer = [0u8; CHUNK];
    while text.len() <= limit {
        match reader.read_some(&mut buffer) {
            Err(_) => return Err(ReadRefused::Read),
            Ok(0) => return Ok(text),
            Ok(n) => {
                if text.extend_from_slice(&buffer[..n]).is_err() {
                    return Err(ReadRefused::Memory);
                }
            }
        }
    }
    Err(ReadRefused::TooLong)
}
