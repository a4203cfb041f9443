//! Reading the front of a file.
ghost use Rattle.std.specs.Prelude.{◌≡◌, ◌<◌, ◌≤◌, length, take, IfSome, IfOk, vec_len, vec_items};
ghost use Rattle.std.specs.Io.KnownBytes.{Consumes, IsAtEnd};

use std::fs::File;
use std::io;
use std::io::{ErrorKind, Read};

/// How much of a file is read.
const MOST_BYTES: usize = 16_384;

/// The first bytes of a file, or `None` where there is no such file.
pub fn read_front(rt: &HostRuntime, path: &str) -> io::Result<Option<Vec<u8>>>
    ensures { IfOk result (λ front. IfSome front (λ bytes. vec_len bytes ≤ 16384)) }
{
    match File::open(rt, path) {
        Ok(mut file) => front_of(rt, &mut file).map(Some),
        Err(e) if e.kind() == ErrorKind::NotFound => Ok(None),
        Err(e) => Err(e),
    }
}

/// What is taken from the reader is what is handed on, and nothing besides, and a shorter front is all that
/// there was; `read_to_end` on a `take` would not promise the first.
fn front_of<R: Read>(rt: &HostRuntime, reader: &mut R) -> io::Result<Vec<u8>>
    ensures few { IfOk result (λ bytes. vec_len bytes ≤ 16384) }
    ensures taken { IfOk result (λ bytes. Consumes (R.remaining reader.old) (R.remaining reader.new) (vec_items bytes)) }
    ensures whole { IfOk result (λ bytes. vec_len bytes < 16384 → IsAtEnd (R.remaining reader.new)) }
{
    let mut bytes = zeros(rt, MOST_BYTES)?;
    let len = fill(reader, &mut bytes)?;
    bytes.truncate(len);
    Ok(bytes)
}

/// A buffer. It stands apart, so that what is said of a front needs its length alone.
fn zeros(rt: &HostRuntime, len: usize) -> io::Result<Vec<u8>>
    ensures { IfOk result (λ bytes. vec_len bytes ≡ len) }
{
    Ok(vec![in rt.alloc(); 0u8; len]?)
}

/// Fills a buffer from its front, until it is full or the reader has no more: how many bytes came.
fn fill<R: Read>(reader: &mut R, buf: &mut [u8]) -> io::Result<usize>
    ensures within { IfOk result (λ n. n ≤ length buf.new) }
    ensures taken { IfOk result (λ n. Consumes (R.remaining reader.old) (R.remaining reader.new) (take n buf.new)) }
    ensures whole { IfOk result (λ n. n < length buf.new → IsAtEnd (R.remaining reader.new)) }
{
    let mut len = 0;
    while len < buf.len() {
        let read = reader.read(&mut buf[len..])?;
        if read == 0 {
            break;
        }
        len += read;
    }
    Ok(len)
}
