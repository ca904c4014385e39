ghost use Rattle.std.specs.Prelude.{◌≡◌, ◌≤◌, ◌<◌, ◌+◌, ◌++◌, Some, Err, length, take, drop, vec_len, option_map, IfOk, OnOk, IfSome, IsSomeAnd};
ghost use Rattle.esql_io.specs.Files.{whole_of};
ghost use Rattle.ndjson_load.specs.Called.{CalledToRead};
ghost use Rattle.ndjson_load.specs.Whole.{IsNext};

use esql_io::Files;
use esql_types::Seq;
use std::alloc::{AllocError, Global};
use thiserror::Error;

/// The most bytes of a file.
pub const MAX_FILE: usize = 268_435_456;

/// The most bytes that one call reads.
const PIECE: usize = 8_192;

/// Why a file was not read whole.
#[derive(Clone, Copy, Debug, Drop, Error)]
pub enum ReadError {
    #[error("a call on the files failed")]
    ReadFault,
    #[error("the file is larger than 268435456 bytes")]
    TooLarge,
    #[error(transparent)]
    Memory(#[from(alloc)] AllocError),
}

/// Reads a file from its first byte to its last; answers `None` exactly where it is not held.
///
/// `ReadFault` comes exactly where a call on the files failed, `TooLarge` exactly where the file has more than 268,435,456
/// bytes, of which one more than that is read.
pub fn read_whole<F: Files>(
    alloc: Global,
    files: &mut F,
    file: &str,
) -> Result<Option<Seq<u8>>, ReadError>
    ensures held { IfOk result (λ bytes. IfSome (F.holds files.old) (λ bytes_of. bytes ≡ bytes_of file.now)) }
    ensures within { IfOk result (λ bytes. IfSome bytes (λ bytes. length bytes ≤ MAX_FILE)) }
    ensures too_large { result ≡ Err ReadError.TooLarge → IfSome (F.holds files.old)
        (λ bytes_of. IsSomeAnd (bytes_of file.now) (λ bytes. MAX_FILE < length bytes)) }
    ensures given_up { result ≡ Err ReadError.TooLarge
        → F.left files.new ≡ option_map (drop (MAX_FILE + 1)) (whole_of (F.holds files.old) file.now) }
    ensures called { CalledToRead F.holds F.faults F.failed (Some file.now) result files.old files.new }
{
    match files.open(file) {
        Ok(true) => match read_rest(alloc, files) {
            Ok(bytes) => Ok(Some(bytes)),
            Err(error) => Err(error),
        },
        Ok(false) => Ok(None),
        Err(_) => Err(ReadError::ReadFault),
    }
}

/// Reads the open file from where it stands to its last byte.
fn read_rest<F: Files>(alloc: Global, files: &mut F) -> Result<Seq<u8>, ReadError>
    ensures all { IfOk result (λ bytes. IfSome (F.left files.old) (λ rest. bytes ≡ rest)) }
    ensures within { IfOk result (λ bytes. length bytes ≤ MAX_FILE) }
    ensures too_large { result ≡ Err ReadError.TooLarge → IfSome (F.left files.old) (λ rest. MAX_FILE < length rest) }
    ensures given_up { result ≡ Err ReadError.TooLarge
        → F.left files.new ≡ option_map (drop (MAX_FILE + 1)) (F.left files.old) }
    ensures called { CalledToRead F.holds F.faults F.failed (F.opened files.old) result files.old files.new }
{
    let mut piece = [0; PIECE];
    let mut bytes = Vec::new(alloc);
    'pieces: while bytes.len() <= MAX_FILE {
        let wanted = PIECE.min(MAX_FILE + 1 - bytes.len());
        let count = read_piece(files, &mut piece[..wanted], &mut bytes)?;
        if count == 0 {
            return Ok(Seq::from_vec(bytes));
        }
    }
    Err(ReadError::TooLarge)
}

/// Reads the next bytes of the open file to the end of those before, and answers how many.
fn read_piece<F: Files>(
    files: &mut F,
    into: &mut [u8],
    bytes: &mut Vec<u8>,
) -> Result<usize, ReadError>
    ensures next { IfOk result (λ count. IfSome (F.left files.old) (λ rest. IsNext rest count (length into.old))) }
    ensures read { IfOk result (λ count. IfSome (F.left files.old)
        (λ rest. bytes.new.items ≡ bytes.old.items ++ take count rest)) }
    ensures len { IfOk result (λ count. vec_len bytes.new ≡ vec_len bytes.old + count) }
    ensures count { IfOk result (λ count. count ≤ length into.old) }
    ensures moved { IfOk result (λ count. F.left files.new ≡ option_map (drop count) (F.left files.old)) }
    ensures opened { OnOk result (F.opened files.new ≡ F.opened files.old) }
    ensures small { result ≡ Err ReadError.TooLarge → ⊥ }
    ensures called { CalledToRead F.holds F.faults F.failed (F.opened files.old) result files.old files.new }
{
    let count = match files.read(into) {
        Ok(count) => count,
        Err(_) => return Err(ReadError::ReadFault),
    };
    let (front, _) = into.split_at(count);
    match bytes.extend_from_slice(front) {
        Ok(()) => Ok(count),
        Err(error) => Err(ReadError::Memory(error)),
    }
}
