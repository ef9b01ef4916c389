// Bytes of an input, for the programs that are run on cases.
#![tactic(auto)]

ghost use Rattle.std.specs.Prelude.{◌≡◌, ◌≤◌, IfOk, IfSome, vec_len};
ghost use Rattle.std.specs.Io.{ReadsAtMost};

use std::alloc::Global;
use std::io;
use std::io::Read;

// Reads until the buffer is full or the input ends, and answers how many bytes it has put at the buffer's front. No `read_exact`, which
// does not say how many bytes came before the end, and no `for`, since each turn goes on by what one read gave.
pub fn read_full(input: &mut impl Read, buffer: &mut [u8]) -> io::Result<usize>
    ensures { ReadsAtMost result buffer.new }
{
    let mut done = 0;
    while done < buffer.len() {
        let n = input.read(&mut buffer[done..])?;
        if n == 0 {
            break;
        }
        done += n;
    }
    Ok(done)
}

// The next bytes, as many as the array has, or none where the input ends before.
pub fn read_array<const N: usize>(input: &mut impl Read) -> io::Result<Option<[u8; N]>> {
    let mut bytes = [0u8; N];
    let n = read_full(input, &mut bytes)?;
    Ok(if n == N { Some(bytes) } else { None })
}

// The next n bytes, or none where the input ends before.
pub fn read_vec(alloc: Global, input: &mut impl Read, n: usize) -> io::Result<Option<Vec<u8>>>
    ensures { IfOk result (λ read. IfSome read (λ bytes. vec_len bytes ≡ n)) }
{
    let mut bytes = vec![in alloc; 0u8; n]?;
    let read = read_full(input, &mut bytes)?;
    Ok(if read == n { Some(bytes) } else { None })
}

// The next n bytes, or none where the input ends before, or they are more than so many: of these the first are read, and are gone.
pub fn read_at_most(
    alloc: Global,
    input: &mut impl Read,
    n: usize,
    most: usize,
) -> io::Result<Option<Vec<u8>>>
    ensures { IfOk result (λ read. IfSome read (λ bytes. (vec_len bytes ≡ n) × (n ≤ most))) }
{
    let bytes = read_vec(alloc, input, n.min(most))?;
    Ok(if n <= most { bytes } else { None })
}

// The next byte, or none at the input's end.
pub fn read_byte(input: &mut impl Read) -> io::Result<Option<u8>> {
    let mut byte = [0u8];
    let n = read_full(input, &mut byte)?;
    Ok(if n == 0 { None } else { Some(byte[0]) })
}

#[cfg(test)]
mod tests {
    use super::*;
    use std::test::Fail;

    #[test]
    fn reads_pieces_and_none_behind_the_end(rt: HostRuntime) -> Result<(), Fail> {
        let mut input = b"abcdef".as_slice();
        assert_eq!(rt; read_byte(&mut input)?, Some(b'a'));
        assert_eq!(rt; read_array::<2>(&mut input)?, Some([b'b', b'c']));
        let piece = read_vec(rt.alloc(), &mut input, 2)?;
        assert!(rt; piece.is_some_and(|bytes| bytes.as_slice() == b"de".as_slice()));
        assert_eq!(rt; read_array::<2>(&mut input)?, None);
        assert_eq!(rt; read_byte(&mut input)?, None);
        assert!(rt; read_vec(rt.alloc(), &mut input, 1)?.is_none());
        Ok(())
    }

    #[test]
    fn reads_the_first_of_too_many(rt: HostRuntime) -> Result<(), Fail> {
        let mut input = b"abcdef".as_slice();
        let piece = read_at_most(rt.alloc(), &mut input, 2, 2)?;
        assert!(rt; piece.is_some_and(|bytes| bytes.as_slice() == b"ab".as_slice()));
        assert!(rt; read_at_most(rt.alloc(), &mut input, 3, 2)?.is_none());
        assert_eq!(rt; read_byte(&mut input)?, Some(b'e'));
        assert!(rt; read_at_most(rt.alloc(), &mut input, 2, 2)?.is_none());
        Ok(())
    }
}
