// Reading the table image from standard input.
ghost use Rattle.std.specs.Prelude.{◌≡◌, ◌≢◌, ◌≤◌, ◌<◌, ℕ, IfOk, IfErr, IfSome, OnOk, OnErr, length, take};
ghost use Rattle.std.specs.IoError.{error_kind};
ghost use Rattle.std.proofs.Math.Logic.{◌⊎◌};
ghost use Rattle.std.specs.Io.KnownBytes.{Consumes, IsAtEnd, ReadConsumes};
ghost use Rattle.std.specs.Io.{ReadsAtMost};

use std::io;
use std::io::{ErrorKind, Read};

// Room for the longest table image and one byte more, so that a longer input is seen to be too long.
pub fn space() -> [u8; 11_777]
    ensures { 11777 ≡ length result }
{
    [0; 11_777]
}

// Reads what is left of the input, which is too long to be a table, so that whoever writes it can finish.
fn drain<R: Read>(input: &mut R) -> io::Result<()>
    ensures { OnOk result (IsAtEnd (R.remaining input.new)) }
{
    io::copy(input, &mut io::sink())?;
    Ok(())
}

// One read, tried again where a signal interrupts it, up to 2^64 - 1 times.
fn read_some<R: Read>(input: &mut R, space: &mut [u8]) -> io::Result<usize>
    ensures length_in_bounds { ReadsAtMost result space.new }
    ensures bytes { ReadConsumes (R.remaining input.old) (R.remaining input.new) result space.new }
    ensures retried { IfErr result (λ e. error_kind e ≢ ErrorKind.Interrupted) }
{
    for _ in 0..u64::MAX {
        match input.read(space) {
            Ok(length) => return Ok(length),
            Err(error) => {
                if error.kind() != ErrorKind::Interrupted {
                    return Err(error);
                }
            }
        }
    }
    Err(io::Error::from(ErrorKind::TimedOut))
}

// Reads until the space is full or the input ends, and answers how many bytes there are. An error leaves the bytes of the reads
// before it at the start of the space, and their number is lost. How many bytes a read gives is known only then, so it is a `while`.
pub fn read_full<R: Read>(input: &mut R, space: &mut [u8]) -> io::Result<usize>
    ensures length_in_bounds { IfOk result (λ n. n ≤ length space.new) }
    ensures bytes { IfOk result (λ n. Consumes (R.remaining input.old) (R.remaining input.new) (take n space.new)) }
    ensures end { IfOk result (λ n. n < length space.new → IsAtEnd (R.remaining input.new)) }
    ensures err { OnErr result ((n : ℕ) × (n ≤ length space.new) × Consumes (R.remaining input.old) (R.remaining input.new) (take n space.new)) }
    ensures retried { IfErr result (λ e. error_kind e ≢ ErrorKind.Interrupted) }
{
    let mut done = 0;
    while done < space.len() {
        let got = read_some(input, &mut space[done..])?;
        if got == 0 {
            break;
        }
        done += got;
    }
    Ok(done)
}

// Reads the input to its end, in whatever pieces it comes, and answers how many of its bytes stand at the start of the space. An
// error leaves there the bytes of the reads before it, or all that fit, where what is left over could not be read.
pub fn read<R: Read>(input: &mut R, space: &mut [u8]) -> io::Result<usize>
    ensures length_in_bounds { IfOk result (λ n. n ≤ length space.new) }
    ensures bytes { IfOk result (λ n. IfSome (R.remaining input.old) (λ bytes. take n space.new ≡ take (length space.new) bytes)) }
    ensures end { OnOk result (IsAtEnd (R.remaining input.new)) }
    ensures err { OnErr result (((n : ℕ) × (n ≤ length space.new) × Consumes (R.remaining input.old) (R.remaining input.new) (take n space.new)) ⊎ IfSome (R.remaining input.old) (λ bytes. space.new ≡ take (length space.new) bytes)) }
{
    let length = read_full(input, space)?;
    if length == space.len() {
        drain(input)?;
    }
    Ok(length)
}
