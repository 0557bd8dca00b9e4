//! The lines of a reader, within a limit on the number of reads.

ghost use Rattle.std.specs.Prelude.{◌≡◌, ◌<◌, ◌≤◌, ◌+◌, ◌*◌, ◌-◌, ◌⊎◌, ◌≢◌, [], Some, All};
ghost use Rattle.std.specs.Prelude.{length, slice_index, take, IfSome, IfNone, IfOk, IsTrue};
ghost use Rattle.std.specs.Io.BufRead.{strip_last};
ghost use Rattle.linkfix.specs.declared.input.InputError.{InputError};
ghost use Rattle.linkfix.specs.declared.input.TheConstants.{BUFFER_LEN, MAX_READS};

use std::alloc::AllocError;
use std::io::Read;

/// The limit on the number of reads of one input.
pub const MAX_READS: u32 = 1_048_576;

/// The size of the buffer that each read fills, in bytes.
pub const BUFFER_LEN: usize = 4096;

/// An error of `Lines::next_line`.
#[derive(Clone, Copy)]
pub enum InputError {
    /// A read failed, or the input hadn't ended by the last read.
    Read,
    /// Out of memory for the line.
    OutOfMemory,
}

impl From<AllocError> for InputError {
    ghost from_gives = { λ _ error. error ≡ InputError.OutOfMemory };

    fn from(_e: AllocError) -> InputError {
        InputError::OutOfMemory
    }
}

/// A reader whose input is taken line by line.
#[derive(Drop)]
pub struct Lines<R> {
    input: R,
    reads_left: u32,
    has_ended: bool,
    /// The bytes of the last read; `start..end` is in no line yet.
    buffer: [u8; BUFFER_LEN],
    start: usize,
    end: usize,
    ghost ordered: { start ≤ end },
    ghost in_buffer: { end ≤ BUFFER_LEN },
}

impl<R: Read> Lines<R> {
    ghost use Rattle.linkfix.specs.RemainingInput.{IsNextLine, max_remaining, remaining_bytes};

    /// The lines of `input`. Nothing is read yet.
    pub fn new(input: R) -> Lines<R>
        ensures bound { max_remaining result ≡ MAX_READS * BUFFER_LEN }
        ensures known { remaining_bytes (R.remaining result.input) result ≡ R.remaining input }
    {
        Lines {
            input,
            reads_left: MAX_READS,
            has_ended: false,
            buffer: [0; BUFFER_LEN],
            start: 0,
            end: 0,
        }
    }

    /// Replaces `line` by the next line, without its LF and without one CR before the LF. The last
    /// line may lack its LF. Returns `false`, with `line` empty, at the end of the input.
    ///
    /// # Errors
    ///
    /// `Read` if a read fails or the limit of reads is reached; `OutOfMemory` if `line` can't grow.
    pub fn next_line(&mut self, line: &mut Vec<u8>) -> Result<bool, InputError>
        ensures progress { IfOk result (λ found. IsTrue found
            → max_remaining self.new < max_remaining self.old) }
        ensures last { IfOk result (λ found. IsTrue found ⊎ IsTrue self.new.has_ended) }
        ensures next { IfOk result (λ found. IsNextLine
            (remaining_bytes (R.remaining self.old.input) self.old)
            (remaining_bytes (R.remaining self.new.input) self.new) line.new.items found) }
    {
        line.clear();
        loop {
            let buffered = &self.buffer[self.start..self.end];
            if let Some(at) = line_end(buffered) {
                line.extend_from_slice(&buffered[..at])?;
                self.start += at + 1;
                strip_carriage_return(line);
                return Ok(true);
            }
            line.extend_from_slice(buffered)?;
            self.start = self.end;
            if !self.refill()? {
                return Ok(!line.is_empty());
            }
        }
    }

    /// Fills the empty buffer by one read. Returns `false` at the end of the input.
    fn refill(&mut self) -> Result<bool, InputError>
        requires { self.old.start ≡ self.old.end }
        ensures reads { IfOk result (λ more. IsTrue more
            → self.new.reads_left < self.old.reads_left) }
        ensures bound { IfOk result (λ more. max_remaining self.new ≤ max_remaining self.old) }
        ensures last { IfOk result (λ more. IsTrue more ⊎ IsTrue self.new.has_ended) }
        ensures kept { IfOk result (λ more.
            IfSome (remaining_bytes (R.remaining self.old.input) self.old) (λ bytes.
            (remaining_bytes (R.remaining self.new.input) self.new ≡ Some bytes)
            × (IsTrue more ⊎ (bytes ≡ [])))) }
    {
        if self.has_ended {
            return Ok(false);
        }
        if self.reads_left == 0 {
            return Err(InputError::Read);
        }
        self.reads_left -= 1;
        match self.input.read(&mut self.buffer) {
            Ok(count) => {
                self.start = 0;
                self.end = count;
                self.has_ended = count == 0;
                Ok(count > 0)
            }
            Err(_) => Err(InputError::Read),
        }
    }
}

/// The index of the first LF.
fn line_end(bytes: &[u8]) -> Option<usize>
    ensures some { IfSome result (λ i. (i < length bytes.now) × (slice_index bytes.now i ≡ 10)
        × All (λ byte. byte ≢ 10) (take i bytes.now)) }
    ensures none { IfNone result (All (λ byte. byte ≢ 10) bytes.now) }
{
    bytes.iter().position(|byte| *byte == b'\n')
}

/// Removes one CR from the end.
fn strip_carriage_return(line: &mut Vec<u8>)
    ensures { line.new.items ≡ strip_last 13 line.old.items }
{
    if line.last() == Some(&b'\r') {
        line.pop();
    }
}
