// A writer with a buffer of fixed memory before it: that of the library's `BufWriter` is on the heap.
ghost use Rattle.std.specs.Prelude.{◌≡◌, ◌+◌, [], length, IfOk, OnOk};
ghost use Rattle.std.specs.Io.KnownBytes.{Appends, Keeps};

use arrayvec::ArrayVec;
use std::io::{self, ErrorKind, Write};

// Gathers what it is given, and sends it on to the inner writer whenever the buffer is full.
#[derive(Drop)]
pub struct Buffered<W, const N: usize> {
    inner: W,
    bytes: ArrayVec<u8, N>,
}

impl<W: Write, const N: usize> Buffered<W, N> {
    ghost use Rattle.plan.specs.Buffers.{held, written};

    pub fn new(inner: W) -> Self
        ensures { Keeps (W.contents inner) (written W.contents result) }
    {
        Buffered {
            inner,
            bytes: ArrayVec::new(),
        }
    }

    // One write of what the buffer holds. What the inner writer did not take moves to the front.
    fn send(&mut self) -> io::Result<usize>
        ensures bytes { Keeps (written W.contents self.old) (written W.contents self.new) }
        ensures fewer { IfOk result (λ n. length (held self.new) + n ≡ length (held self.old)) }
    {
        let sent = self.inner.write(&self.bytes)?;
        self.bytes.drain(..sent);
        Ok(sent)
    }

    // Sends on all that the buffer holds. What is left after an error only `write` and `flush` must say, so here the
    // inner writer's `write_all` does it, which also tries an interrupted write again.
    fn send_all(&mut self) -> io::Result<()>
        ensures bytes { OnOk result (Keeps (written W.contents self.old) (W.contents self.new.inner)) }
        ensures empty { OnOk result (held self.new ≡ []) }
    {
        self.inner.write_all(&self.bytes)?;
        self.bytes.clear();
        Ok(())
    }

    // What has no room. Apart, so that the test for room is inlined.
    #[cold]
    #[inline(never)]
    fn write_on(&mut self, buf: &[u8]) -> io::Result<()>
        ensures { OnOk result (Appends (written W.contents self.old) (written W.contents self.new) buf.now) }
    {
        self.send_all()?;
        if N < buf.len() {
            return self.inner.write_all(buf);
        }
        self.bytes.write_all(buf)
    }

    // After the last line: nothing stays in the buffer.
    pub fn finish(&mut self) -> io::Result<()>
        ensures { OnOk result (Keeps (written W.contents self.old) (W.contents self.new.inner)) }
    {
        self.send_all()?;
        self.inner.flush()
    }
}

impl<W: Write, const N: usize> Write for Buffered<W, N> {
    ghost use Rattle.plan.specs.Buffers.{held, written};

    ghost contents = { written W.contents };

    fn write(&mut self, buf: &[u8]) -> io::Result<usize> {
        if self.bytes.is_full() {
            self.send()?;
        }
        self.bytes.write(buf)
    }

    fn flush(&mut self) -> io::Result<()>
        ensures bytes { Keeps (written W.contents self.old) (written W.contents self.new) }
        ensures ok { OnOk result (held self.new ≡ []) }
    {
        // By hand: the library's loop, `write_all`, does not say what is left after an error.
        while !self.bytes.is_empty() {
            if self.send()? == 0 {
                return Err(ErrorKind::WriteZero.into());
            }
        }
        self.inner.flush()
    }

    #[inline(always)]
    fn write_all(&mut self, buf: &[u8]) -> io::Result<()> {
        if self.bytes.try_extend_from_slice(buf).is_err() {
            return self.write_on(buf);
        }
        Ok(())
    }
}
