//! The standard streams as a source and as sinks. They tell what their reader and writer tell, and the standard streams
//! tell nothing.
ghost use Rattle.std.specs.Prelude.{◌≡◌, false, Some, [], IfSome, if◌then◌else◌};
ghost use Rattle.std.proofs.Common.{refl, sym, subst};

use bb_outside::{Sink, SinkFailed, Source, SourceFailed};
use std::io::{Read, Write};

/// Standard input, or another reader, as a source. Once it has ended it is not read again.
#[derive(Drop)]
pub struct StdinSource<R: Read> {
    input: R,
    is_over: bool,
    faults: u64,
}

impl<R: Read> StdinSource<R> {
    /// A source of what is read.
    pub fn new(input: R) -> StdinSource<R>
        ensures left { ⟦<StdinSource<R> as Source>⟧.left result ≡ R.remaining input }
        ensures over { ⟦<StdinSource<R> as Source>⟧.is_over result ≡ false }
        ensures faults { ⟦<StdinSource<R> as Source>⟧.faults result ≡ 0 }
    {
        StdinSource {
            input,
            is_over: false,
            faults: 0,
        }
    }
}

impl<R: Read> Source for StdinSource<R> {
    ghost left = { λ source. if source.is_over then Some [] else R.remaining source.input };

    ghost is_over = { λ source. source.is_over };

    ghost faults = { λ source. source.faults };

    ghost none_left = { λ source over. subst (λ is_over. IfSome (if is_over then Some [] else R.remaining source.input) (λ bytes. bytes ≡ []))
        (sym over) refl };

    fn take(&mut self) -> Result<Option<u8>, SourceFailed> {
        if self.is_over {
            return Ok(None);
        }
        let mut byte = [0u8; 1];
        match self.input.read(&mut byte) {
            Ok(0) => {
                self.is_over = true;
                Ok(None)
            }
            Ok(_) => Ok(Some(byte[0])),
            Err(_) => {
                self.faults = self.faults.saturating_add(1);
                Err(SourceFailed)
            }
        }
    }
}

/// Standard output, or another writer without a buffer, as a sink.
#[derive(Drop)]
pub struct StdoutSink<W: Write> {
    output: W,
    faults: u64,
}

impl<W: Write> StdoutSink<W> {
    /// A sink that writes there.
    pub fn new(output: W) -> StdoutSink<W>
        ensures written { ⟦<StdoutSink<W> as Sink>⟧.written result ≡ W.contents output }
        ensures faults { ⟦<StdoutSink<W> as Sink>⟧.faults result ≡ 0 }
    {
        StdoutSink { output, faults: 0 }
    }
}

impl<W: Write> Sink for StdoutSink<W> {
    ghost written = { λ sink. W.contents sink.output };

    ghost faults = { λ sink. sink.faults };

    fn put(&mut self, piece: &[u8]) -> Result<usize, SinkFailed> {
        if piece.is_empty() {
            return Ok(0);
        }
        match self.output.write(piece) {
            Ok(0) | Err(_) => {
                self.faults = self.faults.saturating_add(1);
                Err(SinkFailed)
            }
            Ok(count) => Ok(count),
        }
    }
}

/// Standard error, or another writer without a buffer, as a sink. It is a type of its own, so that no other stream is
/// taken for it.
#[derive(Drop)]
pub struct StderrSink<W: Write> {
    notes: StdoutSink<W>,
}

impl<W: Write> StderrSink<W> {
    /// A sink that writes there.
    pub fn new(output: W) -> StderrSink<W>
        ensures written { ⟦<StderrSink<W> as Sink>⟧.written result ≡ W.contents output }
        ensures faults { ⟦<StderrSink<W> as Sink>⟧.faults result ≡ 0 }
    {
        StderrSink {
            notes: StdoutSink::new(output),
        }
    }
}

impl<W: Write> Sink for StderrSink<W> {
    ghost written = { λ sink. W.contents sink.notes.output };

    ghost faults = { λ sink. sink.notes.faults };

    fn put(&mut self, piece: &[u8]) -> Result<usize, SinkFailed> {
        self.notes.put(piece)
    }
}

#[cfg(test)]
mod tests {
    use super::*;
    use std::test::Fail;

    #[test]
    fn source_and_sink(rt: HostRuntime) -> Result<(), Fail> {
        let mut source = StdinSource::new(b"A".as_slice());
        assert_eq!(rt; source.take(), Ok(Some(65)));
        assert_eq!(rt; source.take(), Ok(None));
        assert_eq!(rt; source.take(), Ok(None));
        let mut sink = StdoutSink::new(Vec::new(rt.alloc()));
        assert_eq!(rt; sink.put(b""), Ok(0));
        assert_eq!(rt; sink.put(b"AB"), Ok(2));
        assert_eq!(rt; sink.put(b"C"), Ok(1));
        assert_eq!(rt; sink.output.as_slice(), b"ABC".as_slice());
        Ok(())
    }
}
