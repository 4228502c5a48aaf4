//! Sinks that take bytes: the trait `Sink`, and `write_whole`.
ghost use Rattle.std.specs.Prelude.{◌≡◌, ◌≤◌, ◌<◌, length, take, IfOk, IfErr, OnOk, OnErr, []};
ghost use Rattle.ste_io.specs.Outside.{SinkState, WriteFailed, took};

/// The sink failed, and took nothing of the piece.
#[derive(Clone, Copy, PartialEq, Eq)]
pub struct SinkFailed;

/// What takes bytes, as an output does.
pub trait Sink {
    /// What it has taken, known or not, and how often writing has failed.
    ghost state: { Self → SinkState };

    /// Takes the first bytes of a piece, one or more, and says how many.
    fn write(&mut self, piece: &[u8]) -> Result<usize, SinkFailed>
        requires { 0 < length piece.now }
        ensures ok { IfOk result (λ n. (0 < n) × (n ≤ length piece.now)
            × (state self.new ≡ took (state self.old) (take n piece.now))) }
        ensures failed { OnErr result (WriteFailed (state self.old) (state self.new) []) };
}

/// The sink failed after this many bytes.
#[derive(Clone, Copy, PartialEq, Eq)]
pub struct WriteFault {
    pub sent: usize,
}

/// Writes all the bytes. It takes no memory.
#[tactic(auto, using(crate::proofs::Taken::took_twice, crate::proofs::Taken::took_nothing, crate::proofs::Taken::failed_after))]
pub fn write_whole<S: Sink>(sink: &mut S, bytes: &[u8]) -> Result<(), WriteFault>
    ensures ok { OnOk result (S.state sink.new ≡ took (S.state sink.old) bytes.now) }
    ensures failed { IfErr result (λ fault. (fault.sent < length bytes.now)
        × WriteFailed (S.state sink.old) (S.state sink.new) (take fault.sent bytes.now)) }
{
    let mut sent = 0;
    while sent < bytes.len() {
        match sink.write(&bytes[sent..]) {
            Ok(count) => sent += count,
            Err(SinkFailed) => return Err(WriteFault { sent }),
        }
    }
    Ok(())
}
