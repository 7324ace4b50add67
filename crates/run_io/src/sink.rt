//! Sinks for bytes.

ghost use Rattle.std.specs.Prelude.{◌≡◌, ◌≤◌, ◌<◌, ◌+◌, ℕ, List, Option, OnErr, OnOk, IfOk, IsOk, length, take};
ghost use Rattle.run_io.specs.Faults.{HasCause};
ghost use Rattle.run_io.specs.Sink.{Adds, AddsPrefix};

use crate::failed::Failed;

/// A sink for bytes, which counts its faults. It reports the bytes that it holds, or nothing about
/// them, as a terminal does.
pub trait Sink {
    /// The number of faults so far.
    ghost faults: { Self → ℕ };

    /// The bytes that it holds.
    ghost held: { Self → Option (List ℕ) };

    /// The number of further bytes that it is sure to take without a fault. It need not be sure of
    /// any.
    ghost sure: { Self → ℕ } = { λ _. 0 };

    /// Takes the first bytes of the buffer, and returns their number. A sink that can take none
    /// counts that as a fault.
    fn write(&mut self, buf: &[u8]) -> Result<usize, Failed>
        requires { 0 < length buf.now }
        ensures cause { HasCause (faults self.old) (faults self.new) result }
        ensures steady { OnOk result (faults self.new ≡ faults self.old) }
        ensures some { IfOk result (λ n. 1 ≤ n) }
        ensures bound { IfOk result (λ n. n ≤ length buf.now) }
        ensures added { IfOk result (λ n. Adds (held self.old) (take n buf.now) (held self.new)) }
        ensures err { OnErr result (held self.new ≡ held self.old) }
        ensures surely { length buf.now ≤ sure self.old → IsOk result }
        ensures still_sure { IfOk result (λ n. sure self.old ≤ sure self.new + n) };
}

/// Writes all bytes, in as many writes as the sink needs, and stops at the first fault.
#[tactic(auto, using(crate::proofs::SinkLemmas::adds_next))]
pub fn put_all<K: Sink>(sink: &mut K, bytes: &[u8]) -> Result<(), Failed>
    ensures cause { HasCause (K.faults sink.old) (K.faults sink.new) result }
    ensures steady { OnOk result (K.faults sink.new ≡ K.faults sink.old) }
    ensures ok { OnOk result (Adds (K.held sink.old) bytes.now (K.held sink.new)) }
    ensures err { OnErr result (AddsPrefix (K.held sink.old) bytes.now (K.held sink.new)) }
    ensures surely { length bytes.now ≤ K.sure sink.old → IsOk result }
    ensures still_sure { OnOk result (K.sure sink.old ≤ K.sure sink.new + length bytes.now) }
{
    let mut at = 0;
    while at < bytes.len() {
        at += sink.write(&bytes[at..])?;
    }
    Ok(())
}
