//! The verdict of a call, and the one place where it is written.

ghost use Rattle.std.specs.Prelude.{◌≡◌};
ghost use Rattle.regent_run.specs.Calls.{sink_change};
ghost use Rattle.regent_run.specs.Verdicts.{IsDelivered, out_text, err_text, status_of};

use crate::limit::Limit;
use plain_values::Sequence;
use run_io::{Sink, put_all};
use std::alloc::AllocError;

/// The verdict of a call, before it writes anything.
#[derive(Drop)]
pub enum Verdict {
    /// The words are refused.
    Usage,
    /// The text can't be read.
    Unread,
    NoMemory,
    /// The text isn't a program; the message says on which line.
    NoProgram {
        message: String,
    },
    /// The text exceeds a limit.
    PastLimit(Limit),
    /// The program violates a rule; the message says which, and on which line.
    Refused {
        message: String,
    },
    /// The words aren't the program's arguments.
    OtherInputs,
    /// The printed text of the program, followed by the dump if it was asked for. The trace is
    /// there if it was asked for.
    Finished {
        text: Sequence<u8>,
        trace: Vec<u8>,
    },
    /// The program has printed this text and faulted; the message has the trace, if it was asked
    /// for, and says which fault it is, and on which line.
    Faulted {
        text: Sequence<u8>,
        message: Vec<u8>,
    },
    /// The program is accepted, and no run was asked for.
    Accepted,
}

impl From<AllocError> for Verdict {
    ghost use Rattle.std.specs.Prelude.{◌≡◌};
    ghost use Rattle.regent_run.specs.declared.verdict.Verdict.TheVariants as verdict;

    ghost from_gives = { λ _ v. v ≡ verdict.NoMemory };

    fn from(_error: AllocError) -> Verdict {
        Verdict::NoMemory
    }
}

impl Verdict {
    pub fn status(&self) -> u8
        ensures { result ≡ status_of self.now }
    {
        match self {
            Verdict::Usage => 2,
            Verdict::Unread => 3,
            Verdict::NoMemory => 7,
            Verdict::NoProgram { .. } => 5,
            Verdict::Refused { .. } => 6,
            Verdict::PastLimit(_) => 8,
            Verdict::OtherInputs => 9,
            Verdict::Finished { .. } | Verdict::Accepted => 0,
            Verdict::Faulted { .. } => 1,
        }
    }

    /// The text for the output.
    fn out_text(&self) -> &[u8]
        ensures { result.now ≡ out_text self.now }
    {
        match self {
            Verdict::Finished { text, .. } => text.as_slice(),
            Verdict::Faulted { text, .. } => text.as_slice(),
            Verdict::Accepted => b"accepted\n",
            _ => b"",
        }
    }

    /// The text for the error output.
    fn err_text(&self) -> &[u8]
        ensures { result.now ≡ err_text self.now }
    {
        match self {
            Verdict::Usage => b"error: usage\n",
            Verdict::Unread => b"error: read failed\n",
            Verdict::NoMemory => b"error: out of memory\n",
            Verdict::NoProgram { message } => message.as_bytes(),
            Verdict::PastLimit(passed) => passed.message(),
            Verdict::Refused { message } => message.as_bytes(),
            Verdict::OtherInputs => b"error: inputs\n",
            Verdict::Finished { trace, .. } => trace.as_slice(),
            Verdict::Faulted { message, .. } => message.as_slice(),
            Verdict::Accepted => b"",
        }
    }

    /// Writes the output and then the error output, and returns the status: 4 if a write failed,
    /// and then nothing more is written.
    pub fn deliver<K: Sink, E: Sink>(&self, out: &mut K, err: &mut E) -> u8
        ensures { IsDelivered self.now result
            (sink_change K.Sink out.old out.new) (sink_change E.Sink err.old err.new) }
    {
        if put_all(out, self.out_text()).is_err() {
            return 4;
        }
        if put_all(err, self.err_text()).is_err() {
            return 4;
        }
        self.status()
    }
}
