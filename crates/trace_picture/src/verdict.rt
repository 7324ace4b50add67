//! The verdict on a trace, and the one place where it is written.

ghost use Rattle.std.specs.Prelude.{◌≡◌};
ghost use Rattle.trace_picture.specs.Verdicts.{IsDelivered};
ghost use Rattle.trace_picture.specs.Views.{IsPut, change_of};

use run_io::{Sink, put_all};

/// The verdict on a trace, before anything is written.
#[derive(Drop)]
pub enum Verdict {
    /// Its journal has this picture.
    Shown { picture: String },
    /// It has a line that isn't a journal's; the message says which.
    BadLine { message: String },
    /// It exceeds the limit.
    TooLong,
    /// It can't be read.
    Unread,
    NoMemory,
}

/// Writes the bytes, and returns the status: 4 if a write failed.
fn put<K: Sink>(sink: &mut K, bytes: &[u8], status: u8) -> u8
    ensures { IsPut status bytes.now (change_of K.Sink sink.old sink.new) result }
{
    match put_all(sink, bytes) {
        Ok(()) => status,
        Err(_) => 4,
    }
}

impl Verdict {
    /// Writes the picture to the output or a line to the error output, and returns the status.
    pub fn deliver<K: Sink, E: Sink>(&self, out: &mut K, err: &mut E) -> u8
        ensures { IsDelivered self.now (change_of K.Sink out.old out.new) (change_of E.Sink err.old err.new) result }
    {
        match self {
            Verdict::Shown { picture } => put(out, picture.as_bytes(), 0),
            Verdict::BadLine { message } => put(err, message.as_bytes(), 12),
            Verdict::TooLong => put(err, b"error: limit journal 16777216\n", 8),
            Verdict::Unread => put(err, b"error: read failed\n", 3),
            Verdict::NoMemory => put(err, b"error: out of memory\n", 7),
        }
    }
}
