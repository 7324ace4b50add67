//! A source over memory without faults.

ghost use Rattle.std.specs.Prelude.{◌≡◌, [], ◌∷◌};

use crate::failed::Failed;
use crate::feed::Feed;
use crate::source::Source;
use std::marker::Model;

/// A source over bytes in memory that never fails.
#[derive(Drop)]
pub struct SureSource {
    feed: Feed,
}

impl Model for SureSource {
    ghost use Rattle.run_io.specs.Told.{Told};

    ghost Value = { Told };

    ghost view = { λ s. s.feed };
}

impl SureSource {
    /// The first begin makes the bytes available, and a later one nothing.
    pub fn new(bytes: Vec<u8>) -> Self
        ensures left { result.left ≡ [] }
        ensures later { result.later ≡ bytes.items ∷ [] }
        ensures begins { result.begins ≡ 0 }
        ensures names { result.names ≡ [] }
    {
        SureSource {
            feed: Feed::new(bytes),
        }
    }
}

impl Source for SureSource {
    ghost use Rattle.std.specs.Prelude.{Some};

    ghost faults = { λ _. 0 };

    ghost left = { λ s. Some s.left };

    ghost later = { λ s. Some s.later };

    ghost begins = { λ s. Some s.begins };

    ghost names = { λ s. Some s.names };

    fn begin(&mut self, name: String) -> Result<(), Failed> {
        self.feed.count_begin(name);
        self.feed.open();
        Ok(())
    }

    fn read(&mut self, buf: &mut [u8]) -> Result<usize, Failed> {
        Ok(self.feed.move_into(buf))
    }
}
