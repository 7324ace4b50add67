//! The names by which a source was begun.

ghost use Rattle.std.specs.Prelude.{◌≡◌, string_bytes};

/// The first two names.
#[derive(Drop)]
pub(crate) enum Names {
    Nothing,
    One(String),
    Two(String, String),
}

impl Names {
    ghost use Rattle.run_io.specs.Source.{with_name};
    ghost use Rattle.run_io.specs.Names.{names_of};

    /// Keeps the name if it is one of the first two.
    pub(crate) fn note(&mut self, name: String)
        ensures { names_of self.new ≡ with_name (string_bytes name) (names_of self.old) }
    {
        let names = std::mem::replace(self, Names::Nothing);
        *self = match names {
            Names::Nothing => Names::One(name),
            Names::One(first) => Names::Two(first, name),
            Names::Two(first, second) => Names::Two(first, second),
        };
    }
}
