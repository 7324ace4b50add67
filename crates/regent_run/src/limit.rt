//! The limits of a text, and the lines that report an excess.

ghost use Rattle.std.specs.Prelude.{◌≡◌};
ghost use Rattle.regent_run.specs.Texts.{limit_message};

/// The limits of a text, each on a number or a size.
#[derive(Clone, Copy, Debug, PartialEq, Eq)]
pub enum Limit {
    /// The bytes of the text.
    Text,
    /// The bytes of a name.
    Name,
    /// The value of a literal.
    Number,
    Nesting,
    Tasks,
    Spaces,
    Fields,
    Parameters,
    Regions,
}

impl Limit {
    /// The error line.
    pub fn message(self) -> &'static [u8]
        ensures { result.now ≡ limit_message self }
    {
        match self {
            Limit::Text => b"error: limit text 1048576\n",
            Limit::Name => b"error: limit name 64\n",
            Limit::Number => b"error: limit number 9223372036854775807\n",
            Limit::Nesting => b"error: limit nesting 64\n",
            Limit::Tasks => b"error: limit tasks 256\n",
            Limit::Spaces => b"error: limit spaces 256\n",
            Limit::Fields => b"error: limit fields 16\n",
            Limit::Parameters => b"error: limit parameters 16\n",
            Limit::Regions => b"error: limit regions 4\n",
        }
    }
}
