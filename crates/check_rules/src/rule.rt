//! The rules, by their names.

ghost use Rattle.std.specs.Prelude.{◌≡◌};
ghost use Rattle.check_rules.specs.first.Rules.{number_of};

/// A rule of the checker. A breach of it is told by its number.
#[derive(Clone, Copy, Debug, PartialEq, Eq)]
pub enum Rule {
    /// A name stands for nothing of the kind that is needed.
    Name,
    /// Two things of one scope share a name.
    Twice,
    /// An expression's type doesn't fit its place.
    Type,
    /// A call or a field space use has the wrong number of arguments.
    Count,
    /// A region, partition or index space stands where only a value may.
    Place,
    /// What is assigned can't be.
    Target,
    /// A `printf` text doesn't go with its arguments.
    Format,
    /// A field is read without the privilege.
    Read,
    /// A field is written without the privilege.
    Write,
    /// A field is reduced without the privilege.
    Reduce,
    /// A task is called whose privileges aren't held.
    CallPrivilege,
    /// A task is called whose constraints aren't derivable.
    CallConstraint,
    /// A pointer type names what it can't point into, or leads anywhere.
    Pointer,
    /// A region argument is of another kind of region than the parameter.
    Spaces,
    /// A partition isn't as its place asks.
    Partition,
    /// A clause names what isn't there.
    Declared,
    /// A task returns otherwise than it says.
    Return,
    /// The program starts with no task, with two, or with one that can't be started.
    Start,
    /// A demanded loop is no index launch.
    NotLaunch,
    /// An index launch interferes with itself.
    Interferes,
}

impl Rule {
    pub fn number(self) -> u8
        ensures { result ≡ number_of self }
    {
        match self {
            Rule::Name => 1,
            Rule::Twice => 2,
            Rule::Type => 3,
            Rule::Count => 4,
            Rule::Place => 5,
            Rule::Target => 6,
            Rule::Format => 7,
            Rule::Read => 8,
            Rule::Write => 9,
            Rule::Reduce => 10,
            Rule::CallPrivilege => 11,
            Rule::CallConstraint => 12,
            Rule::Pointer => 13,
            Rule::Spaces => 14,
            Rule::Partition => 15,
            Rule::Declared => 16,
            Rule::Return => 17,
            Rule::Start => 18,
            Rule::NotLaunch => 19,
            Rule::Interferes => 20,
        }
    }
}
