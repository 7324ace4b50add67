//! The board as a definition, over any machine: operations in a tree, the steps of a journal, and the run in
//! order.
//!
//! The definitions are under specs/. The two traits have no code: they name what a law is said over, so that
//! a function over them says the law of every machine.
#![tactic(auto)]

ghost use Rattle.std.specs.Prelude.{ℕ, List};
ghost use Rattle.board_rules.specs.ByNumber.{Renamable};
ghost use Rattle.board_rules.specs.Ground.{Ground};
ghost use Rattle.board_rules.specs.Journals.{Job};
ghost use Rattle.board_rules.specs.Renaming.{Base, Renames, Roots, ground_over};
ghost use Rattle.board_rules.specs.Running.{Laws, Machine};

/// A machine, with what is asked of it.
pub trait OrderedMachine {
    /// Locations, numbers, operators, needs and frames.
    ghost terms: { Ground };

    ghost machine: { Machine terms };

    ghost laws: { Laws terms machine };
}

/// A machine whose roots are numbers in order of making, beside one whose roots are named by who made them.
pub trait NumberedMachine {
    /// What knows no root.
    ghost base: { Base };

    ghost numbered: { Roots base };

    ghost named: { Roots base };

    /// By how many roots were made before: the number of the next one.
    ghost machines: { ℕ → Machine (ground_over base numbered) };

    ghost naming: { Machine (ground_over base named) };

    /// The renaming by the maker and the making of each number.
    ghost rename: { (ℕ → List ℕ) → (ℕ → ℕ) → Renames base numbered named };

    /// The jobs that the laws speak of.
    ghost is_job: { Job (ground_over base numbered) → Type 0 };

    ghost laws: { Laws (ground_over base named) naming };

    ghost renamable: { (job : Job (ground_over base numbered)) → is_job job → (twin : Job (ground_over base named)) × Renamable base numbered named machines naming rename job twin };
}
