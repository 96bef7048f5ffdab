//! How often a lexer was asked.
ghost use Rattle.std.specs.Prelude.{◌≡◌, ℕ, ◌+◌};
ghost use Rattle.std.specs.Borrow.{ftrue};

use std::marker::Model;

/// A number that takes no bytes: only clauses see it. A struct of ghost fields alone can be written
/// down wherever its name is known, so this name is private.
#[derive(Drop)]
struct Count {
    ghost number: { ℕ },
}

impl Model for Count {
    ghost also_owns = { λ _. ftrue };
}

impl Count {
    /// Zero.
    fn zero() -> Count
        ensures { result.number ≡ 0 }
    {
        Count {}
    }

    /// One more.
    fn and_one(&self) -> Count
        ensures { result.number ≡ self.now.number + 1 }
    {
        Count {}
    }
}

/// A count of questions. It takes no bytes: only clauses see it, as a number. `new` makes one that
/// is zero, and only `Lexer::next_ticked`, `Found::next_of` and `Found::number_in_turn` change one: each
/// adds one for an item that it takes.
#[derive(Drop)]
pub struct Asked {
    count: Count,
}

impl Model for Asked {
    ghost Value = { ℕ };

    ghost view = { λ a. a.count.number };
}

impl Asked {
    /// No question yet.
    pub fn new() -> Asked
        ensures { result ≡ 0 }
    {
        Asked {
            count: Count::zero(),
        }
    }

    /// One more question.
    pub(crate) fn tick(&mut self)
        ensures { self.new ≡ self.old + 1 }
    {
        self.count = self.count.and_one();
    }
}
