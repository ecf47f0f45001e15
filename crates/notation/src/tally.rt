//! How many lines came to what.
ghost use Rattle.std.specs.Prelude.{◌≡◌};
ghost use Rattle.notation.specs.Tallies.{one_added, more_if, more_unless};

use std::fmt;

#[derive(Clone, Copy, Default)]
pub struct Tally {
    taken: u64,
    refused: u64,
    not_read: u64,
}

impl Tally {
    /// A line whose content was taken, or refused.
    pub fn count(&mut self, taken: bool)
        ensures taken { self.new.taken ≡ more_if taken self.old.taken }
        ensures refused { self.new.refused ≡ more_unless taken self.old.refused }
        ensures not_read { self.new.not_read ≡ self.old.not_read }
    {
        if taken {
            self.taken = self.taken.saturating_add(1);
        } else {
            self.refused = self.refused.saturating_add(1);
        }
    }

    /// A line that was not read.
    pub fn count_not_read(&mut self)
        ensures taken { self.new.taken ≡ self.old.taken }
        ensures refused { self.new.refused ≡ self.old.refused }
        ensures not_read { self.new.not_read ≡ one_added self.old.not_read }
    {
        self.not_read = self.not_read.saturating_add(1);
    }
}

/// What a program prints last: the tally, with what was taken in the program's words.
#[derive(Clone, Copy)]
pub struct Summary {
    pub taken: &'static str,
    pub tally: Tally,
}

impl fmt::Display for Summary {
    fn fmt<W: fmt::Write>(&self, f: &mut fmt::Formatter<W>) -> fmt::Result {
        let words = self.taken;
        let taken = self.tally.taken;
        let refused = self.tally.refused;
        let not_read = self.tally.not_read;
        write!(
            f,
            "{words}: {taken}, refused: {refused}, lines not read: {not_read}"
        )
    }
}
