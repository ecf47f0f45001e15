//! How many answers agree.
ghost use Rattle.std.specs.Prelude.{◌≡◌};
ghost use Rattle.notation.specs.Tallies.{one_added, more_if, more_unless};

use std::fmt;

#[derive(Clone, Copy, Default)]
pub struct Compared {
    alike: u64,
    different: u64,
    not_compared: u64,
}

impl Compared {
    /// An answer that was compared.
    pub fn count(&mut self, agrees: bool)
        ensures alike { self.new.alike ≡ more_if agrees self.old.alike }
        ensures different { self.new.different ≡ more_unless agrees self.old.different }
        ensures not_compared { self.new.not_compared ≡ self.old.not_compared }
    {
        if agrees {
            self.alike = self.alike.saturating_add(1);
        } else {
            self.different = self.different.saturating_add(1);
        }
    }

    /// An answer that was not: it has another form, or there is no block.
    pub fn count_not_compared(&mut self)
        ensures alike { self.new.alike ≡ self.old.alike }
        ensures different { self.new.different ≡ self.old.different }
        ensures not_compared { self.new.not_compared ≡ one_added self.old.not_compared }
    {
        self.not_compared = self.not_compared.saturating_add(1);
    }
}

impl fmt::Display for Compared {
    fn fmt<W: fmt::Write>(&self, f: &mut fmt::Formatter<W>) -> fmt::Result {
        let alike = self.alike;
        let different = self.different;
        let not_compared = self.not_compared;
        write!(
            f,
            "answers alike: {alike}, different: {different}, not compared: {not_compared}"
        )
    }
}
