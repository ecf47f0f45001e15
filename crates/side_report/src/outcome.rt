//! What becomes of a comparison.
ghost use Rattle.std.specs.Prelude.{◌≡◌};
ghost use Rattle.side_report.specs.Outcomes.{outcome_of, status_of, worse_of};

/// What became of a comparison, the best first.
#[derive(Clone, Copy, PartialEq, Eq, Debug)]
pub enum Outcome {
    Agree,
    Differ,
    /// One of the spans could not be read, opened or converted.
    NotCompared,
}

impl Outcome {
    /// Of two spans that were compared, by whether they agree.
    pub fn of(agrees: bool) -> Outcome
        ensures { result ≡ outcome_of agrees }
    {
        if agrees {
            Outcome::Agree
        } else {
            Outcome::Differ
        }
    }

    /// The worse of two.
    pub fn worse(self, other: Outcome) -> Outcome
        ensures { result ≡ worse_of self other }
    {
        match (self, other) {
            (Outcome::Agree, other) => other,
            (Outcome::Differ, Outcome::NotCompared) => Outcome::NotCompared,
            (worse, _) => worse,
        }
    }

    /// The exit status.
    pub fn status(self) -> u8
        ensures { result ≡ status_of self }
    {
        match self {
            Outcome::Agree => 0,
            Outcome::Differ => 1,
            Outcome::NotCompared => 2,
        }
    }
}
