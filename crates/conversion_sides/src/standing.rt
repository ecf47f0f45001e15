//! How two values stand beside each other.
ghost use Rattle.std.specs.Prelude.{◌≡◌};
ghost use Rattle.std.specs.Str.{bytes_eq};
ghost use Rattle.std.specs.Bool.{nat_eq};
ghost use Rattle.conversion_sides.specs.Standings.{stands, bytes_in, is_standing, sameness, standing_and};

/// How what the left span holds stands beside what the right one holds.
#[derive(Clone, Copy, PartialEq, Eq, Debug)]
pub enum Standing {
    Same,
    Differs,
    OnlyLeft,
    OnlyRight,
}

impl Standing {
    /// Of two values that both spans hold, by whether they are the same.
    pub(crate) fn of_both(same: bool) -> Standing
        ensures { result ≡ sameness same }
    {
        if same {
            Standing::Same
        } else {
            Standing::Differs
        }
    }

    /// What stands the same only where the rest does so too.
    pub(crate) fn and(self, rest: bool) -> Standing
        ensures { result ≡ standing_and self rest }
    {
        match self {
            Standing::Same => Standing::of_both(rest),
            apart => apart,
        }
    }

    /// Whether this is that one.
    pub fn is(self, other: Standing) -> bool
        ensures { result ≡ is_standing self other }
    {
        self as u8 == other as u8
    }
}

/// Of two texts, each of which may be absent.
pub(crate) fn text_standing(left: Option<&[u8]>, right: Option<&[u8]>) -> Standing
    ensures { result ≡ stands bytes_eq (bytes_in left.entry) (bytes_in right.entry) }
{
    match (left, right) {
        (Some(x), Some(y)) => Standing::of_both(x == y),
        (Some(_), None) => Standing::OnlyLeft,
        (None, Some(_)) => Standing::OnlyRight,
        (None, None) => Standing::Same,
    }
}

/// Of two numbers, each of which may be absent.
pub(crate) fn number_standing(left: Option<u64>, right: Option<u64>) -> Standing
    ensures { result ≡ stands nat_eq left right }
{
    match (left, right) {
        (Some(x), Some(y)) => Standing::of_both(x == y),
        (Some(_), None) => Standing::OnlyLeft,
        (None, Some(_)) => Standing::OnlyRight,
        (None, None) => Standing::Same,
    }
}
