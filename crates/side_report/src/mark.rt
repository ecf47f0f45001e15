//! The mark at the head of a row.
ghost use Rattle.std.specs.Prelude.{◌≡◌};
ghost use Rattle.side_report.specs.Marks.{mark_of, mark_char};

use conversion_sides::standing::Standing;

/// How the two sides of a row stand. A row under one of the ten names that is not the same has a mark of its own.
#[derive(Clone, Copy, PartialEq, Eq, Debug)]
pub(crate) enum Mark {
    Same,
    Differs,
    OnlyLeft,
    OnlyRight,
    LeftOut,
}

impl Mark {
    /// Of a row that stands so, under one of the ten names or not.
    pub(crate) fn of(standing: Standing, left_out: bool) -> Mark
        ensures { result ≡ mark_of standing left_out }
    {
        match (standing, left_out) {
            (Standing::Same, _) => Mark::Same,
            (_, true) => Mark::LeftOut,
            (Standing::Differs, _) => Mark::Differs,
            (Standing::OnlyLeft, _) => Mark::OnlyLeft,
            (Standing::OnlyRight, _) => Mark::OnlyRight,
        }
    }

    /// The character that is printed.
    pub(crate) fn char(self) -> char
        ensures { result ≡ mark_char self }
    {
        match self {
            Mark::Same => ' ',
            Mark::Differs => '!',
            Mark::OnlyLeft => '<',
            Mark::OnlyRight => '>',
            Mark::LeftOut => '~',
        }
    }
}
