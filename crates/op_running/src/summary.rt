ghost use Rattle.std.specs.Prelude.{◌+◌, ◌<◌, ◌^◌, ◌++◌, ◌∷◌, [], List, length};
ghost use Rattle.xfrac.specs.declared.value.XFrac.{XFrac};

use xfrac::XFrac;

/// What is kept of a list of values in its place.
pub(crate) trait Summary: Copy {
    /// It is that of a list.
    ghost is_of: { Self → List XFrac → Type 0 };

    /// Of no values.
    fn none() -> Self
        ensures { is_of result [] };

    /// Of one value more, behind the others.
    fn more(self, value: &XFrac) -> Self
        requires { (xs : List XFrac) × is_of self xs × (length xs < 2 ^ 64) }
        ensures { (xs : List XFrac) → is_of self xs → is_of result (xs ++ value.now ∷ []) };

    /// Of the values of both, those of the other one behind.
    fn joined(&self, behind: &Self) -> Self
        requires { (xs : List XFrac) × (ys : List XFrac) × is_of self.now xs × is_of behind.now ys × (length xs + length ys < 2 ^ 65) }
        ensures { (xs ys : List XFrac) → is_of self.now xs → is_of behind.now ys → is_of result (xs ++ ys) };
}
