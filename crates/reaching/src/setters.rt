//! Which units set a cell of the stack last on the paths to a unit: the first and the last of them.
ghost use Rattle.std.specs.Prelude.{◌≡◌};
ghost use Rattle.reaching.specs.Setters.{is_inside, are_more, joined, same_setters};

/// The units that set a cell of the stack last on the paths to a unit.
#[derive(Clone, Copy)]
pub enum Setters {
    /// There are none: no path leads to the unit on which the cell is set.
    Nowhere,
    /// The first and the last of these units, and whether there are others between them. If there is only one, it is
    /// the first and the last.
    Units(u16, u16, bool),
}

/// Checks whether a unit is between two others.
fn is_inside(first: u16, unit: u16, last: u16) -> bool
    ensures { result ≡ is_inside first unit last }
{
    first < unit && unit < last
}

/// Checks whether there are others between the first and the last of the units of two paths. The first and the last of
/// one path are `a` and `b`, and those of the other are `c` and `d`.
fn are_more(a: u16, b: u16, c: u16, d: u16) -> bool
    ensures { result ≡ are_more a b c d }
{
    let first = a.min(c);
    let last = b.max(d);
    is_inside(first, a.max(c), last) || is_inside(first, b.min(d), last)
}

impl Setters {
    /// Returns the units of two paths together.
    pub(crate) fn joined(self, other: Setters) -> Setters
        ensures { result ≡ joined self other }
    {
        match (self, other) {
            (Setters::Nowhere, _) => other,
            (Setters::Units(..), Setters::Nowhere) => self,
            (Setters::Units(a, b, one), Setters::Units(c, d, two)) => {
                Setters::Units(a.min(c), b.max(d), one || two || are_more(a, b, c, d))
            }
        }
    }

    /// Checks whether both are the same: the first unit, the last, and whether there are others.
    pub fn is_same(self, other: Setters) -> bool
        ensures { result ≡ same_setters self other }
    {
        match (self, other) {
            (Setters::Nowhere, Setters::Nowhere) => true,
            (Setters::Units(a, b, one), Setters::Units(c, d, two)) => a == c
                && b == d
                && one == two,
            _ => false,
        }
    }
}
