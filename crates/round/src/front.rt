//! Defines labels that are stored by their ranks, so that extending a label by one general is cheap.
ghost use Rattle.std.specs.Prelude.{◌≡◌, ◌<◌, ◌≤◌, ◌+◌, ◌*◌, ◌-◌, ◌^◌, ◌∷◌, ◌++◌, [], false, cond, nat_lt, ℕ, List, length, slice_index, slice_index_or};
ghost use Rattle.label.specs.Labels.{on, others};
ghost use Rattle.round.specs.Fronts.{IsFront};

/// A label that is stored by its ranks: which generals are on it, and for each general off it, its rank among the
/// labels of the same length that do not have him.
#[derive(Clone, Copy)]
pub(crate) struct LabelPrefix {
    /// The number of generals on the label.
    pub size: u8,
    /// For each general, ascending, whether he is on the label.
    pub on: [bool; 13],
    /// For each general off the label, its rank among the labels of the same length that do not have him. An element
    /// for a general on the label has no meaning.
    pub ranks: [u32; 13],
}

impl LabelPrefix {
    /// Returns the label that consists of the commander only. His number must be below 13.
    pub fn of(commander: u8) -> LabelPrefix
        requires { commander < 13 }
        ensures { (n : ℕ) → commander < n → n ≤ 13 → IsFront n commander (commander ∷ []) result }
    {
        let mut on = [false; 13];
        on[usize::from(commander)] = true;
        LabelPrefix {
            size: 1,
            on,
            ranks: [0; 13],
        }
    }

    /// Returns the label extended by `general`, in a campaign of `generals` generals. `below` must be how many generals
    /// with lower numbers than his are off the label.
    pub fn with(&self, generals: u8, general: u8, below: u32) -> LabelPrefix
        requires general { general < 13 }
        requires size { self.now.size < 13 }
        requires on { length self.now.on ≡ 13 }
        requires ranks { length self.now.ranks ≡ 13 }
        ensures { (c : ℕ) (w : List ℕ) → general < generals → generals ≤ 13 → c < generals
            → IsFront generals c w self.now → on w general ≡ false → below ≡ length (others general w)
            → IsFront generals c (w ++ general ∷ []) result }
    {
        let mut on = self.on;
        on[usize::from(general)] = true;
        let count = u32::from(generals);
        let size = u32::from(self.size);
        let width = count.saturating_sub(size + 1);
        LabelPrefix {
            size: self.size + 1,
            on,
            ranks: ranks_with(self.ranks, width, below, general),
        }
    }
}

/// Returns the ranks of a label that is extended by `general`, where `old` are the ranks of the shorter label. The
/// longer label has `width` possible last generals for each rank of the shorter one, and `below` of the generals off
/// the shorter label have lower numbers than `general`.
fn ranks_with(old: [u32; 13], width: u32, below: u32, general: u8) -> [u32; 13]
    ensures wide { length result ≡ 13 }
    ensures ranks { (x t : ℕ) → x < 13 → t + cond (nat_lt x general) 1 0 ≡ below →
        slice_index old x * width + t < 2 ^ 32 → slice_index result x ≡ slice_index old x * width + t }
{
    let mut ranks = old;
    for x in 0..13 {
        ranks[x] = rank_with(old[x], width, below, x < usize::from(general));
    }
    ranks
}

/// Returns the rank of a label that is extended by one general, where `rank` is the rank of the shorter label. Both are
/// ranks among the labels that do not have some general x. `below` counts the generals off the shorter label with lower
/// numbers than the new one, and `is_below` says whether x is among these.
fn rank_with(rank: u32, width: u32, below: u32, is_below: bool) -> u32
    ensures { (t : ℕ) → t + cond is_below 1 0 ≡ below → rank * width + t < 2 ^ 32 → result ≡ rank * width + t }
{
    rank.wrapping_mul(width)
        .wrapping_add(below.wrapping_sub(u32::from(is_below)))
}
