//! Labels in the order of their bytes.
ghost use Rattle.std.specs.Prelude.{◌≡◌, ◌<◌, ◌≤◌, length, nat_eq, refl, Some};
ghost use Rattle.std.specs.Ordering.{nat_cmp};
ghost use Rattle.std.specs.Cmp.Lexicographic.{pointwise, slice_cmp, nat_list_eq_equiv, nat_list_cmp_total, texts_ties, texts_po};
ghost use Rattle.std.specs.Cmp.{partial_equiv_from_equiv};
ghost use Rattle.goal_limits.specs.Limits.{run_limit};

use goal_lexer::Label;
use std::cmp::Ordering;
use std::marker::Model;

/// A label that is compared by its bytes.
#[derive(Clone, Copy)]
pub struct Sorted {
    label: Label,
}

impl Model for Sorted {
    ghost use Rattle.std.specs.Prelude.{ℕ, List};

    ghost Value = { List ℕ };

    ghost view = { λ s. s.label };

    ghost inverse = { λ bs. record { label = bs } };
}

impl Sorted {
    /// Returns the label of these 1 to 64 bytes, as one that is compared by its bytes.
    pub fn of(label: &[u8]) -> Sorted
        requires some { 0 < length label.now }
        requires short { length label.now ≤ run_limit }
        ensures { result ≡ label.now }
    {
        Sorted {
            label: Label::of(label),
        }
    }
}

impl PartialEq for Sorted {
    ghost eq = { pointwise nat_eq };

    ghost laws = { partial_equiv_from_equiv nat_list_eq_equiv };

    fn eq(&self, other: &Sorted) -> bool {
        self.label == other.label
    }
}

impl Eq for Sorted {
    ghost laws = { nat_list_eq_equiv };
}

impl PartialOrd for Sorted {
    ghost partial_cmp = { λ x y. Some (slice_cmp nat_cmp x y) };

    ghost laws = { texts_po };

    fn partial_cmp(&self, other: &Sorted) -> Option<Ordering> {
        Some(self.cmp(other))
    }
}

impl Ord for Sorted {
    ghost cmp = { slice_cmp nat_cmp };

    ghost total = { nat_list_cmp_total };

    ghost matches_partial_cmp = { λ x y. refl };

    ghost matches_eq = { texts_ties };

    fn cmp(&self, other: &Sorted) -> Ordering {
        self.label.as_bytes().cmp(other.label.as_bytes())
    }
}
