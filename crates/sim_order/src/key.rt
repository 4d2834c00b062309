//! Orders of keys, whose comparisons are not counted.
ghost use Rattle.std.specs.Prelude.{◌≡◌, Bool};
ghost use Rattle.sim_order.specs.Order.{IsOrder};

use goal_graph::Class;

/// A type of keys with a total order.
pub trait KeyOrder {
    /// The first key is less than the second.
    ghost less: { Self → Self → Bool };

    /// Returns whether this key is less than the other.
    fn less(&self, other: &Self) -> bool
        ensures { result ≡ less self.now other.now };

    /// No key is less than itself, the order is transitive, and of two different keys one is less.
    ghost laws: { IsOrder less };
}

impl KeyOrder for u64 {
    ghost use Rattle.std.specs.Prelude.{nat_lt};
    ghost use Rattle.sim_order.specs.OrderLaws.{number_laws};

    ghost less = { nat_lt };

    ghost laws = { number_laws };

    fn less(&self, other: &u64) -> bool {
        *self < *other
    }
}

impl KeyOrder for u32 {
    ghost use Rattle.std.specs.Prelude.{nat_lt};
    ghost use Rattle.sim_order.specs.OrderLaws.{number_laws};

    ghost less = { nat_lt };

    ghost laws = { number_laws };

    fn less(&self, other: &u32) -> bool {
        *self < *other
    }
}

/// In the order Arrive, Serve, Data, Post, Begin.
impl KeyOrder for Class {
    ghost use Rattle.sim_order.specs.Events.{class_less};
    ghost use Rattle.sim_order.specs.OrderLaws.{class_laws};

    ghost less = { class_less };

    ghost laws = { class_laws };

    fn less(&self, other: &Class) -> bool {
        *self < *other
    }
}

/// Pairs in lexical order: by their first parts, and if these are equal, by their rests.
#[derive(Clone, Copy, Debug, PartialEq, Eq, Drop)]
pub struct Lex<A, B> {
    /// The part that is compared first.
    pub first: A,
    /// The part that is compared if the first parts are equal.
    pub rest: B,
}

impl<A: KeyOrder, B: KeyOrder> KeyOrder for Lex<A, B> {
    ghost use Rattle.sim_order.specs.Order.{lexical};
    ghost use Rattle.sim_order.specs.OrderLaws.{lex_laws};

    ghost less = { λ x y. lexical (A.less x.first y.first) (A.less y.first x.first) (B.less x.rest y.rest) };

    ghost laws = { lex_laws A.less B.less A.laws B.laws };

    fn less(&self, other: &Lex<A, B>) -> bool {
        self.first.less(&other.first)
            || (!other.first.less(&self.first) && self.rest.less(&other.rest))
    }
}

/// The reversed order: the greatest key is the least.
#[derive(Clone, Copy, Debug, PartialEq, Eq, Drop)]
pub struct Flip<K>(pub K);

impl<K: KeyOrder> KeyOrder for Flip<K> {
    ghost use Rattle.sim_order.specs.OrderLaws.{flip_laws};

    ghost less = { λ x y. K.less y.0 x.0 };

    ghost laws = { flip_laws K.less K.laws };

    fn less(&self, other: &Flip<K>) -> bool {
        other.0.less(&self.0)
    }
}
