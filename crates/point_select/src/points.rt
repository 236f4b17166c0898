//! A list of points, and how long it may be.

ghost use Rattle.std.specs.Prelude.{◌≡◌, ◌≤◌, ◌↔◌, length, IsTrue};
ghost use Rattle.point_select.specs.declared.TheConstants.{MAX_POINTS};

use shapes::Dims;
use std::marker::Model;

/// A list of at most [`MAX_POINTS`](crate::MAX_POINTS) points of a grid, in the order in which they
/// were given; a point may stand in it more than once.
#[derive(Debug, Drop)]
pub struct Points {
    list: Vec<Dims>,
}

impl Model for Points {
    ghost use Rattle.std.specs.Prelude.{ℕ, ◌≤◌, List, length};

    ghost Value = { List (List ℕ) };

    ghost view = { λ a. a.list.items };

    ghost invariant = { λ a. length a.list.items ≤ 65536 };
}

impl Points {
    /// These points, at most 65,536.
    pub fn new(list: Vec<Dims>) -> Points
        requires { length list.items ≤ 65536 }
        ensures { result ≡ list.items }
    {
        Points { list }
    }

    /// The points as the vector that holds them.
    pub fn into_vec(self) -> Vec<Dims>
        ensures { result.items ≡ self }
    {
        self.list
    }

    /// How many points there are.
    pub fn len(&self) -> usize
        ensures count { result ≡ length self.now }
        ensures bounded { length self.now ≤ 65536 }
    {
        self.list.len()
    }

    /// Whether there is no point.
    pub fn is_empty(&self) -> bool
        ensures { IsTrue result ↔ (length self.now ≡ 0) }
    {
        self.list.is_empty()
    }

    /// The points in order.
    pub fn as_slice(&self) -> &[Dims]
        ensures { result.now ≡ self.now }
    {
        self.list.as_slice()
    }
}

/// The limit of one list: 65,536 points.
pub fn limit_of_points()
    ensures { MAX_POINTS ≡ 65536 }
{}
