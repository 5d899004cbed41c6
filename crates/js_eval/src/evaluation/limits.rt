//! The limits of a walk.
ghost use Rattle.std.specs.Prelude.{◌≡◌, IfSome};
ghost use Rattle.js_eval.specs.Result.{AreAtMostStandard, limits_at_most, standard_limits};

/// How large a result may be: how many nested schema applications it may need, the root's schema included, and how
/// many nodes it may have.
#[derive(Clone, Copy, Debug, PartialEq, Eq)]
pub struct Limits {
    pub(crate) levels: usize,
    pub(crate) nodes: usize,
}

impl Limits {
    /// The standard limits, which are the greatest: 512 nested schema applications, and 1,000,000 nodes.
    pub fn standard() -> Limits
        ensures is { result ≡ standard_limits }
        ensures at_most { AreAtMostStandard result }
    {
        Limits {
            levels: 512,
            nodes: 1_000_000,
        }
    }

    /// The limits with these numbers, or None if no application is allowed, or a number is greater than the standard
    /// one.
    pub fn at_most(levels: usize, nodes: usize) -> Option<Limits>
        ensures is { result ≡ limits_at_most levels nodes }
        ensures at_most { IfSome result AreAtMostStandard }
    {
        let standard = Limits::standard();
        if levels == 0 || standard.levels < levels || standard.nodes < nodes {
            return None;
        }
        Some(Limits { levels, nodes })
    }
}
