//! Which start and end an action may give.
ghost use Rattle.std.specs.Prelude.{◌≡◌};
ghost use Rattle.sim_state.specs.Awaited.{gives};

use goal_graph::{Class, When};

/// Returns whether an action of a class may give its operation the start or end that a need with this `when` asks for.
#[inline(always)]
pub fn gives(class: Class, when: When) -> bool
    ensures { result ≡ gives class when }
{
    match (class, when) {
        (Class::Begin, _)
        | (Class::Post, When::AfterStart)
        | (Class::Data | Class::Serve, When::AfterEnd) => true,
        _ => false,
    }
}
