//! The laws of machines. The function does nothing: a proof cites a law by a call.
ghost use Rattle.std.specs.Prelude.{◌≡◌};
ghost use Rattle.sim_classes.specs.Limits.{class_limit, pair_limit, node_limit};
ghost use Rattle.sim_classes.specs.Laws.{ClassesAreThere, AlikeIsLogGops, OwnIsInside, OneNodeIsInside, ReadIsWhole};

use crate::machine::{MAX_CLASSES, MAX_NODE, MAX_PAIRS};

/// Properties of each whole machine, whose named classes all exist (`IsWhole`), as every [`Machine`](crate::Machine)
/// is:
///
/// - `there`: each message has one of its classes.
/// - `alike`: if all classes have the same parameters, the costs are those of LogGOPS with these parameters.
/// - `own`: a message from a rank to itself has the class inside a node.
/// - `one_node`: a message between two ranks of one node has this class too.
/// - `whole`: the machine of a text is whole.
///
/// `classes`, `pairs` and `node`: the limits of this crate are the numbers of the definitions.
pub fn laws_of_machines()
    ensures there { ClassesAreThere }
    ensures alike { AlikeIsLogGops }
    ensures own { OwnIsInside }
    ensures one_node { OneNodeIsInside }
    ensures whole { ReadIsWhole }
    ensures classes { MAX_CLASSES ≡ class_limit }
    ensures pairs { MAX_PAIRS ≡ pair_limit }
    ensures node { MAX_NODE ≡ node_limit }
{}
