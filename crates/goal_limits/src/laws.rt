//! The law of the limits. Its function does nothing: a proof cites a law by a call.
ghost use Rattle.std.specs.Prelude.{◌≡◌, ◌+◌, ◌^◌};
ghost use Rattle.goal_limits.specs.Limits.{rank_limit, op_limit, dep_limit, note_limit, round_limit, input_limit, run_limit, size_limit, calc_limit, param_limit, per_byte_limit, certified_op_limit, slot_limit, moved_limit, weight_limit};

use crate::limits::{
    MAX_BUDGET, MAX_BYTES, MAX_CERTIFIED_OPS, MAX_DEPS, MAX_INPUT, MAX_MOVED, MAX_NANOS, MAX_NOTES,
    MAX_OPS, MAX_PARAM, MAX_PER_BYTE, MAX_RANKS, MAX_ROUNDS, MAX_RUN_BYTES, MAX_SLOT, MAX_WEIGHT,
};

/// Each constant of this crate equals its limit in `specs/Limits`. `MAX_BUDGET`, which has none there, is 2^63-1.
pub fn laws_of_limits()
    ensures ranks { MAX_RANKS ≡ rank_limit }
    ensures ops { MAX_OPS ≡ op_limit }
    ensures deps { MAX_DEPS ≡ dep_limit }
    ensures notes { MAX_NOTES ≡ note_limit }
    ensures rounds { MAX_ROUNDS ≡ round_limit }
    ensures input { MAX_INPUT ≡ input_limit }
    ensures run { MAX_RUN_BYTES ≡ run_limit }
    ensures bytes { MAX_BYTES ≡ size_limit }
    ensures nanos { MAX_NANOS ≡ calc_limit }
    ensures param { MAX_PARAM ≡ param_limit }
    ensures per_byte { MAX_PER_BYTE ≡ per_byte_limit }
    ensures certified_ops { MAX_CERTIFIED_OPS ≡ certified_op_limit }
    ensures slot { MAX_SLOT ≡ slot_limit }
    ensures moved { MAX_MOVED ≡ moved_limit }
    ensures weight { MAX_WEIGHT ≡ weight_limit }
    ensures budget { MAX_BUDGET + 1 ≡ 2 ^ 63 }
{}
