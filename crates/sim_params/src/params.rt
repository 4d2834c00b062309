//! The parameters of LogGOPS, within their limits.
ghost use Rattle.std.specs.Prelude.{◌≡◌, ◌≤◌, ◌<◌, None, Some, IfOk, IfErr, OnOk, OnErr};
ghost use Rattle.sim_params.specs.Limits.{first_over};
ghost use Rattle.sim_params.specs.Bounded.{IsWithinLimits};

use goal_limits::{MAX_PARAM, MAX_PER_BYTE};

/// The limit of Gp and Op, the picoseconds per byte that are added to G and O.
pub const MAX_PICOS: u64 = 999;

/// The default of the latency L, in nanoseconds.
pub const DEFAULT_LATENCY: u64 = 2_500;

/// The default of the overhead o, in nanoseconds.
pub const DEFAULT_OVERHEAD: u64 = 1_500;

/// The default of the gap g, in nanoseconds.
pub const DEFAULT_GAP: u64 = 1_000;

/// The default of the gap per byte G, in nanoseconds per byte. The default of Gp is 0.
pub const DEFAULT_GAP_PER_BYTE: u64 = 6;

/// The default of the overhead per byte O, in nanoseconds per byte. The default of Op is 0.
pub const DEFAULT_OVERHEAD_PER_BYTE: u64 = 0;

/// The default of the greatest eager size S, in bytes.
pub const DEFAULT_SYNC: u64 = 65_535;

/// A parameter of the costs, in the order in which they are checked.
#[derive(Clone, Copy, Debug, PartialEq, Eq)]
pub enum Param {
    /// L, in nanoseconds.
    Latency,
    /// o, in nanoseconds.
    Overhead,
    /// g, in nanoseconds.
    Gap,
    /// G, in nanoseconds per byte.
    GapPerByte,
    /// Gp, in picoseconds per byte.
    Gp,
    /// O, in nanoseconds per byte.
    OverheadPerByte,
    /// Op, in picoseconds per byte.
    Op,
    /// S, in bytes.
    Sync,
}

/// A parameter that is over its limit.
#[derive(Clone, Copy, Debug, PartialEq, Eq)]
pub struct ParamFault {
    /// The first such parameter, in the order L, o, g, G, Gp, O, Op, S.
    pub which: Param,
}

/// The parameters of LogGOPS, each within its limit: 2^40-1 for L, o, g and S, 2^20-1 for G and O, 999 for Gp and Op.
#[derive(Clone, Copy, Debug, PartialEq, Eq)]
pub struct Params {
    /// L: the latency from one rank to another, in nanoseconds.
    pub latency: u64,
    /// o: the time of a cpu for each message, in nanoseconds.
    pub overhead: u64,
    /// g: the time of a side of a NIC for each message, in nanoseconds.
    pub gap: u64,
    /// G: the time of a side of a NIC for each byte but the first, in nanoseconds.
    pub gap_per_byte: u64,
    /// Gp: as G, in picoseconds, added to it.
    pub gap_picos: u64,
    /// O: the time of a cpu for each byte but the first, in nanoseconds.
    pub overhead_per_byte: u64,
    /// Op: as O, in picoseconds, added to it.
    pub overhead_picos: u64,
    /// S: the greatest size that is sent eagerly, in bytes.
    pub sync: u64,
    pub ghost within_limits: { IsWithinLimits (record {
      latency = latency;
      overhead = overhead;
      gap = gap;
      gap_per_byte = gap_per_byte;
      gap_picos = gap_picos;
      overhead_per_byte = overhead_per_byte;
      overhead_picos = overhead_picos;
      sync = sync;
    }) },
}

impl Params {
    ghost use Rattle.sim_params.specs.Costs.{Numbers};
    ghost use Rattle.sim_params.specs.Numbers.{numbers, asked};

    /// Returns the parameters with these numbers, and no picoseconds: L, o and g in nanoseconds, `gb` for G and `ob`
    /// for O in nanoseconds per byte, S in bytes. `Err` names the first that is over its limit.
    pub fn new(l: u64, o: u64, g: u64, gb: u64, ob: u64, s: u64) -> Result<Params, ParamFault>
        ensures numbers { IfOk result (λ p. numbers p ≡ asked l o g gb 0 ob 0 s) }
        ensures within { OnOk result (first_over (asked l o g gb 0 ob 0 s) ≡ None) }
        ensures fault { IfErr result (λ f. first_over (asked l o g gb 0 ob 0 s) ≡ Some f.which) }
    {
        Params::fine(l, o, g, gb, 0, ob, 0, s)
    }

    /// Returns the parameters with these numbers: L, o and g in nanoseconds, S in bytes; `gb` for G and `ob` for O in
    /// nanoseconds per byte; `gp` for Gp and `op` for Op in picoseconds per byte. `Err` names the first that is over
    /// its limit.
    pub fn fine(
        l: u64,
        o: u64,
        g: u64,
        gb: u64,
        gp: u64,
        ob: u64,
        op: u64,
        s: u64,
    ) -> Result<Params, ParamFault>
        ensures numbers { IfOk result (λ p. numbers p ≡ asked l o g gb gp ob op s) }
        ensures within { OnOk result (first_over (asked l o g gb gp ob op s) ≡ None) }
        ensures fault { IfErr result (λ f. first_over (asked l o g gb gp ob op s) ≡ Some f.which) }
    {
        at_most(l, MAX_PARAM, Param::Latency)?;
        at_most(o, MAX_PARAM, Param::Overhead)?;
        at_most(g, MAX_PARAM, Param::Gap)?;
        at_most(gb, MAX_PER_BYTE, Param::GapPerByte)?;
        at_most(gp, MAX_PICOS, Param::Gp)?;
        at_most(ob, MAX_PER_BYTE, Param::OverheadPerByte)?;
        at_most(op, MAX_PICOS, Param::Op)?;
        at_most(s, MAX_PARAM, Param::Sync)?;
        Ok(Params {
            latency: l,
            overhead: o,
            gap: g,
            gap_per_byte: gb,
            gap_picos: gp,
            overhead_per_byte: ob,
            overhead_picos: op,
            sync: s,
        })
    }
}

/// Checks that a value is within a limit. Otherwise the fault names this parameter.
fn at_most(value: u64, limit: u64, which: Param) -> Result<(), ParamFault>
    ensures within { OnOk result (value ≤ limit) }
    ensures over { OnErr result (limit < value) }
    ensures fault { IfErr result (λ f. f.which ≡ which) }
{
    if value > limit {
        Err(ParamFault { which })
    } else {
        Ok(())
    }
}
