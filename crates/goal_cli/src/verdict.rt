//! The verdict on a schedule: it is certified for a collective, or this is its first fault.
ghost use Rattle.std.specs.Prelude.{◌≡◌, ◌++◌, ◌≢◌, length, List, decimal, IfOk, OnOk};
ghost use Rattle.goal_blocks.specs.declared.cert_fault.CertFault.{CertFault};
ghost use Rattle.goal_cli.specs.Verdict.{kind_text, op_text, ops_text, slot_text, fault_text, certified_text, faulty_text, IsVerdictOn};

use crate::answer::Ending;
use crate::pages::Whole;
use goal_base::TextOut;
use goal_blocks::{CertFault, Collective};
use goal_certify::certify;
use goal_graph::{OpId, Sched};
use goal_limits::NoMemory;
use std::alloc::Global;

/// Returns the verdict on a schedule for a collective, as an output. `Err` means out of memory.
pub fn verdict(alloc: Global, sched: &Sched, what: Collective) -> Result<Whole, NoMemory>
    ensures { IfOk result (λ output. IsVerdictOn what sched.now output.bytes.items output.ending) }
{
    match certify(alloc, sched, what) {
        Ok(()) => Ok(Whole {
            bytes: certified_text(alloc, what, sched.plans().len())?,
            ending: Ending::Done,
        }),
        Err(CertFault::NoMemory) => Err(NoMemory),
        Err(fault) => Ok(Whole {
            bytes: faulty_text(alloc, fault)?,
            ending: Ending::NotCertified,
        }),
    }
}

// The line for a certified schedule.
fn certified_text(alloc: Global, what: Collective, ranks: usize) -> Result<Vec<u8>, NoMemory>
    ensures { IfOk result (λ text. text.items ≡ certified_text what ranks) }
{
    let mut out = TextOut::new(alloc);
    out.word("certified ")?;
    put_kind(&mut out, what)?;
    out.word(" ranks ")?;
    out.number(ranks as u128)?;
    out.word("\n")?;
    Ok(out.into_bytes())
}

// The line for a schedule that is not certified.
fn faulty_text(alloc: Global, fault: CertFault) -> Result<Vec<u8>, NoMemory>
    ensures { IfOk result (λ text. text.items ≡ faulty_text fault) }
{
    let mut out = TextOut::new(alloc);
    out.word("not certified: ")?;
    put_fault(&mut out, fault)?;
    out.word("\n")?;
    Ok(out.into_bytes())
}

// Appends the kind of a collective.
fn put_kind(out: &mut TextOut, what: Collective) -> Result<(), NoMemory>
    ensures { OnOk result (out.new ≡ out.old ++ kind_text what) }
{
    match what {
        Collective::Bcast { .. } => out.word("bcast"),
        Collective::Barrier => out.word("barrier"),
        Collective::Allgather => out.word("allgather"),
        Collective::Allreduce => out.word("allreduce"),
        Collective::Alltoall => out.word("alltoall"),
        Collective::Reduce { .. } => out.word("reduce"),
        Collective::Gather { .. } => out.word("gather"),
        Collective::Scatter { .. } => out.word("scatter"),
        Collective::ReduceScatter => out.word("reduce_scatter"),
        Collective::Scan => out.word("scan"),
    }
}

// Appends the words of a fault.
fn put_fault(out: &mut TextOut, fault: CertFault) -> Result<(), NoMemory>
    ensures { OnOk result (out.new ≡ out.old ++ fault_text fault) }
{
    match fault {
        CertFault::TooLarge { rank } => put_number(out, "too large ", u64::from(rank)),
        CertFault::Wildcard { op } => put_op(out, "wildcard ", op),
        CertFault::DoubleChannel { first, second } => {
            put_ops(out, "double channel ", first, second)
        }
        CertFault::Unpaired { op } => put_op(out, "unpaired ", op),
        CertFault::Lengths { send, recv } => put_ops(out, "lengths ", send, recv),
        CertFault::Race {
            rank,
            first,
            second,
            slot,
        } => {
            put_ops(
                out,
                "race ",
                OpId { rank, op: first },
                OpId { rank, op: second },
            )?;
            put_number(out, " slot ", u64::from(slot))
        }
        CertFault::Stalls { op } => put_op(out, "stalls ", op),
        CertFault::Weight { held } => put_number(out, "weight ", held),
        CertFault::Wrong { rank, slot } => {
            put_number(out, "wrong ", u64::from(rank))?;
            put_number(out, " slot ", u64::from(slot))
        }
        CertFault::NoMemory => Ok(()),
    }
}

// Appends words and a number.
fn put_number(out: &mut TextOut, words: &str, number: u64) -> Result<(), NoMemory>
    ensures { OnOk result (out.new ≡ out.old ++ (words.now ++ decimal number)) }
{
    out.word(words)?;
    out.number(u128::from(number))
}

// Appends words and an operation.
fn put_op(out: &mut TextOut, words: &str, op: OpId) -> Result<(), NoMemory>
    ensures { OnOk result (out.new ≡ out.old ++ (words.now ++ op_text op)) }
{
    out.word(words)?;
    out.pair(op.rank, op.op)
}

// Appends words and two operations.
fn put_ops(out: &mut TextOut, words: &str, first: OpId, second: OpId) -> Result<(), NoMemory>
    ensures { OnOk result (out.new ≡ out.old ++ (words.now ++ ops_text first second)) }
{
    put_op(out, words, first)?;
    put_op(out, " and ", second)
}
