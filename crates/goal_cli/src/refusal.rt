//! The messages of refusals.
ghost use Rattle.std.specs.Prelude.{◌≡◌, ◌++◌, List, IfOk, OnOk, codes};
ghost use Rattle.goal_base.specs.Text.{pair_text};
ghost use Rattle.goal_cli.specs.Refusal.{at_text, plan_words, text_words, file_words, machine_words, generator_words, refusal_words, refused_line};

use crate::answer::Refusal;
use goal_base::TextOut;
use goal_binary::FileFault;
use goal_collectives::GenFault;
use goal_graph::PlanFault;
use goal_limits::NoMemory;
use goal_parser::TextFault;
use sim_classes::MachineFault;
use std::alloc::Global;

/// Returns the line of a refusal for `err`. `Err` means out of memory.
pub fn refused_line(alloc: Global, refusal: Refusal) -> Result<Vec<u8>, NoMemory>
    ensures { IfOk result (λ line. line.items ≡ refused_line refusal) }
{
    let mut out = TextOut::new(alloc);
    out.word("goal: refused: ")?;
    put_refusal(&mut out, refusal)?;
    out.word("\n")?;
    Ok(out.into_bytes())
}

// Appends the words of a refusal.
fn put_refusal(out: &mut TextOut, refusal: Refusal) -> Result<(), NoMemory>
    ensures { OnOk result (out.new ≡ out.old ++ refusal_words refusal) }
{
    match refusal {
        Refusal::TooLong => out.word("input longer than 134217728 bytes"),
        Refusal::Text(fault) => put_text_fault(out, fault),
        Refusal::File(fault) => put_file_fault(out, fault),
        Refusal::Machine(fault) => put_machine_fault(out, fault),
        Refusal::MachineRanks { ranks } => put_at(out, "machine: ranks ", u64::from(ranks)),
        Refusal::Generator(fault) => put_generator_fault(out, fault),
        Refusal::Budget { sum } => {
            out.word("budget ")?;
            out.number(sum)
        }
    }
}

// Appends the words of the fault of a text.
fn put_text_fault(out: &mut TextOut, fault: TextFault) -> Result<(), NoMemory>
    ensures { OnOk result (out.new ≡ out.old ++ text_words fault) }
{
    match fault {
        TextFault::Lex { at } => put_at(out, "text: lex at ", at),
        TextFault::Syntax { at } => put_at(out, "text: syntax at ", at),
        TextFault::Number { at } => put_at(out, "text: number at ", at),
        TextFault::Rank { at } => put_at(out, "text: rank at ", at),
        TextFault::Repeat { at } => put_at(out, "text: repeat at ", at),
        TextFault::TooMany { at } => put_at(out, "text: many at ", at),
        TextFault::UnknownLabel { at } => put_at(out, "text: label at ", at),
        TextFault::Plan(fault) => put_plan_fault(out, fault),
        TextFault::NoMemory => Ok(()),
    }
}

// Appends the words of the fault of a compiled file.
fn put_file_fault(out: &mut TextOut, fault: FileFault) -> Result<(), NoMemory>
    ensures { OnOk result (out.new ≡ out.old ++ file_words fault) }
{
    match fault {
        FileFault::Short { at } => put_at(out, "file: short at ", at),
        FileFault::Magic => out.word("file: magic"),
        FileFault::Version { found } => put_at(out, "file: version ", u64::from(found)),
        FileFault::Field { at } => put_at(out, "file: field at ", at),
        FileFault::Extra { at } => put_at(out, "file: extra at ", at),
        FileFault::Plan(fault) => put_plan_fault(out, fault),
        FileFault::NoMemory => Ok(()),
    }
}

// Appends the words of the first rule that plans break.
fn put_plan_fault(out: &mut TextOut, fault: PlanFault) -> Result<(), NoMemory>
    ensures { OnOk result (out.new ≡ out.old ++ plan_words fault) }
{
    match fault {
        PlanFault::Peer { rank, op } => put_pair(out, "plan: peer ", rank, op),
        PlanFault::DepRange { rank, dep } => put_pair(out, "plan: dependency ", rank, dep),
        PlanFault::NoteMisfit { rank, note } => put_pair(out, "plan: note ", rank, note),
        PlanFault::Cycle { rank, op } => put_pair(out, "plan: cycle ", rank, op),
        PlanFault::Count { .. } | PlanFault::Value { .. } | PlanFault::NoMemory => Ok(()),
    }
}

// Appends the words of the fault of a machine.
fn put_machine_fault(out: &mut TextOut, fault: MachineFault) -> Result<(), NoMemory>
    ensures { OnOk result (out.new ≡ out.old ++ machine_words fault) }
{
    match fault {
        MachineFault::Syntax { at } => put_at(out, "machine: syntax at ", at),
        MachineFault::Number { at } => put_at(out, "machine: number at ", at),
        MachineFault::Repeat { at } => put_at(out, "machine: repeat at ", at),
        MachineFault::NoMemory => Ok(()),
    }
}

// Appends the words of why a collective has no schedule.
fn put_generator_fault(out: &mut TextOut, fault: GenFault) -> Result<(), NoMemory>
    ensures { OnOk result (out.new ≡ out.old ++ generator_words fault) }
{
    match fault {
        GenFault::Ranks { limit } => put_at(out, "generator: ranks ", u64::from(limit)),
        GenFault::Root => out.word("generator: root"),
        GenFault::NotPowerOfTwo => out.word("generator: power of two"),
        GenFault::NoMemory => Ok(()),
    }
}

// Appends words and a place.
fn put_at(out: &mut TextOut, words: &str, at: u64) -> Result<(), NoMemory>
    ensures { OnOk result (out.new ≡ out.old ++ at_text words.now at) }
{
    out.word(words)?;
    out.number(u128::from(at))
}

// Appends words, a rank, and the number of an operation, a dependency or a note of it.
fn put_pair(out: &mut TextOut, words: &str, rank: u32, number: u32) -> Result<(), NoMemory>
    ensures { OnOk result (out.new ≡ out.old ++ (words.now ++ pair_text rank number)) }
{
    out.word(words)?;
    out.pair(rank, number)
}
