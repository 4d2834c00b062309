//! An input that comes piece by piece.
ghost use Rattle.std.specs.Prelude.{◌≡◌, ◌<◌, ◌≤◌, ℕ, ◌+◌, ◌^◌, List, [], ◌++◌, length, true, false, IfOk, IfErr, OnOk};
ghost use Rattle.goal_limits.specs.declared.limits.TheConstants.{MAX_INPUT};
ghost use Rattle.goal_input.specs.Input.{is_compiled, IsReadAs};
ghost use Rattle.goal_input.specs.InputFaults.{IsFaultIn};
ghost use Rattle.goal_input.specs.Follows.{Follows};

use crate::input_fault::InputFault;
use goal_binary::{FileFault, MAGIC, decode};
use goal_graph::Sched;
use goal_limits::NoMemory;
use goal_parser::{TextFault, TextReader};
use std::alloc::Global;

/// What is kept of an input so far. The first byte decides: a text goes to its reader, and the bytes of a compiled file
/// are collected.
#[derive(Drop)]
pub enum Intake {
    /// No byte came.
    Nothing,
    /// The reader of a text, with the first fault that it met.
    Text(TextReader),
    /// The bytes of a compiled file.
    File(Vec<u8>),
}

/// Returns whether an input is a compiled file: it begins with the first byte of the magic number.
fn is_compiled(input: &[u8]) -> bool
    ensures { result ≡ is_compiled input.now }
{
    match input.first() {
        Some(byte) => *byte == MAGIC[0],
        None => false,
    }
}

/// Takes a piece of a text. The reader keeps the first fault that it meets until the end.
fn feed(reader: &mut TextReader, piece: &[u8]) -> Result<(), NoMemory>
    requires place { (input : List ℕ) × Follows reader.old input × (length input + length piece.now < 2 ^ 64) }
    ensures { OnOk result ((input : List ℕ) → Follows reader.old input → Follows reader.new (input ++ piece.now)) }
{
    match reader.feed(piece) {
        Ok(()) => Ok(()),
        Err(TextFault::NoMemory) => Err(NoMemory),
        Err(_) => Ok(()),
    }
}

/// Returns the schedule of a text, which ends here.
fn finish_text(reader: TextReader) -> Result<Sched, InputFault>
    ensures read { IfOk result (λ sched. (input : List ℕ) → length input ≤ MAX_INPUT → is_compiled input ≡ false → Follows reader input → IsReadAs input sched) }
    ensures input_fault { IfErr result (λ input_fault. (input : List ℕ) → length input ≤ MAX_INPUT → is_compiled input ≡ false → Follows reader input → IsFaultIn input input_fault) }
{
    match reader.finish() {
        Ok(sched) => Ok(sched),
        Err(TextFault::NoMemory) => Err(InputFault::NoMemory),
        Err(fault) => Err(InputFault::Text(fault)),
    }
}

/// Returns the schedule of a compiled file.
fn finish_file(alloc: Global, input: &[u8]) -> Result<Sched, InputFault>
    ensures read { IfOk result (λ sched. length input.now ≤ MAX_INPUT → is_compiled input.now ≡ true → IsReadAs input.now sched) }
    ensures input_fault { IfErr result (λ input_fault. length input.now ≤ MAX_INPUT → is_compiled input.now ≡ true → IsFaultIn input.now input_fault) }
{
    match decode(alloc, input) {
        Ok(sched) => Ok(sched),
        Err(FileFault::NoMemory) => Err(InputFault::NoMemory),
        Err(fault) => Err(InputFault::File(fault)),
    }
}

impl Intake {
    ghost use Rattle.goal_input.specs.Intake.{Stands, HasRoom};

    /// Takes the first piece, which is not empty.
    fn begin(alloc: Global, piece: &[u8]) -> Result<Intake, NoMemory>
        requires some { 0 < length piece.now }
        ensures { IfOk result (λ intake. Stands intake piece.now) }
    {
        if is_compiled(piece) {
            let mut bytes = Vec::new(alloc);
            bytes.extend_from_slice(piece)?;
            Ok(Intake::File(bytes))
        } else {
            let mut reader = TextReader::new(alloc);
            feed(&mut reader, piece)?;
            Ok(Intake::Text(reader))
        }
    }

    /// Takes a piece, which is not empty. `Err` means out of memory.
    pub fn take(self, alloc: Global, piece: &[u8]) -> Result<Intake, NoMemory>
        requires some { 0 < length piece.now }
        requires room { HasRoom self piece.now }
        ensures { IfOk result (λ intake. (input : List ℕ) → Stands self input → Stands intake (input ++ piece.now)) }
    {
        match self {
            Intake::Nothing => Intake::begin(alloc, piece),
            Intake::Text(mut reader) => {
                feed(&mut reader, piece)?;
                Ok(Intake::Text(reader))
            }
            Intake::File(mut bytes) => {
                bytes.extend_from_slice(piece)?;
                Ok(Intake::File(bytes))
            }
        }
    }

    /// Ends the input, and returns its schedule or why it gives none.
    pub fn finish(self, alloc: Global) -> Result<Sched, InputFault>
        ensures read { IfOk result (λ sched. (input : List ℕ) → length input ≤ MAX_INPUT → Stands self input → IsReadAs input sched) }
        ensures input_fault { IfErr result (λ input_fault. (input : List ℕ) → length input ≤ MAX_INPUT → Stands self input → IsFaultIn input input_fault) }
    {
        match self {
            Intake::Nothing => finish_text(TextReader::new(alloc)),
            Intake::Text(reader) => finish_text(reader),
            Intake::File(bytes) => finish_file(alloc, &bytes),
        }
    }
}
