//! A text that is read in pieces.
ghost use Rattle.std.specs.Prelude.{◌≡◌, ◌≢◌, ℕ, ◌+◌, ◌<◌, ◌^◌, List, [], ◌++◌, length, false, None, Some, Err, OnOk, IfOk, IfErr};
ghost use Rattle.goal_graph.specs.Fault.{IsAccepted};
ghost use Rattle.goal_graph.specs.Widths.{AreInWidth};
ghost use Rattle.goal_parser.specs.Reads.{reads, faulty, plans, IsFaultOf};
ghost use Rattle.goal_parser.specs.FaultInText.{fault_of_plans};

use crate::faults::TextFault;
use crate::reader::Reader;
use crate::token_faults::fault_in_text;
use goal_graph::{PlanFault, Sched};
use std::alloc::Global;

/// Takes a text in pieces, cut at any places, and returns its schedule or its first fault. It keeps no byte of the
/// text, except those of a run that is open. So its contracts speak of each text that it *has read* (`HasRead`): the
/// pieces so far, joined. After a fault it has read no text, and returns the same fault from then on. `laws_of_readers`
/// says what holds of the tokens and bytes of a text that was read.
#[derive(Drop)]
pub struct TextReader {
    alloc: Global,
    reader: Reader,
    fault: Option<TextFault>,

    // If no fault was met, lexer and parser are at the same place, and no run was returned there.
    ghost together: { fault ≡ None → reader.lexer.place ≡ reader.place },
    ghost apart: { fault ≡ None → reader.lexer.ends_run ≡ false },
}

/// Returns the fault of the plans as a fault of the text.
fn fault_of_plans(fault: PlanFault) -> TextFault
    ensures { result ≡ fault_of_plans fault }
{
    match fault {
        PlanFault::NoMemory => TextFault::NoMemory,
        fault => TextFault::Plan(fault),
    }
}

impl TextReader {
    ghost use Rattle.goal_parser.specs.TextRead.{HasRead, bytes_read, fault_met};

    /// Creates a reader that has taken no byte.
    pub fn new(alloc: Global) -> TextReader
        ensures read { HasRead result [] }
        ensures place { bytes_read result ≡ 0 }
    {
        TextReader {
            alloc,
            reader: Reader::new(alloc),
            fault: None,
        }
    }

    /// Takes a piece of the text. The next piece continues after it.
    ///
    /// # Errors
    ///
    /// The first fault of each text that begins with the pieces so far, or `NoMemory`. After a fault, the same fault
    /// again.
    pub fn feed(&mut self, piece: &[u8]) -> Result<(), TextFault>
        // The places are numbers of 64 bits.
        requires place { fault_met self.old ≡ None → bytes_read self.old + length piece.now < 2 ^ 64 }

        // The text is continued by the piece.
        ensures read { OnOk result ((text : List ℕ) → HasRead self.old text → HasRead self.new (text ++ piece.now)) }
        ensures place { OnOk result (bytes_read self.new ≡ bytes_read self.old + length piece.now) }

        // This is the fault of each text that begins so, whatever follows.
        ensures fault { IfErr result (λ f. f ≢ TextFault.NoMemory → (text more : List ℕ) → HasRead self.old text → reads (text ++ piece.now ++ more) ≡ faulty f) }
        ensures kept { IfErr result (λ f. fault_met self.new ≡ Some f) }
        ensures again { (f : TextFault) → fault_met self.old ≡ Some f → result ≡ Err f }
    {
        if let Some(fault) = self.fault {
            return Err(fault);
        }
        match self.reader.feed(piece) {
            Ok(()) => Ok(()),
            Err(fault) => {
                let fault = fault_in_text(fault);
                self.fault = Some(fault);
                Err(fault)
            }
        }
    }

    /// Ends the text, and returns its schedule.
    ///
    /// # Errors
    ///
    /// The first fault of the text, or if it has none, the first fault of its plans; or `NoMemory`. After a fault, the
    /// same fault again.
    pub fn finish(self) -> Result<Sched, TextFault>
        ensures ok { IfOk result (λ sched. (text : List ℕ) → HasRead self text → reads text ≡ plans sched) }
        ensures accepted { IfOk result (λ sched. IsAccepted sched) }
        ensures widths { IfOk result (λ sched. AreInWidth sched) }
        ensures fault { IfErr result (λ f. f ≢ TextFault.NoMemory → (text : List ℕ) → HasRead self text → IsFaultOf (reads text) f) }
        ensures again { (f : TextFault) → fault_met self ≡ Some f → result ≡ Err f }
    {
        let TextReader {
            alloc,
            reader,
            fault,
            ..
        } = self;
        if let Some(fault) = fault {
            return Err(fault);
        }
        let plans = match reader.finish() {
            Ok(plans) => plans,
            Err(fault) => return Err(fault_in_text(fault)),
        };
        match Sched::build(alloc, plans) {
            Ok(sched) => {
                let _plans = sched.plans();
                Ok(sched)
            }
            Err(fault) => Err(fault_of_plans(fault)),
        }
    }
}
