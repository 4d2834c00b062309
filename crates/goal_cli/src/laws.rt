//! Laws of the top call. The functions do nothing: a proof cites a law by a call.
ghost use Rattle.std.specs.Prelude.{◌≡◌, ◌⊎◌, ◌<◌, ℕ, Bool, true, List, length, Option, None, Ok, IsSomeAnd, IfSome};
ghost use Rattle.goal_base.specs.Device.{file_of};
ghost use Rattle.goal_graph.specs.Schedule.{Plan};
ghost use Rattle.sim_params.specs.Costs.{Numbers, CostModel};
ghost use Rattle.sim_classes.specs.Machine.{MachineModel, numbers_of};
ghost use Rattle.sim_classes.specs.Form.{machine};
ghost use Rattle.goal_words.specs.Words.{Command, Sim, Nodes, Compile};
ghost use Rattle.goal_input.specs.Input.{IsReadAs};
ghost use Rattle.goal_cli.specs.Output.{Input, IsOutput, IsRefused};
ghost use Rattle.goal_cli.specs.Laws.{IsCertify, IsSameMachine, ForInput, Answers, IsSilent, line_at};
ghost use Rattle.goal_views.specs.Views.{IsPrintedRun};
ghost use Rattle.goal_cli.specs.Refusal.{refused_line};
ghost use Rattle.goal_cli.specs.World.{World, without_err};
ghost use Rattle.goal_cli.specs.Answer.{input_in, machine_in, target_of, ForRead, ReadsFaulted, IsReadOut, GrowsByPart, Elsewhere, WritesRose, GetsPartOfOutput, IsUntouched, IsWritten, IsCause, line_for, status_of, Says, Answered};
ghost use Rattle.goal_cli.specs.declared.answer.Answer.{Answer};
ghost use Rattle.goal_cli.specs.declared.answer.Ending.{Ending};
ghost use Rattle.goal_cli.specs.declared.answer.Refusal.{Refusal};
ghost use Rattle.goal_cli.specs.declared.answer.Status.{Status};

use crate::answer::{Ending, Status};
use goal_blocks::laws_of_faults;
use sim_classes::laws_of_machines;

/// The output is a function of the schedule and the parameters.
///
/// - `one_run`: a schedule has one printed run with given costs, and one status.
/// - `same_output`: two inputs that mean the same schedule, and for `nodes` the same machine, give the same bytes and
///   status. The output of a command without an input is a function of its words.
/// - `compiled_again`: the file that `compile` writes means the same schedule, so a command does the same with both.
/// - `alike`: if all classes of the machine have the same parameters, `nodes` writes what `sim` writes with these.
pub fn laws_of_outputs()
    ensures one_run { (costs : CostModel) (sched : List Plan) (one other : List ℕ) (stuck waits : Bool)
        → IsPrintedRun costs sched one stuck → IsPrintedRun costs sched other waits
        → (one ≡ other) × (stuck ≡ waits) }
    ensures same_output { (c : Command) (input again : Input) (sched : List Plan) (one other : List ℕ) (e d : Ending)
        → IsReadAs input.schedule sched → IsReadAs again.schedule sched → IsSameMachine c input again
        → IsOutput c input one e → IsOutput c again other d → (one ≡ other) × (e ≡ d) }
    ensures compiled_again { (name out : List ℕ) (input : Input) (output : List ℕ) (e : Ending) (sched : List Plan)
        → IsReadAs input.schedule sched → IsOutput (Compile name out) input output e → IsReadAs output sched }
    ensures alike { (name text : List ℕ) (input : Input) (m : MachineModel) (p : Numbers) (output : List ℕ) (e : Ending)
        → machine input.machine ≡ Ok m → ((class : ℕ) → class < length m.classes → numbers_of m class ≡ p)
        → IsOutput (Nodes name text) input output e → IsOutput (Sim name p) input output e }
{
    laws_of_faults();
    laws_of_machines();
}

/// What each status of an answered command line means, and what leads to it.
///
/// - `bad_line`, `bad_line_exact`: the words are no command line.
/// - `read_fault`, `read_risen`, `absent_risen`, `absent_name`, `absent_machine`: the host failed, or no file is named
///   NAME, or MACHINE for `nodes`. Only a command with an input can end so.
/// - `refused`: the command refuses its input or its words, and `err` gets the words of the refusal. `machine_read`: if
///   the command has a machine, that was read to its end before.
/// - `write_fault`, `write_risen`, `file_risen`: writing failed, after a part of the output.
/// - `done`, `stuck`, `not_certified`: the output was written whole, and no output is left open; `stuck` for a run in
///   which an operation has no end, `not_certified` for a fault of certification. `only_certify`: only `certify` ends
///   so.
/// - `part`, `silent`, `elsewhere`: at most a part of the output is written, and nothing if there is none. The device
///   to which the command does not write is unchanged: only `compile` changes a file, and only OUT.
/// - `says`, `says_nothing`, `says_part`: `err` gets the line of the status. `says_failed`: if `err` counted a fault,
///   the status is still that of an answer whose cause holds, and `err` got a part of its line.
pub fn laws_of_answers()
    ensures bad_line { (command : Option Command) (old new : World) (result : Status) → Answered command old new result
        → result ≡ Status.BadLine → command ≡ None }
    ensures bad_line_exact { (command : Option Command) (old new : World) (result : Status) → Answered command old new result
        → command ≡ None → Answers result Status.BadLine }
    ensures read_fault { (command : Option Command) (old new : World) (result : Status) → Answered command old new result
        → result ≡ Status.ReadFault
        → IsSomeAnd command (ReadsFaulted old.host new.host) }
    ensures read_risen { (command : Option Command) (old new : World) (result : Status) → Answered command old new result
        → old.host.read_count < new.host.read_count → Answers result Status.ReadFault }
    ensures absent_risen { (command : Option Command) (old new : World) (result : Status) → Answered command old new result
        → old.host.absent_count < new.host.absent_count → Answers result Status.ReadFault }
    ensures absent_name { (command : Option Command) (old new : World) (result : Status) → Answered command old new result
        → IfSome (input_in command) (λ name. old.host.tells ≡ true → file_of old.host name ≡ None
        → Answers result Status.ReadFault) }
    ensures absent_machine { (command : Option Command) (old new : World) (result : Status) → Answered command old new result
        → IfSome (machine_in command) (λ name. old.host.tells ≡ true → file_of old.host name ≡ None
        → Answers result Status.ReadFault) }
    ensures refused { (command : Option Command) (old new : World) (result : Status) → Answered command old new result
        → result ≡ Status.Refused → (refusal : Refusal)
        × ForInput command old.host (λ c input. IsRefused c input refusal)
        × Says old.err new.err (refused_line refusal) }
    ensures machine_read { (command : Option Command) (old new : World) (result : Status) → Answered command old new result
        → result ≡ Status.Refused → IsReadOut old.host new.host (machine_in command) }
    ensures write_fault { (command : Option Command) (old new : World) (result : Status) → Answered command old new result
        → result ≡ Status.WriteFault → IsSomeAnd command (λ c. WritesRose (without_err old) (without_err new) (target_of c)
        × ForRead old.host c (GetsPartOfOutput (without_err old) (without_err new) c)) }
    ensures write_risen { (command : Option Command) (old new : World) (result : Status) → Answered command old new result
        → old.out.count < new.out.count → Answers result Status.WriteFault }
    ensures file_risen { (command : Option Command) (old new : World) (result : Status) → Answered command old new result
        → old.host.write_count < new.host.write_count → Answers result Status.WriteFault }
    ensures done { (command : Option Command) (old new : World) (result : Status) → Answered command old new result
        → result ≡ Status.Done → IsSomeAnd command (IsWritten (without_err old) (without_err new) Ending.Done) }
    ensures stuck { (command : Option Command) (old new : World) (result : Status) → Answered command old new result
        → result ≡ Status.Stuck → IsSomeAnd command (IsWritten (without_err old) (without_err new) Ending.Stuck) }
    ensures not_certified { (command : Option Command) (old new : World) (result : Status) → Answered command old new result
        → result ≡ Status.NotCertified → IsSomeAnd command (IsWritten (without_err old) (without_err new) Ending.NotCertified) }
    ensures only_certify { (command : Option Command) (old new : World) (result : Status) → Answered command old new result
        → result ≡ Status.NotCertified → IsSomeAnd command IsCertify }
    ensures part { (command : Option Command) (old new : World) (result : Status) → Answered command old new result
        → IsUntouched (without_err old) (without_err new)
        ⊎ ForInput command old.host (GetsPartOfOutput (without_err old) (without_err new)) }
    ensures silent { (command : Option Command) (old new : World) (result : Status) → Answered command old new result
        → IsSilent result → IsUntouched (without_err old) (without_err new) }
    ensures elsewhere { (command : Option Command) (old new : World) (result : Status) → Answered command old new result
        → IfSome command (λ c. Elsewhere (without_err old) (without_err new) (target_of c)) }
    ensures says { (command : Option Command) (old new : World) (result : Status) → Answered command old new result
        → IfSome (line_at result) (λ line. Says old.err new.err line) }
    ensures says_nothing { (command : Option Command) (old new : World) (result : Status) → Answered command old new result
        → (result ≡ Status.Done) ⊎ (result ≡ Status.Stuck) ⊎ (result ≡ Status.NotCertified) → new.err ≡ old.err }
    ensures says_part { (command : Option Command) (old new : World) (result : Status) → Answered command old new result
        → result ≡ Status.NoMemory → (answer : Answer)
        × IsCause (without_err old) (without_err new) command answer × GrowsByPart old.err new.err (line_for answer) }
    ensures says_failed { (command : Option Command) (old new : World) (result : Status) → Answered command old new result
        → old.err.count < new.err.count → (answer : Answer)
        × IsCause (without_err old) (without_err new) command answer × (result ≡ status_of answer) × GrowsByPart old.err new.err (line_for answer) }
{}
