//! Laws of the meaning of an input.
ghost use Rattle.std.specs.Prelude.{◌≡◌, ◌≢◌, ℕ, List};
ghost use Rattle.goal_graph.specs.Schedule.{Plan};
ghost use Rattle.goal_input.specs.declared.input_fault.InputFault.{InputFault};
ghost use Rattle.goal_input.specs.declared.input_fault.InputFault.TheVariants.{NoMemory};
ghost use Rattle.goal_input.specs.Input.{IsReadAs};
ghost use Rattle.goal_input.specs.InputFaults.{IsFaultIn};

/// An input means one schedule or has one fault, and never both. So what `read_schedule` returns for a file is all that
/// it could return, except for `NoMemory`.
pub fn laws_of_inputs()
    ensures one_schedule { (input : List ℕ) (p q : List Plan) → IsReadAs input p → IsReadAs input q → p ≡ q }
    ensures one_fault { (input : List ℕ) (f g : InputFault) → f ≢ NoMemory → g ≢ NoMemory → IsFaultIn input f → IsFaultIn input g → f ≡ g }
    ensures not_both { (input : List ℕ) (p : List Plan) (f : InputFault) → f ≢ NoMemory → IsReadAs input p → IsFaultIn input f → ⊥ }
{}
