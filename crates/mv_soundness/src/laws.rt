// What holds of each run over accepted modules.

ghost use Rattle.mv_soundness.specs.Guided.Published.{RunsAreFaultless, StatesHold};

/// Over a store of accepted modules and a typed storage, no run of a typed call meets a fault, whatever its budget, and the
/// storage that it returns is again typed.
pub fn runs_are_faultless()
    ensures { RunsAreFaultless }
{}

/// Each state that such a run comes to is as the modules' certificates say: in every frame the locals that are called
/// available hold values, and the edges cover the live references.
pub fn states_hold()
    ensures { StatesHold }
{}
