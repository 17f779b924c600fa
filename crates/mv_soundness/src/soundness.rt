// What a step does from a typed state over accepted modules.

ghost use Rattle.mv_soundness.specs.Typing.Laws.{EveryStepIsTyped};

/// A step from a typed state leads to a typed state, and meets no fault of types, links or dangling references, if no live
/// reference leads into what it removes.
pub fn every_step_is_typed()
    ensures { EveryStepIsTyped }
{}
