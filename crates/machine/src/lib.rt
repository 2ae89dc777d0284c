// A machine of small steps that computes the written meaning of a parse: `specs` states it, and an engine is proved
// against it step by step.
#![tactic(auto)]

ghost use Rattle.machine.specs.Laws.{StepsKeep, StepsFall, Computes};

/// Each step of the machine keeps what it still comes to, and leaves less to do; so it ends with what the parse means.
pub fn machine_computes()
    ensures keep { StepsKeep }
    ensures fall { StepsFall }
    ensures computes { Computes }
{}
