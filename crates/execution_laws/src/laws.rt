//! Laws of executions: each is the clause of a function without a body.

ghost use Rattle.execution_laws.specs.ExecutionLaws.{DoubtOnExecutionsIsDoubt, DoubtIsAtReachedPoints, ReachedEndlessIsDoubtful};
ghost use Rattle.execution_laws.specs.ExecutionLaws.{ExecutionsAreReached, UndoubtedExecutionsFinish, ExecutionsExtend};
ghost use Rattle.execution_laws.specs.ExecutionLaws.{DeadOnExecutionsIsSafe, ReadBehindIsRead, DeadVariablesAreSafeOnExecutions};

/// Doubt on executions is doubt, at a reached point, and begins where a reached point cannot finish.
pub fn doubt_on_executions_is_doubt()
    ensures doubt { DoubtOnExecutionsIsDoubt }
    ensures reached { DoubtIsAtReachedPoints }
    ensures endless { ReachedEndlessIsDoubtful }
{}

/// From a point that is not doubtful on executions each execution that comes through it can be brought to its end.
pub fn executions_extend()
    ensures reached { ExecutionsAreReached }
    ensures finishing { UndoubtedExecutionsFinish }
    ensures extended { ExecutionsExtend }
{}

/// Where a variable is not live at a point that is not doubtful on executions, no execution reads it behind that point before
/// writing it, also where the execution never ends: of any problem, and of every program.
pub fn dead_on_executions_is_safe()
    ensures shapes { DeadOnExecutionsIsSafe }
    ensures programs { DeadVariablesAreSafeOnExecutions }
    ensures runs { ReadBehindIsRead }
{}
