// What answers are in C.

ghost use Rattle.pipeline.specs.InC.{AnswersAreThoseInC};

/// Of every program whose expressions pass the test of `c_meaning::is_same_in_c`: each answer, by choices, on threads or
/// action by action, is what the program does in C without its directives.
pub fn answers_are_those_in_c()
    ensures { AnswersAreThoseInC }
{}
