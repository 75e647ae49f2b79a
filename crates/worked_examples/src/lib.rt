//! Worked examples, as one theorem about the definitions.
#![tactic(auto)]

ghost use Rattle.worked_examples.specs.Examples.{WorkedExamples};

/// The worked examples hold.
pub fn worked_examples_hold() -> u8
    ensures { WorkedExamples }
{
    0
}
