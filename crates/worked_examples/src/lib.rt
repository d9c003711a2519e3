//! Worked examples of the rules, as one statement about the definitions that the contracts cite.
#![tactic(auto)]

ghost use Rattle.worked_examples.specs.Examples.{Examples};

/// States that the worked examples hold.
pub fn examples_hold()
    ensures { Examples }
{}
