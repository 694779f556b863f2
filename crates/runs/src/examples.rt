// The worked examples of what the method says of a list of calls.
ghost use Rattle.runs.specs.Examples.{Examples};

// They hold of the definitions.
pub fn judging_examples_hold()
    ensures { Examples }
{}
