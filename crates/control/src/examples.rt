// The worked examples, established together.
ghost use Rattle.control.specs.Examples.{Examples};

// The worked examples hold of the definitions.
pub fn examples_hold()
    ensures { Examples }
{}
