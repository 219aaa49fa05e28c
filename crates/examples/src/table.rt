// The table of the examples.
ghost use Rattle.examples.specs.Examples.{Examples};

// Carries the examples: what the rules say of each is what the definitions compute.
pub fn examples_stand()
    ensures { Examples }
{}
