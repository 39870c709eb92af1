// What the definition of the tables comes to.
ghost use Rattle.generated_input.specs.Examples.{OfSeven};

/// What is made from the number 7. It does nothing.
pub fn examples()
    ensures { OfSeven }
{}
