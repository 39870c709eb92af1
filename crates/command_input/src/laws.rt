// The laws, as theorems.
ghost use Rattle.command_input.specs.Unrefused.{NoneRefused};

/// The question of `gen` is refused for no seed and no number of rows. It does nothing.
pub fn generated_laws()
    ensures { NoneRefused }
{}
