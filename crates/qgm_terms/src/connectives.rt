// AND and OR as calls: one path where an operator would make two.
ghost use Rattle.std.specs.Prelude.{◌≡◌, ◌&&◌, ◌||◌};

/// Whether one of two holds.
pub fn either(a: bool, b: bool) -> bool
    ensures { result ≡ (a || b) }
{
    a || b
}

/// Whether both hold.
pub fn both(a: bool, b: bool) -> bool
    ensures { result ≡ (a && b) }
{
    a && b
}
