// Breaches that are noted apart.
ghost use Rattle.std.specs.Prelude.{◌≡◌, is_none};

use op_manifest::Shape;

/// Whether none is noted.
pub fn is_unbroken(found: &Option<Shape>) -> bool
    ensures { result ≡ is_none found.now }
{
    match found {
        Some(_) => false,
        None => true,
    }
}
