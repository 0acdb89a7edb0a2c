// What is printed is read back.
ghost use Rattle.std.specs.Prelude.{◌≡◌, ℕ, List, Some};
ghost use Rattle.px_base.specs.Ports.{port};
ghost use Rattle.px_dial_names.specs.Printed.{IsPrintable, IsDialNameOf, printed};

/// A dial name that is printed is read back: as a dial name of that server's host, its port and that target, whatever bytes
/// the target has.
pub fn printed_names_are_read()
    ensures { (host digits target : List ℕ) (p : ℕ) → IsPrintable host digits → port digits ≡ Some p → IsDialNameOf (printed host digits target) host p target }
{}
