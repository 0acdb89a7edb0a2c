// What the definitions say of one another.
ghost use Rattle.std.specs.Prelude.{◌≡◌, ℕ, List, Some};
ghost use Rattle.px_base.specs.DialNames.{Server};
ghost use Rattle.px_dial_names.specs.Printed.{IsDialNameOf};
ghost use Rattle.px_decide.specs.Servers.{dial_name, named_server};

use px_dial_names::printed_names_are_read;

/// The dial name of a target behind a server that a forward line names is read back: as a dial name of that server's host, its
/// port and that target, whatever bytes the target has.
pub fn dial_names_are_read()
    ensures { (word target : List ℕ) (server : Server) → named_server word ≡ Some server → IsDialNameOf (dial_name server target) server.host server.port target }
{
    printed_names_are_read();
}
