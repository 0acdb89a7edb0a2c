// What the constants are that the definitions cite.
ghost use Rattle.std.specs.Prelude.{◌≡◌, ◌∷◌, [], Some};
ghost use Rattle.px_host_lists.specs.declared.TheConstants.{BYTE_LIMIT};
ghost use Rattle.px_config.specs.Mains.{directive_of, row_of};
ghost use Rattle.px_config.specs.declared.directives.Directive.TheVariants as directive;
ghost use Rattle.px_config.specs.declared.directives.Directive.{Directive};

use crate::directives::DIRECTIVES;
use crate::mains::{DEFAULT_PATTERNS, MOST_PATTERNS};
use crate::names::{FILES_OF_A_KIND, SLASH};
use crate::sets::{FILE_LIMIT, LIST_LIMIT};

/// The most files of a kind, bytes of a file and patterns, what stands between a folder and a name, and the directives.
/// Each is found by its name.
pub fn constants()
    ensures files { FILES_OF_A_KIND ≡ 16 }
    ensures bytes { FILE_LIMIT ≡ 1048576 }
    ensures list_bytes { LIST_LIMIT ≡ BYTE_LIMIT }
    ensures default_patterns { DEFAULT_PATTERNS ≡ 20000 }
    ensures most_patterns { MOST_PATTERNS ≡ 40000 }
    ensures slash { SLASH ≡ 47 }
    ensures table { DIRECTIVES ≡
        directive.ActionsFile ∷ directive.FilterFile ∷ directive.HostList ∷ directive.Confdir ∷ directive.Templdir ∷ directive.ListenAddress
        ∷ directive.BufferLimit ∷ directive.Forward ∷ directive.ForwardSocks5 ∷ directive.ForwardSocks5t
        ∷ directive.ForwardSocks4 ∷ directive.ForwardSocks4a ∷ directive.EmptyReturnsOk ∷ directive.Toggle
        ∷ directive.LinkReuse ∷ directive.AccessLog ∷ directive.PatternLimit ∷ directive.ClientTag ∷ [] }
    ensures directives { (directive : Directive) → directive_of (row_of directive).name ≡ Some directive }
{}
