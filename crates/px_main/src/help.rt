// What the program says of itself: the answers to `--help` and `--version`, which stand alone.
ghost use Rattle.std.specs.Prelude.{◌≡◌, ◌⊎◌, codes, map, option_copied, string_bytes, IfSome, IsTrue, Some, [], ◌∷◌};

/// The answer to `--version`: the number that the file VERSION has.
pub const VERSION: &[u8] = b"helmthread 0.1.0
";

/// The answer to `--help`: each word with a sentence and an example.
pub const HELP: &[u8] = b"helmthread: a filtering HTTP proxy

helmthread serve CONFIG [WORKERS [CONNECTIONS]]
    Filters what browsers and other clients ask for, at the listen-address of
    CONFIG, until it is stopped. It serves WORKERS connections side by side (1 to
    64, else 8), and ends after CONNECTIONS of them, where that is given.
    As in: helmthread serve conf/config 64

helmthread check CONFIG
    Loads the configuration of the main file CONFIG, and prints its notes and
    counts, or the place of its first fault.
    As in: helmthread check conf/config

helmthread show CONFIG URL [TAG]...
    Prints the sections that match an address or one of a client's tags, and the
    actions that they set.
    As in: helmthread show conf/config http://ads.example.net/offer

helmthread pass CONFIG ORIGIN SENT [TAG]...
    Serves its input as one client, with the answers of servers that the file
    ORIGIN has, and puts what was sent to them into the file SENT.
    As in: helmthread pass conf/sample/config conf/sample/origin /tmp/sent < conf/sample/input

helmthread exercise N
    Runs a job of 1,000 sections and 1,000 requests that is made from the number
    N, and prints its counts.
    As in: helmthread exercise 7

helmthread --help
    Prints this text.

helmthread --version
    Prints the version.

Exit status: 0 done, 1 the configuration doesn't load, 2 wrong words, 3 a read
fault, 4 a write fault, 5 out of memory, 6 the URL of show isn't one, 7 serve
can't listen or accept, 8 ORIGIN is missing, too large or not of its format.

docs/MANUAL.md says how a configuration is written.
";

/// What the words ask the program to say of itself: where `--help` or `--version` stands alone.
pub fn asked_text(words: &[String]) -> Option<&'static [u8]>
    ensures help { map string_bytes words.now ≡ codes "--help" ∷ [] → option_copied result ≡ Some HELP.now }
    ensures version { map string_bytes words.now ≡ codes "--version" ∷ [] → option_copied result ≡ Some VERSION.now }
    ensures only { IfSome result (λ _. (map string_bytes words.now ≡ codes "--help" ∷ []) ⊎ (map string_bytes words.now ≡ codes "--version" ∷ [])) }
{
    if is_alone(words, "--help") {
        Some(HELP)
    } else if is_alone(words, "--version") {
        Some(VERSION)
    } else {
        None
    }
}

/// Whether the words are this one alone.
fn is_alone(words: &[String], word: &str) -> bool
    ensures alone { IsTrue result → map string_bytes words.now ≡ word.now ∷ [] }
    ensures other { map string_bytes words.now ≡ word.now ∷ [] → IsTrue result }
{
    match words {
        [only] => only.as_str() == word,
        _ => false,
    }
}
