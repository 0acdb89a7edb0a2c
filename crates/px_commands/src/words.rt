// The words after the program's name.
ghost use Rattle.std.specs.Prelude.{◌≡◌, ◌<◌, ◌≤◌, not, map, string_bytes, IfSome, IsNone, List, None, Some, ℕ};
ghost use Rattle.px_commands.specs.Words.{IsPass, IsCheck, IsExercise, IsServe, IsShow, count_in_word, is_flag_word, most_of, no_flags, number_in_word, workers_of};

use px_base::read_decimal;

/// The words of `pass`.
#[derive(Clone, Copy)]
pub struct PassWords<'w> {
    /// The name of the configuration's main file.
    pub config: &'w str,
    /// The name of the file with the origins' answers.
    pub origin: &'w str,
    /// The name of the file that what was sent is put into.
    pub sent: &'w str,
    /// The client's tags.
    pub tags: &'w [String],
}

/// Reads `pass CONFIG ORIGIN SENT [TAG]...`, where no word after the first begins with `-`.
pub fn read_pass(words: &[String]) -> Option<PassWords<'_>>
    ensures pass { IfSome result (λ p. IsPass (map string_bytes words.now) p.config.now p.origin.now p.sent.now (map string_bytes p.tags.now)) }
    ensures other { IsNone result → (config origin sent : List ℕ) → (tags : List (List ℕ)) → ¬ IsPass (map string_bytes words.now) config origin sent tags }
{
    if words.len() < 4 || words[0].as_str() != "pass" || has_flag(&words[1..]) {
        return None;
    }
    Some(PassWords {
        config: words[1].as_str(),
        origin: words[2].as_str(),
        sent: words[3].as_str(),
        tags: &words[4..],
    })
}

/// Reads `check CONFIG`. It gives the name of the configuration's main file.
pub fn read_check(words: &[String]) -> Option<&str>
    ensures check { IfSome result (λ config. IsCheck (map string_bytes words.now) config.now) }
    ensures other { IsNone result → (config : List ℕ) → ¬ IsCheck (map string_bytes words.now) config }
{
    if words.len() != 2 || words[0].as_str() != "check" || has_flag(&words[1..]) {
        return None;
    }
    Some(words[1].as_str())
}

/// The words of `show`.
#[derive(Clone, Copy)]
pub struct ShowWords<'w> {
    /// The name of the configuration's main file.
    pub config: &'w str,
    pub url: &'w str,
    /// The client's tags.
    pub tags: &'w [String],
}

/// Reads `show CONFIG URL [TAG]...`, where no word after the first begins with `-`.
pub fn read_show(words: &[String]) -> Option<ShowWords<'_>>
    ensures show { IfSome result (λ w. IsShow (map string_bytes words.now) w.config.now w.url.now (map string_bytes w.tags.now)) }
    ensures other { IsNone result → (config url : List ℕ) → (tags : List (List ℕ)) → ¬ IsShow (map string_bytes words.now) config url tags }
{
    if words.len() < 3 || words[0].as_str() != "show" || has_flag(&words[1..]) {
        return None;
    }
    Some(ShowWords {
        config: words[1].as_str(),
        url: words[2].as_str(),
        tags: &words[3..],
    })
}

/// Reads `exercise N`, where N is 0 to 2,147,483,647, of one to ten digits.
pub fn read_exercise(words: &[String]) -> Option<u32>
    ensures exercise { IfSome result (λ n. IsExercise (map string_bytes words.now) n) }
    ensures other { IsNone result → (n : ℕ) → ¬ IsExercise (map string_bytes words.now) n }
{
    if words.len() != 2 || words[0].as_str() != "exercise" {
        return None;
    }
    match read_number(words[1].as_bytes(), 2_147_483_647) {
        Some(number) => Some(number as u32),
        None => None,
    }
}

/// The words of `serve`.
#[derive(Clone, Copy)]
pub struct ServeWords<'w> {
    /// The name of the configuration's main file.
    pub config: &'w str,
    /// How many connections are served at once: 1 to 64.
    pub workers: u32,
    /// The most connections that are served.
    pub most: u64,
}

/// Reads `serve CONFIG [WORKERS [CONNECTIONS]]`, where WORKERS is 1 to 64 and CONNECTIONS 1 to 4,294,967,295, each of at most ten
/// digits. Without WORKERS there are 8, and without CONNECTIONS there is no end to them.
pub fn read_serve(words: &[String]) -> Option<ServeWords<'_>>
    ensures serve { IfSome result (λ w. IsServe (map string_bytes words.now) w.config.now w.workers w.most) }
    ensures some { IfSome result (λ w. 0 < w.workers) }
    ensures at_most { IfSome result (λ w. w.workers ≤ 64) }
    ensures other { IsNone result → (config : List ℕ) (workers most : ℕ) → ¬ IsServe (map string_bytes words.now) config workers most }
{
    if words.len() < 2 || words[0].as_str() != "serve" || has_flag(&words[1..]) {
        return None;
    }
    match read_counts(&words[2..]) {
        Some((workers, most)) => Some(ServeWords {
            config: words[1].as_str(),
            workers: workers as u32,
            most,
        }),
        None => None,
    }
}

/// WORKERS and CONNECTIONS: how many connections are served at once, and at most.
fn read_counts(words: &[String]) -> Option<(u64, u64)>
    ensures workers { IfSome result (λ n. workers_of (map string_bytes words.now) ≡ Some n.0) }
    ensures most { IfSome result (λ n. most_of (map string_bytes words.now) ≡ Some n.1) }
    ensures some { IfSome result (λ n. 0 < n.0) }
    ensures at_most { IfSome result (λ n. n.0 ≤ 64) }
    ensures none { IsNone result → most_of (map string_bytes words.now) ≡ None }
{
    match words {
        [] => Some((8, u64::MAX)),
        [workers] => {
            let workers = read_count(workers.as_bytes(), 64)?;
            Some((workers, u64::MAX))
        }
        [workers, connections] => {
            let workers = read_count(workers.as_bytes(), 64)?;
            let most = read_count(connections.as_bytes(), 4_294_967_295)?;
            Some((workers, most))
        }
        _ => None,
    }
}

/// A number up to `most`, of one to ten digits.
fn read_number(word: &[u8], most: u64) -> Option<u64>
    ensures value { result ≡ number_in_word most word.now }
    ensures within { IfSome result (λ n. n ≤ most) }
{
    if word.len() > 10 {
        return None;
    }
    read_decimal(word, most)
}

/// A number from 1 to `most`, of one to ten digits.
fn read_count(word: &[u8], most: u64) -> Option<u64>
    ensures value { result ≡ count_in_word most word.now }
    ensures some { IfSome result (λ n. 0 < n) }
    ensures within { IfSome result (λ n. n ≤ most) }
{
    match read_number(word, most) {
        Some(0) => None,
        number => number,
    }
}

/// Whether a word begins with `-`.
fn has_flag(words: &[String]) -> bool
    ensures { result ≡ not (no_flags (map string_bytes words.now)) }
{
    'words: for word in words {
        if begins_with_dash(word.as_bytes()) {
            return true;
        }
    }
    false
}

fn begins_with_dash(word: &[u8]) -> bool
    ensures { result ≡ is_flag_word word.now }
{
    !word.is_empty() && word[0] == b'-'
}
