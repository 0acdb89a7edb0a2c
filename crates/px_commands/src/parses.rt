// The words of a command, which keep its grammar, as clap reads them: each command is a simple one, of words without flags.
// Behind the grammar clap is to refuse for memory alone; that isn't proved, so each of its refusals counts as that.
ghost use Rattle.std.specs.Prelude.{◌≡◌, IfOk};

use crate::words::{PassWords, ServeWords, ShowWords};
use clap::{Arg, ArgAction, ArgMatches, Command};
use px_base::Mem;
use std::alloc::Global;

/// Reads the words of `pass`.
pub fn parse_pass<'w>(
    alloc: Global,
    words: &'w [String],
    pass: PassWords<'w>,
) -> Result<PassWords<'w>, Mem>
    ensures config { IfOk result (λ given. given.config.now ≡ pass.entry.config.now) }
    ensures origin { IfOk result (λ given. given.origin.now ≡ pass.entry.origin.now) }
    ensures sent { IfOk result (λ given. given.sent.now ≡ pass.entry.sent.now) }
    ensures tags { IfOk result (λ given. given.tags ≡ pass.entry.tags) }
{
    let command = simple(alloc, "pass")
        .arg(needed(alloc, "CONFIG"))?
        .arg(needed(alloc, "ORIGIN"))?
        .arg(needed(alloc, "SENT"))?
        .arg(several(alloc, "TAG"))?;
    let matches = matches_of(command, words)?;
    Ok(PassWords {
        config: word_of(&matches, "CONFIG", pass.config)?,
        origin: word_of(&matches, "ORIGIN", pass.origin)?,
        sent: word_of(&matches, "SENT", pass.sent)?,
        tags: pass.tags,
    })
}

/// Reads the words of `check`. It gives the name of the configuration's main file.
pub fn parse_check<'w>(alloc: Global, words: &'w [String], config: &str) -> Result<&'w str, Mem>
    ensures { IfOk result (λ given. given.now ≡ config.now) }
{
    let command = simple(alloc, "check").arg(needed(alloc, "CONFIG"))?;
    let matches = matches_of(command, words)?;
    word_of(&matches, "CONFIG", config)
}

/// Reads the words of `show`.
pub fn parse_show<'w>(
    alloc: Global,
    words: &'w [String],
    show: ShowWords<'w>,
) -> Result<ShowWords<'w>, Mem>
    ensures config { IfOk result (λ given. given.config.now ≡ show.entry.config.now) }
    ensures url { IfOk result (λ given. given.url.now ≡ show.entry.url.now) }
    ensures tags { IfOk result (λ given. given.tags ≡ show.entry.tags) }
{
    let command = simple(alloc, "show")
        .arg(needed(alloc, "CONFIG"))?
        .arg(needed(alloc, "URL"))?
        .arg(several(alloc, "TAG"))?;
    let matches = matches_of(command, words)?;
    Ok(ShowWords {
        config: word_of(&matches, "CONFIG", show.config)?,
        url: word_of(&matches, "URL", show.url)?,
        tags: show.tags,
    })
}

/// Reads the words of `exercise`. It gives the number.
pub fn parse_exercise(alloc: Global, words: &[String], number: u32) -> Result<u32, Mem>
    ensures { IfOk result (λ given. given ≡ number) }
{
    let number_word = needed(alloc, "N").value_parser(clap::value_parser!(u32));
    let command = simple(alloc, "exercise").arg(number_word)?;
    let matches = matches_of(command, words)?;
    match matches.get_one::<u32>("N") {
        Some(given) if given == number => Ok(given),
        Some(_) => Err(Mem),
        None => Err(Mem),
    }
}

/// Reads the words of `serve`.
pub fn parse_serve<'w>(
    alloc: Global,
    words: &'w [String],
    serve: ServeWords<'w>,
) -> Result<ServeWords<'w>, Mem>
    ensures config { IfOk result (λ given. given.config.now ≡ serve.entry.config.now) }
    ensures workers { IfOk result (λ given. given.workers ≡ serve.entry.workers) }
    ensures most { IfOk result (λ given. given.most ≡ serve.entry.most) }
{
    let workers = optional(alloc, "WORKERS").value_parser(clap::value_parser!(u32).range(1..=64));
    let connections = optional(alloc, "CONNECTIONS").value_parser(clap::value_parser!(u32).range(
        1..,
    ));
    let command = simple(alloc, "serve")
        .arg(needed(alloc, "CONFIG"))?
        .arg(workers)?
        .arg(connections)?;
    let matches = matches_of(command, words)?;
    let workers = matches.get_one::<u32>("WORKERS").unwrap_or(8);
    let most = match matches.get_one::<u32>("CONNECTIONS") {
        Some(most) => u64::from(most),
        None => u64::MAX,
    };
    if workers != serve.workers || most != serve.most {
        return Err(Mem);
    }
    Ok(ServeWords {
        config: word_of(&matches, "CONFIG", serve.config)?,
        workers,
        most,
    })
}

/// A command of words alone.
fn simple<'w>(alloc: Global, name: &'w str) -> Command<'w> {
    Command::new(alloc, name).disable_help_flag(true)
}

/// A word that must stand.
fn needed<'w>(alloc: Global, id: &'w str) -> Arg<'w> {
    Arg::new(alloc, id).required(true).action(ArgAction::Set)
}

/// A word that may stand.
fn optional<'w>(alloc: Global, id: &'w str) -> Arg<'w> {
    Arg::new(alloc, id).action(ArgAction::Set)
}

/// Words of which any number may stand.
fn several<'w>(alloc: Global, id: &'w str) -> Arg<'w> {
    Arg::new(alloc, id).num_args(0..).action(ArgAction::Append)
}

/// What clap finds in the words of a command.
fn matches_of<'w>(command: Command<'w>, words: &'w [String]) -> Result<ArgMatches<'w>, Mem> {
    command.try_get_matches_from(words).map_err(|_| Mem)
}

/// The word that clap gives for an id: the one that the grammar has there.
fn word_of<'w>(matches: &ArgMatches<'w>, id: &str, word: &str) -> Result<&'w str, Mem>
    ensures { IfOk result (λ given. given.now ≡ word.now) }
{
    match matches.get_str(id) {
        Some(given) if given == word => Ok(given),
        Some(_) => Err(Mem),
        None => Err(Mem),
    }
}
