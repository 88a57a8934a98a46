//! What the words of a command line mean, as text.
use pg_words::{Command, Family, FamilyTask, Source, meaning};
use std::alloc::{AllocError, Global};

/// The words of a row, with spaces between them: `<>` is the empty word, and `~` a space.
fn words(alloc: Global, row: &str) -> Result<Vec<String>, AllocError> {
    let mut words = Vec::new(alloc);
    for word in row.split_whitespace() {
        if word == "<>" {
            words.push(String::new(alloc))?;
        } else {
            words.push(word.replace(alloc, "~", " ")?)?;
        }
    }
    Ok(words)
}

/// A game that is made from numbers, by its words.
fn source_text(alloc: Global, source: Source) -> Result<String, AllocError> {
    match source {
        Source::Rows { length } => format!(in alloc; "rows {length}"),
        Source::Bridge { rows } => format!(in alloc; "bridge {rows}"),
        Source::Scatter {
            seed,
            points,
            lines,
            size,
        } => format!(in alloc; "scatter {seed} {points} {lines} {size}"),
    }
}

/// A game that is made, and the certificate where one is.
fn made_text(
    alloc: Global,
    which: Source,
    game: &str,
    certificate: Option<&str>,
) -> Result<String, AllocError> {
    let source = source_text(alloc, which)?;
    match certificate {
        None => format!(in alloc; "{source} <{game}>"),
        Some(certificate) => format!(in alloc; "{source} <{game}> <{certificate}>"),
    }
}

/// What is to be done with a game of a family.
fn family_text(
    alloc: Global,
    family: Family,
    task: FamilyTask,
    game: &str,
    certificate: &str,
) -> Result<String, AllocError> {
    let name = match family {
        Family::Connectivity => "connectivity",
        Family::Vectors => "vectors",
    };
    match task {
        FamilyTask::Solve => format!(in alloc; "{name} solve <{game}> <{certificate}>"),
        FamilyTask::Check => format!(in alloc; "{name} check <{game}> <{certificate}>"),
        FamilyTask::Play { side } => {
            format!(in alloc; "{name} play <{game}> <{certificate}> {}", side.word())
        }
    }
}

/// The words after a command's names: how many positions a search may expand, and whether it may
/// store images.
fn options_text(alloc: Global, positions: Option<u32>, images: bool) -> Result<String, AllocError> {
    let images = if images { " images" } else { "" };
    match positions {
        Some(n) => format!(in alloc; " {n}{images}"),
        None => format!(in alloc; "{images}"),
    }
}

/// A command, with its names in angle brackets.
fn command_text(alloc: Global, command: &Command) -> Result<String, AllocError> {
    match command {
        Command::Solve {
            game,
            certificate,
            positions,
            images,
        } => {
            let options = options_text(alloc, *positions, *images)?;
            format!(in alloc; "solve <{game}> <{certificate}>{options}")
        }
        Command::Check { game, certificate } => {
            format!(in alloc; "check <{game}> <{certificate}>")
        }
        Command::Play {
            game,
            certificate,
            side,
        } => format!(in alloc; "play <{game}> <{certificate}> {}", side.word()),
        Command::Gen {
            which,
            game,
            certificate,
        } => made_text(alloc, *which, game, certificate.as_deref()),
        Command::Report { game, certificate } => {
            format!(in alloc; "report <{game}> <{certificate}>")
        }
        Command::OfFamily {
            family,
            task,
            game,
            certificate,
        } => family_text(alloc, *family, *task, game, certificate),
        Command::Record { game, record } => format!(in alloc; "record <{game}> <{record}>"),
        Command::Review {
            game,
            record,
            positions,
        } => {
            let options = options_text(alloc, *positions, false)?;
            format!(in alloc; "review <{game}> <{record}>{options}")
        }
    }
}

/// What the words of a row mean; `none` where they have no meaning.
fn told(alloc: Global, row: &str) -> Result<String, AllocError> {
    let words = words(alloc, row)?;
    let Ok(meaning) = meaning(alloc, &words) else {
        return String::from_str(alloc, "memory");
    };
    match meaning {
        None => String::from_str(alloc, "none"),
        Some(command) => command_text(alloc, &command),
    }
}

/// Whether the words of the row mean what it says; None where the row can't be read, or no memory
/// is found.
pub(crate) fn is_so(alloc: Global, row: &str) -> Option<bool> {
    let (words, due) = row.split_once("=> ")?;
    Some(told(alloc, words).ok()?.as_str() == due)
}
