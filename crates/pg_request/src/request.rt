//! A request: words, input and files.
ghost use Rattle.std.specs.Prelude.{◌≡◌, IfOk, map, string_bytes};
ghost use Rattle.std.specs.Str.Lossy.{utf8_lossy};
ghost use Rattle.pg_request.specs.Request.{files_of, first_of, others_of, request_of, shown};

use crate::parts::cut;
use pg_base::Memory;
use pg_io::Text;
use std::alloc::Global;

/// What a program is run on.
#[derive(Drop)]
pub struct Request {
    /// The words, the program's name first.
    pub words: Vec<String>,
    /// What the console of the run reads.
    pub input: Text,
    /// The files that are there, each a name and its bytes.
    pub files: Vec<(Text, Text)>,
}

/// Returns a copy of a text.
fn copy_of(alloc: Global, text: &Text) -> Result<Text, Memory>
    ensures { IfOk result (λ copy. copy ≡ text.now) }
{
    Text::new(alloc, text.as_slice())
}

/// Returns the parts as words. Bytes that aren't UTF-8 are replaced as in Rust's `from_utf8_lossy`.
fn words_of(alloc: Global, parts: &[Text]) -> Result<Vec<String>, Memory>
    ensures { IfOk result (λ words. map string_bytes words.items ≡ map utf8_lossy parts.now) }
{
    let mut words = Vec::new(alloc);
    for part in parts {
        words.push(String::from_utf8_lossy(alloc, part.as_slice())?)?;
    }
    Ok(words)
}

/// Returns the files whose names and bytes are the parts, in turns. A last name without bytes
/// isn't used.
fn files_of(alloc: Global, parts: &[Text]) -> Result<Vec<(Text, Text)>, Memory>
    ensures { IfOk result (λ files. files.items ≡ files_of parts.now) }
{
    let mut files = Vec::new(alloc);
    let mut left = parts;
    while let [name, bytes, others @ ..] = left {
        let file = (copy_of(alloc, name)?, copy_of(alloc, bytes)?);
        files.push(file)?;
        left = others;
    }
    Ok(files)
}

/// Returns a copy of the first part, or no bytes if there is none.
fn first_of(alloc: Global, parts: &[Text]) -> Result<Text, Memory>
    ensures { IfOk result (λ text. text ≡ first_of parts.now) }
{
    match parts {
        [] => Text::new(alloc, &[]),
        [first, ..] => copy_of(alloc, first),
    }
}

/// Returns the parts after the first.
fn others_of(parts: &[Text]) -> &[Text]
    ensures { result.now ≡ others_of parts.now }
{
    match parts {
        [] => parts,
        [_, others @ ..] => others,
    }
}

impl Request {
    /// Reads a request: bytes are cut into parts of these lengths; the first `count` parts are the
    /// words, the next one is the input, and the others are files, names and bytes in turns.
    ///
    /// # Errors
    ///
    /// `Memory` if memory runs out.
    pub fn read(
        alloc: Global,
        count: usize,
        lengths: &[usize],
        bytes: &[u8],
    ) -> Result<Request, Memory>
        ensures { IfOk result (λ request. shown request ≡ request_of count lengths.now bytes.now) }
    {
        let parts = cut(alloc, lengths, bytes)?;
        let (words, others) = parts.split_at(count.min(parts.len()));
        Ok(Request {
            words: words_of(alloc, words)?,
            input: first_of(alloc, others)?,
            files: files_of(alloc, others_of(others))?,
        })
    }
}
