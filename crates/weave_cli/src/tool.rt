//! The program as a function of its words and its outside.

ghost use Rattle.std.specs.Prelude.{◌≡◌, ℕ, ◌≤◌, List, map, Some, IfOk, option_map};
ghost use Rattle.std.specs.String.{string_bytes};
ghost use Rattle.weave_base.specs.declared.status.Status.TheVariants as status;
ghost use Rattle.weave_cli.specs.Commands.{weave_file, usage_line, refusal_line, no_place};
ghost use Rattle.weave_cli.specs.Answers.{Answers, Told};

use crate::first_form::woven_text;
use c_lexer::{Place, Refusal};
use itoa::Buffer;
use std::alloc::{AllocError, Global};
use weave_base::{Failed, FileFault, Files, Sink, Source, Status};

/// The most bytes that a source may have.
const MAX_SOURCE: u64 = 262_144;

const USAGE: &[u8] = b"usage: weave_cli COMMAND [OPTIONS] FILE [YA ..]\n";

const NO_PLACE: Place = Place { line: 0, column: 0 };

/// The file of the words `weave FILE`.
fn file_word(words: &[String]) -> Option<&str>
    ensures { option_map (λ file. file.now) result ≡ weave_file (map string_bytes words.now) }
{
    match words {
        [command, file] if command.as_str() == "weave" && !file.as_str().starts_with('-') => {
            Some(file.as_str())
        }
        _ => None,
    }
}

/// The line that tells of a broken rule.
fn refusal_line_of(alloc: Global, refusal: Refusal, file: &str) -> Result<Vec<u8>, AllocError>
    ensures { IfOk result (λ line. line.items ≡ refusal_line refusal.code file.now refusal.place) }
{
    let mut buffer = Buffer::new();
    let mut line = Vec::from_slice(alloc, b"refused ")?;
    line.extend_from_slice(buffer.format(refusal.code).as_bytes())?;
    line.extend_from_slice(b" ")?;
    line.extend_from_slice(file.as_bytes())?;
    line.extend_from_slice(b" ")?;
    line.extend_from_slice(buffer.format(refusal.place.line).as_bytes())?;
    line.extend_from_slice(b":")?;
    line.extend_from_slice(buffer.format(refusal.place.column).as_bytes())?;
    line.extend_from_slice(b"\n")?;
    Ok(line)
}

/// Writes a text whole, and answers the status that is due with it.
fn tell<K: Sink>(out: &mut K, text: &[u8], due: Status) -> Status
    ensures told { Told text.now due (record { before = K.held out.old; after = K.held out.new; faults_before = K.faults out.old; faults_after = K.faults out.new }) result }
    ensures later { K.faults out.old ≤ K.faults out.new }
{
    match out.put(text) {
        Ok(()) => due,
        Err(Failed) => Status::WriteFault,
    }
}

/// Tells of a broken rule, which isn't at a place.
fn refuse<E: Sink>(alloc: Global, err: &mut E, code: u16, file: &str) -> Status
    ensures told { Told (refusal_line code file.now no_place) status.Refused (record { before = E.held err.old; after = E.held err.new; faults_before = E.faults err.old; faults_after = E.faults err.new }) result }
    ensures later { E.faults err.old ≤ E.faults err.new }
{
    let refusal = Refusal {
        code,
        place: NO_PLACE,
    };
    match refusal_line_of(alloc, refusal, file) {
        Ok(line) => tell(err, &line, Status::Refused),
        Err(_) => Status::NoMemory,
    }
}

/// Weaves the file.
fn weave_file_to<F: Files, K: Sink, E: Sink>(
    alloc: Global,
    file: &str,
    files: &mut F,
    out: &mut K,
    err: &mut E,
) -> Status
    ensures answers { (words : List (List ℕ)) → weave_file words ≡ Some file.now → Answers words
        (record { contents = F.contents files.old; faults_before = F.faults files.old; faults_after = F.faults files.new; last_failed = F.last_failed files.new })
        (record { before = K.held out.old; after = K.held out.new; faults_before = K.faults out.old; faults_after = K.faults out.new })
        (record { before = E.held err.old; after = E.held err.new; faults_before = E.faults err.old; faults_after = E.faults err.new }) result }
    ensures files { F.contents files.new ≡ F.contents files.old }
    ensures files_later { F.faults files.old ≤ F.faults files.new }
    ensures out_later { K.faults out.old ≤ K.faults out.new }
    ensures err_later { E.faults err.old ≤ E.faults err.new }
{
    let text = match files.load(alloc, file, MAX_SOURCE) {
        Ok(text) => text,
        Err(FileFault::Failed) => return Status::ReadFault,
        Err(FileFault::TooLong) => return refuse(alloc, err, 100, file),
        Err(FileFault::Memory) => return Status::NoMemory,
    };
    match woven_text(alloc, &text) {
        Ok(Some(woven)) => tell(out, &woven, Status::Done),
        Ok(None) => refuse(alloc, err, 190, file),
        Err(_) => Status::NoMemory,
    }
}

/// Runs the program on the words after its name. `input` is left as it is: weaving reads files alone.
pub fn tool<F: Files, S: Source, K: Sink, E: Sink>(
    alloc: Global,
    words: &[String],
    files: &mut F,
    input: &mut S,
    out: &mut K,
    err: &mut E,
) -> Status
    ensures answers { Answers (map string_bytes words.now)
        (record { contents = F.contents files.old; faults_before = F.faults files.old; faults_after = F.faults files.new; last_failed = F.last_failed files.new })
        (record { before = K.held out.old; after = K.held out.new; faults_before = K.faults out.old; faults_after = K.faults out.new })
        (record { before = E.held err.old; after = E.held err.new; faults_before = E.faults err.old; faults_after = E.faults err.new }) result }
    ensures input { S.left input.new ≡ S.left input.old }
    ensures files { F.contents files.new ≡ F.contents files.old }
    ensures files_later { F.faults files.old ≤ F.faults files.new }
    ensures input_later { S.faults input.old ≤ S.faults input.new }
    ensures out_later { K.faults out.old ≤ K.faults out.new }
    ensures err_later { E.faults err.old ≤ E.faults err.new }
{
    match file_word(words) {
        None => tell(err, USAGE, Status::Words),
        Some(file) => weave_file_to(alloc, file, files, out, err),
    }
}
