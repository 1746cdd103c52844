//! The program as a process of the system: over readers and writers of std, with an exit code.

ghost use Rattle.std.specs.Prelude.{◌≡◌, [], ◌∷◌, ◌++◌, map, None, IfOk};
ghost use Rattle.std.specs.Process.{exit_status};
ghost use Rattle.std.specs.String.{string_bytes};
ghost use Rattle.std.specs.Vec.Iter.{into_iter_items, into_iter_len};
ghost use Rattle.weave_base.specs.Statuses.{code_of};
ghost use Rattle.weave_cli.specs.Answers.{Answers};
ghost use Rattle.weave_cli.specs.Arguments.{words_after_name};

use crate::tool::tool;
use std::alloc::{AllocError, Global};
use std::env::Args;
use std::io::{self, Eprint, Read, Write};
use std::process::{ExitCode, Termination};
use weave_base::{DirFiles, Files, Sink, Source, Status, StdSink, StdSource};

/// How the program ended: its status, and the files and streams as it left them. Only `run` makes one.
#[derive(Drop)]
pub struct Ended<R, I, O, E> {
    status: Status,
    files: DirFiles<R>,
    input: StdSource<I>,
    out: StdSink<O>,
    err: StdSink<E>,
}

impl<R: Drop, I: Drop, O: Drop, E: Drop> Termination for Ended<R, I, O, E> {
    fn report<P: Eprint>(self, _rt: &P) -> ExitCode
        ensures { exit_status result ≡ code_of self.status }
    {
        ExitCode::from(self.status.code())
    }
}

/// The words after the program's name. Where the system gives no arguments, there are no words.
fn words_of(alloc: Global, arguments: io::Result<Args>) -> Result<Vec<String>, AllocError>
    ensures { IfOk result (λ words. words.items ≡ words_after_name arguments) }
{
    match arguments {
        Ok(all) => after_name(alloc, all),
        Err(_) => Ok(Vec::new(alloc)),
    }
}

/// All arguments but the first.
fn after_name(alloc: Global, arguments: Args) -> Result<Vec<String>, AllocError>
    ensures { IfOk result (λ words. words.items ≡ words_after_name (Ok arguments)) }
{
    let mut rest = arguments;
    match rest.next() {
        Some(_name) => rest_of(alloc, rest),
        None => Ok(Vec::new(alloc)),
    }
}

/// All arguments that are left.
fn rest_of(alloc: Global, arguments: Args) -> Result<Vec<String>, AllocError>
    ensures { IfOk result (λ words. words.items ≡ into_iter_items arguments) }
{
    let mut rest = arguments;
    let mut words = Vec::new(alloc);
    while let Some(word) = rest.next() {
        words.push(word)?;
    }
    Ok(words)
}

/// Answers the arguments, of which the first is the program's name.
fn answer<F: Files, S: Source, K: Sink, E: Sink>(
    alloc: Global,
    arguments: io::Result<Args>,
    files: &mut F,
    input: &mut S,
    out: &mut K,
    err: &mut E,
) -> Status
    ensures answers { Answers (map string_bytes (words_after_name arguments))
        (record { contents = F.contents files.old; faults_before = F.faults files.old; faults_after = F.faults files.new; last_failed = F.last_failed files.new })
        (record { before = K.held out.old; after = K.held out.new; faults_before = K.faults out.old; faults_after = K.faults out.new })
        (record { before = E.held err.old; after = E.held err.new; faults_before = E.faults err.old; faults_after = E.faults err.new }) result }
    ensures input { S.left input.new ≡ S.left input.old }
{
    match words_of(alloc, arguments) {
        Ok(words) => tool(alloc, &words, files, input, out, err),
        Err(AllocError) => Status::NoMemory,
    }
}

/// Runs the program on its arguments, of which the first is its name, over these files and streams.
pub fn run<R: std::rt::Files, I: Read, O: Write, E: Write>(
    alloc: Global,
    arguments: io::Result<Args>,
    files: R,
    input: I,
    out: O,
    err: E,
) -> Ended<R, I, O, E>
    ensures answers { Answers (map string_bytes (words_after_name arguments))
        (record { contents = None; faults_before = 0; faults_after = ⟦<DirFiles<R> as Files>⟧.faults result.files; last_failed = ⟦<DirFiles<R> as Files>⟧.last_failed result.files })
        (record { before = O.contents out; after = ⟦<StdSink<O> as Sink>⟧.held result.out; faults_before = 0; faults_after = ⟦<StdSink<O> as Sink>⟧.faults result.out })
        (record { before = E.contents err; after = ⟦<StdSink<E> as Sink>⟧.held result.err; faults_before = 0; faults_after = ⟦<StdSink<E> as Sink>⟧.faults result.err }) result.status }
    ensures input { ⟦<StdSource<I> as Source>⟧.left result.input ≡ I.remaining input }
{
    let mut files = DirFiles::new(files);
    let mut input = StdSource::new(input);
    let mut out = StdSink::new(out);
    let mut err = StdSink::new(err);
    let status = answer(alloc, arguments, &mut files, &mut input, &mut out, &mut err);
    Ended {
        status,
        files,
        input,
        out,
        err,
    }
}
