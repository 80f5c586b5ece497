//! The program `acetool`: the top call over the words of the command line, files and the
//! standard streams.
#![tactic(auto)]

use ace_batch::Entry;
use ace_call::read_words;
use ace_cover_script::generate;
use ace_io::{Failed, NoMemory, StdSink, StdSource};
use ace_retry::Patient;
use ace_terminal::{
    Clearing, Painter, Progress, Tally, Watched, is_painted, is_screen, shows_colours, split_wish,
};
use ace_tool::{
    CheckOptions, Checks, Folder, OpenErr, Shelf, acetool, batch, chart, cover, merge, result_in,
    tell_no_memory,
};
use std::alloc::Global;
use std::fs::{File, OpenFile};
use std::io::{ErrorKind, IsTerminal, Stdin, Write};
use std::process::ExitCode;
use std::{fs, io};

/// A reader whose reading is shown.
type Shown<'a, T> = Watched<'a, Patient<T>, HostRuntime>;

/// The files of the machine. Those of a batch are counted, and else their reading is shown.
#[derive(Drop)]
struct Disk<'a> {
    rt: &'a HostRuntime,
    progress: &'a Progress<'a, HostRuntime>,
    is_batch: bool,
    tally: Tally<'a, HostRuntime>,
}

impl<'a> Disk<'a> {
    /// The file of this name, whose reading is shown where that is wanted.
    fn shown(&self, file: File, name: &str) -> Shown<'a, File> {
        if self.is_batch || !self.progress.shows() {
            return Watched::new(Patient::new(file), None, "", 0);
        }
        let size = match file.metadata() {
            Ok(metadata) => metadata.len(),
            Err(_) => 0,
        };
        Watched::new(Patient::new(file), Some(self.progress), name, size)
    }
}

impl<'a> Folder for Disk<'a> {
    type File = StdSource<Shown<'a, File>>;

    ghost use Rattle.ace_tool.specs.Held.{Untold};

    ghost holds = { λ _ _. Untold };

    fn open(&self, name: &str) -> Result<StdSource<Shown<'a, File>>, OpenErr> {
        match fs::open(self.rt, name) {
            Ok(file) => Ok(StdSource::new(self.shown(file, name))),
            Err(error) => Err(match error.kind() {
                ErrorKind::NotFound => OpenErr::NotThere,
                ErrorKind::InvalidFilename => OpenErr::NoName,
                ErrorKind::PermissionDenied => OpenErr::NotAllowed,
                _ => OpenErr::Failed,
            }),
        }
    }
}

impl<'a> Checks for Disk<'a> {
    ghost use Rattle.ace_tool.specs.Held.{Untold};

    ghost knows = { λ _ _. Untold };

    fn result_of(
        &self,
        alloc: Global,
        path: &str,
        options: &CheckOptions<'_>,
    ) -> Result<Entry, NoMemory> {
        let result = result_in(alloc, self, path, options);
        self.tally.add(match &result {
            Ok(entry) => entry.outcome.status() != 0,
            Err(_) => true,
        });
        result
    }
}

/// Writes files of the machine.
#[derive(Drop)]
struct Writer<'a> {
    rt: &'a HostRuntime,
    faults: u64,
}

impl<'a> Shelf for Writer<'a> {
    ghost use Rattle.std.specs.Prelude.{None};

    ghost written = { λ _. None };

    ghost faults = { λ w. w.faults };

    fn put(&mut self, name: &str, text: &[u8]) -> Result<(), Failed> {
        if write_file(self.rt, name, text).is_ok() {
            return Ok(());
        }
        self.faults = self.faults.saturating_add(1);
        Err(Failed)
    }
}

/// Writes the file of this name whole.
fn write_file(rt: &HostRuntime, name: &str, text: &[u8]) -> io::Result<()> {
    let mut file = Patient::new(fs::create(rt, name)?);
    file.write_all(text)?;
    file.flush()
}

/// Standard input, whose reading is shown where it is no terminal and that is wanted.
fn shown_input<'a>(rt: &HostRuntime, progress: &'a Progress<'a, HostRuntime>) -> Shown<'a, Stdin> {
    let input = rt.stdin();
    if progress.shows() && !input.is_terminal() {
        Watched::new(Patient::new(input), Some(progress), "<stdin>", 0)
    } else {
        Watched::new(Patient::new(input), None, "", 0)
    }
}

/// Whether the words ask for a batch.
fn is_batch(words: &[String]) -> bool {
    match words.split_first() {
        Some((word, _)) => word.as_str() == "batch",
        None => false,
    }
}

fn main(rt: HostRuntime) -> ExitCode {
    let progress = Progress::new(&rt, is_screen(&rt, &rt.stderr()));
    let mut notes = Clearing::new(StdSink::new(Patient::new(rt.stderr())), &progress);
    let Some(words) = read_words(&rt) else {
        return ExitCode::from(tell_no_memory(&mut notes));
    };
    let (when, words) = split_wish(words.as_slice());
    let paints = is_painted(when, words, shows_colours(&rt, &rt.stdout()));
    let told = Clearing::new(StdSink::new(Patient::new(rt.stdout())), &progress);
    let mut out = Painter::new(rt.alloc(), told, paints);
    let mut input = StdSource::new(shown_input(&rt, &progress));
    let files = Disk {
        rt: &rt,
        progress: &progress,
        is_batch: is_batch(words),
        tally: Tally::new(&progress),
    };
    let status = match words {
        [word, second, rest @ ..] if word.as_str() == "batch" && second.as_str() == "--merge" => {
            merge(rt.alloc(), rest, &files, &mut out, &mut notes)
        }
        [word, rest @ ..] if word.as_str() == "batch" => batch(
            &rt,
            rt.alloc(),
            rest,
            &files,
            &files,
            &mut Writer { rt: &rt, faults: 0 },
            &mut input,
            &mut out,
            &mut notes,
        ),
        [word, rest @ ..] if word.as_str() == "chart" => chart(
            rt.alloc(),
            rest,
            &files,
            &mut Writer { rt: &rt, faults: 0 },
            &mut input,
            &mut out,
            &mut notes,
        ),
        [word, rest @ ..] if word.as_str() == "cover" => {
            cover(rt.alloc(), rest, &files, &mut input, &mut out, &mut notes)
        }
        [word, rest @ ..] if word.as_str() == "gen" => {
            generate(rt.alloc(), rest, &mut out, &mut notes)
        }
        words => acetool(rt.alloc(), words, &files, &mut input, &mut out, &mut notes),
    };
    progress.wipe();
    ExitCode::from(status)
}
