// The texts that say how the program is used.
ghost use Rattle.std.specs.Prelude.{◌≡◌};
ghost use Rattle.ace_tool.specs.Texts.{check_help, explain_help, help, rule_help, version};

/// How all commands are used.
pub(crate) fn help() -> &'static str
    ensures { result.now ≡ help }
{
    "usage: acetool COMMAND [OPTION].. [FILE]..

Checks traces of AMBA ACE. The verdict is always that of `ace check`.

  check [FILE]..   the verdict on each trace
  batch FILE..     the same of many traces, in threads, with a summary and files for a CI
  cover FILE..     what accepted traces exercised, and what none of them did
  explain [FILE]   why a trace is refused: the event, the rule, and the clause of it that is broken
  chart [FILE]     a sequence chart of one line of a trace, as SVG
  gen --cover N    a script that is made from N, whose run exercises much; `ace run` runs it
  rule [NAME]..    what a rule asks: K12 with its clauses, or K12d; without a name the rules

FILE is a trace; `-`, or no file, is standard input. `acetool COMMAND --help` tells more, and
`acetool --version` the version. Before COMMAND `--color always`, `never` or `auto` says whether
check, batch, explain and rule tell in colours; else they do on a terminal.
"
}

/// How `check` is used.
pub(crate) fn check_help() -> &'static str
    ensures { result.now ≡ check_help }
{
    "usage: acetool check [OPTION].. [--] [FILE]..

Says of each trace what `ace check` says of it, in a line FILE: VERDICT, and of standard input the
verdict alone. It has no limits but those that are asked for. Where the side file of an accepted
trace says that the recording is broken off, the trace is unfinished. A note tells how many
transactions are outstanding at the end of an accepted trace, if any are.

  --most-events N  a trace may have N events at most
  --most-lines N   a trace may name N lines at most
  --side FILE      the side file of the one trace; that of a FILE is else FILE.side, if it is there
  --no-side        no side file is read
  --require-end    a trace without a side file is unfinished
  --allow-cut      a recording that was cut on demand is whole
  --drained        a trace that ends with transactions outstanding is unfinished

status: 0 each trace was accepted, and none is unfinished; else the first that came of 1 refused,
3 malformed, 8 unfinished, 6 a limit, 4 unreadable, 7 no memory; 5 an output failed; 2 these words
are wrong
"
}

/// How `explain` is used.
pub(crate) fn explain_help() -> &'static str
    ensures { result.now ≡ explain_help }
{
    "usage: acetool explain [OPTION].. [--] [FILE]

Says of the trace what `ace check` says, after FILE:LINE:, and what is wrong there. Of a refused
trace it tells the event that is the first to break a rule, and the clause of the rule that is
broken; and by its side file when events are, what ports and lines are called in the design, and
what is remarked. Of an accepted trace it tells by that whether the recording is whole.

  --short          the first line alone
  --json           all that there is to say as a JSON object in one line
  --side FILE      the side file; that of a FILE is else FILE.side, if it is there
  --no-side        no side file is read
  --require-end, --allow-cut, --drained, --most-events N, --most-lines N
                   as of check

status: 0 accepted, 1 refused, 3 malformed, 8 unfinished, 6 a limit, 4 unreadable, 7 no memory;
5 the output failed; 2 these words are wrong
"
}

/// How `rule` is used.
pub(crate) fn rule_help() -> &'static str
    ensures { result.now ≡ rule_help }
{
    "usage: acetool rule [NAME]..

Tells each rule that is named, as K12, with its clauses, where each is kept and what is wrong where
it is broken, and where to look first then. K12d names one clause of it. Without a name it tells
what the rules are called.

status: 0 it was told, 7 no memory; 5 the output failed; 2 these words are wrong
"
}

/// The version of the program.
pub(crate) fn version() -> &'static str
    ensures { result.now ≡ version }
{
    "acetool 1.0.0\n"
}
