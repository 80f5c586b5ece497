// The texts of `cover`.
ghost use Rattle.std.specs.Prelude.{◌≡◌};
ghost use Rattle.ace_tool.specs.CoverTexts.{cover_help};

/// How `cover` is used.
pub(crate) fn cover_help() -> &'static str
    ensures { result.now ≡ cover_help }
{
    "usage: acetool cover [OPTION].. [--] FILE..

Counts what accepted traces exercised: the kinds of transactions, the states that they start from
and end in, the answers to snoops, the rules that could have been broken, and situations. A trace
that is not accepted is named on the standard error and counts for nothing.

  --list FILE      more files, a path a line; `-` is standard input
  --merge          the files are JSON that `acetool cover` wrote, and their counts are added
  --all            names every point that was never hit, not 12 of a group
  --hits           names every point with its count, in place of those that were never hit
  --json           the counts of the points that were hit, as JSON, in place of the table
  --min PERCENT    status 1 where fewer of a hundred points were hit

status: 0 each trace was accepted, and enough was hit; else the first that came of 1 refused, or too
little was hit, 3 malformed, 4 unreadable, 7 no memory; 5 an output failed; 2 these words are wrong,
or there is no file
"
}
