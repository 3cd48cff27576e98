//! The usage line and the help text.

ghost use Rattle.std.specs.Prelude.{◌≡◌};
ghost use Rattle.show_words.specs.Usage as usage;

const HELP_TEXT: &[u8] = b"\
Writes an accepted report as a page: each proof as a tree of clauses, each step in words.\n\
Says of each goal that prove leaves open where its proof stops, and what is near there.\n\n\
usage: spike-show page FILE REPORT [--goal NAME]    a report in HTML\n\
\x20      spike-show text FILE REPORT [--goal NAME]    a report in plain text\n\
\x20      spike-show open FILE [OPTION..]              the open goals, in plain text\n\n\
FILE is a specification, and REPORT what spike prove, refute or trim wrote for it.\n\n\
\x20 --goal NAME     show the goal of this name alone\n\
\x20 --depth D       of open: the depth of the values that are tried, at most 8 (3)\n\
\x20 --tries T       of open: the substitutions that are tried, at most 1000000 (10000)\n\
\x20 --steps B       of open: the rule uses that a side may cost, at most 100000 (1000)\n\
\x20 --plain L       of open: the length of a plain proof, at most 1000 (500)\n\
\x20 --nodes K       of open: the nodes of a routine proof, at most 10000 (2000)\n\n\
exit status: 0 what was asked for is written, 3 FILE isn't accepted or has no goal NAME,\n\
or a file is too long, 4 REPORT isn't accepted, 5 a file can't be read,\n\
6 the output can't be written, 7 the words are no command, 8 out of memory,\n\
9 a word isn't UTF-8\n";

/// The line for words that ask for nothing.
pub fn usage_line() -> &'static [u8]
    ensures { result.now ≡ usage.usage_line }
{
    b"usage: spike-show page|text FILE REPORT [--goal NAME], spike-show open FILE [OPTION..]\n"
}

/// The text for words that ask for help.
#[tactic(auto, unfolding(crate::specs::Usage::help_text))]
pub fn help_text() -> &'static [u8]
    ensures { result.now ≡ usage.help_text }
{
    HELP_TEXT
}
