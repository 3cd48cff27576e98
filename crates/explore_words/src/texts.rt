//! The usage line and the help text.

ghost use Rattle.std.specs.Prelude.{◌≡◌};
ghost use Rattle.explore_words.specs.Usage as usage;

const HELP_TEXT: &[u8] = b"\
Looks for proofs of the goals that prove leaves open, and for lemmas that they need.\n\n\
usage: spike-explore text FILE [OPTION..]      the text of FILE with the lemmas as further goals\n\
\x20      spike-explore report FILE [OPTION..]    the report on that text\n\n\
FILE is a specification. The report is accepted by spike replay on the text, and each lemma is\n\
proved in it. If nothing is found, they are the text of FILE and the report of spike prove.\n\n\
\x20 --goal NAME     look for lemmas for the goal of this name alone\n\
\x20 --work W        units of work for each stage, at most 1000000000 (1000000)\n\
\x20 --size S        compare terms of at most this many symbols, from 1 to 12 (7)\n\
\x20 --samples N     compare terms on this many random values, from 1 to 200 (30)\n\
\x20 --no-lemmas     look for no lemmas: try each goal alone by the freer search\n\
\x20 --quiet         say nothing of the progress on standard error\n\n\
exit status: 0 every goal of the text is proved, 1 a goal is refuted, 2 a goal is open,\n\
3 FILE isn't accepted or is too long, 5 FILE can't be read, 6 the output can't be written,\n\
7 the words are no command, 8 out of memory, 9 a word isn't UTF-8\n";

/// The line for words that ask for nothing.
pub fn usage_line() -> &'static [u8]
    ensures { result.now ≡ usage.usage_line }
{
    b"usage: spike-explore text|report FILE [--goal NAME] [--work W] [--size S] \
      [--samples N] [--no-lemmas] [--quiet]\n"
}

/// The text for words that ask for help.
#[tactic(auto, unfolding(crate::specs::Usage::help_text))]
pub fn help_text() -> &'static [u8]
    ensures { result.now ≡ usage.help_text }
{
    HELP_TEXT
}
