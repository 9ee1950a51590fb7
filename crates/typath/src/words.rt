//! What the words after the program's name ask for, and what the program prints.

ghost use Rattle.std.specs.Prelude.{◌≡◌, map};
ghost use Rattle.std.specs.String.{string_bytes};
ghost use Rattle.typath.specs.Asked.{asked_by, asked_of};

use typed_path::LineError;

/// What `--help` prints.
pub const HELP: &str = "\
typath answers lines about paths: a line on standard input, a reply on standard output.
The fields of a line are parted by one TAB, and a DIALECT is unix or windows.

  components       DIALECT PATH          what a path is made of
  normalize        DIALECT PATH          without ., .. and what these take away
  join             DIALECT BASE PATH     a base, and a path put onto it
  join_checked     DIALECT BASE PATH     the same, refused where the path leads out
  convert          DIALECT DIALECT PATH  from one dialect to the other
  convert_checked  DIALECT DIALECT PATH  the same, refused where a name can't be written there
  derive           PATH                  which dialect a path looks like

A reply is ok and its fields, or err and the reason:

  BadLine              the line is none of these
  UnexpectedPrefix     the path has a prefix
  UnexpectedRoot       the path has a root
  PathTraversalAttack  a .. of the path leads out
  InvalidFilename      a name of the path is not allowed, or stands for a device

The status is 0 at the end of the input, 1 where a read or a write failed, and 2 where memory was
refused or the program was called with other words than --help or -h, --version and --.
";

/// What `--version` prints, with the number of the release. `bindings/c/build.sh` writes in the
/// built program, over what is not noted, of which commit and by which kit that was built.
pub const VERSION: &str = "\
typath 0.2.1, a program over typed_path, which ports typed-path 0.13.0\n\
commit:                                             not noted\n\
kit:                                             not noted\n";

/// What is printed if the words ask for nothing that exists.
pub const USAGE: &str =
    "usage: typath [-h | --help | --version | --], with lines on standard input\n";

/// Returns why the program stopped, as it prints it after its name.
pub fn reason(stopped: LineError) -> &'static str {
    match stopped {
        LineError::Read => "standard input: a read failed",
        LineError::Write => "standard output: a write failed",
        LineError::OutOfMemory => "out of memory",
    }
}

/// What the program is asked for.
#[derive(Clone, Copy, Debug, PartialEq, Eq)]
pub enum Asked {
    /// Replies to the lines on standard input.
    Answers,
    /// The table of commands.
    Help,
    /// A line about the program.
    Version,
    /// Nothing that exists.
    Nothing,
}

/// Returns what one word after the program's name asks for.
fn by_word(word: &str) -> Asked
    ensures { result ≡ asked_by word.now }
{
    if word == "--help" || word == "-h" {
        Asked::Help
    } else if word == "--version" {
        Asked::Version
    } else if word == "--" {
        Asked::Answers
    } else {
        Asked::Nothing
    }
}

/// Returns what all words ask for, the first of which is the program's name: replies if there is no
/// other, or `--` alone.
pub fn asked_for(words: &[String]) -> Asked
    ensures { result ≡ asked_of (map string_bytes words.now) }
{
    match words {
        [] | [_] => Asked::Answers,
        [_, word] => by_word(word.as_str()),
        _ => Asked::Nothing,
    }
}
