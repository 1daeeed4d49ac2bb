//! What a line asks of the shell itself.

ghost use Rattle.std.specs.Prelude.{◌≡◌, false};
ghost use Rattle.std.specs.Char.{is_ascii_whitespace};
ghost use Rattle.std.specs.List.{list_all};
ghost use Rattle.sw_shell.specs.Lines.{is_command, is_quit};
ghost use Rattle.sw_shell.specs.Commands.{quits};

/// What a line asks of the shell itself.
#[derive(Clone, Copy, PartialEq, Eq)]
pub enum Command<'l> {
    /// `.help`
    Help,
    /// `.names`
    Names,
    /// `.stats`
    Stats,
    /// `.times`
    Times,
    /// `.write FILE`
    Write(&'l str),
    /// `.history FILE`
    History(&'l str),
    /// `.quit`
    Quit,
    /// A command that wants the name of a file, and has none.
    Nameless,
    /// Any other.
    Unknown,
}

/// Whether a line is for the shell itself, and no call: it begins with a dot.
pub(crate) fn is_command(line: &[u8]) -> bool
    ensures { result ≡ is_command line.now }
{
    match line.first() {
        Some(byte) => *byte == b'.',
        None => false,
    }
}

/// Whether some bytes are white space alone.
fn is_white(bytes: &[u8]) -> bool
    ensures { result ≡ list_all is_ascii_whitespace bytes.now }
{
    bytes.iter().all(|byte| byte.is_ascii_whitespace())
}

/// Whether a line ends the shell: it is `.quit`, and what stands behind that is white space.
fn is_quit(line: &[u8]) -> bool
    ensures { result ≡ is_quit line.now }
{
    match line.strip_prefix(b".quit".as_slice()) {
        Some(rest) => is_white(rest),
        None => false,
    }
}

/// The command of a word that takes no file, and does not end the shell.
fn plain(word: &str) -> Command<'static>
    ensures { quits result ≡ false }
{
    match word {
        ".help" => Command::Help,
        ".names" => Command::Names,
        ".stats" => Command::Stats,
        ".times" => Command::Times,
        ".write" | ".history" => Command::Nameless,
        _ => Command::Unknown,
    }
}

/// The command of a word and the name of a file behind it.
fn with_file<'l>(word: &str, file: &'l str) -> Command<'l>
    ensures { quits result ≡ false }
{
    match word {
        ".write" => Command::Write(file),
        ".history" => Command::History(file),
        _ => Command::Unknown,
    }
}

/// The command of a line that does not end the shell.
fn other(line: &[u8]) -> Command<'_>
    ensures { quits result ≡ false }
{
    let Ok(text) = std::str::from_utf8(line) else {
        return Command::Unknown;
    };
    let text = text.trim_ascii();
    match text.split_once(' ') {
        Some((word, file)) => with_file(word, file.trim_ascii()),
        None => plain(text),
    }
}

impl Command<'_> {
    /// The command of a line: a word, and the name of a file behind a space where it takes one. The name may have spaces; those
    /// around it, and other white space behind the line, are not of it.
    pub fn read(line: &[u8]) -> Command<'_>
        ensures { quits result ≡ is_quit line.now }
    {
        if is_quit(line) {
            return Command::Quit;
        }
        other(line)
    }
}
