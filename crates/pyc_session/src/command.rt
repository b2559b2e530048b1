//! What a command line spells.

ghost use Rattle.std.specs.Prelude.{◌≡◌, ◌+◌, ◌≤◌, ◌<◌, ◌^◌, ◌∷◌, [], true, length, MatchOption, IfSome};
ghost use Rattle.std.specs.List.{slice_split, position_from, list_all};
ghost use Rattle.std.specs.Char.{is_ascii_digit};
ghost use Rattle.pyc_session.specs.Command.{is_space, is_number, number_of, single_of, path_command_of};
ghost use Rattle.pyc_session.specs.Command.{file_command_of, words_of, command_of, said, spelled};

/// The most bytes that a command line may have, without its end.
pub const LONGEST_LINE: usize = 512;

/// The most digits that a number of bytes may have.
pub const MOST_DIGITS: usize = 10;

/// A command of a session.
#[derive(Clone, Copy, Debug, PartialEq, Eq)]
pub enum Command<'a> {
    /// `add PATH N`: the next N bytes are a file.
    Add { path: &'a [u8], size: usize },
    /// `change PATH N`: the same, for a file that is present.
    Change { path: &'a [u8], size: usize },
    /// `add PATH N` or `change PATH N` with more digits than any file needs.
    Endless,
    /// `update PATH`: the source hands over the bytes of the file.
    Update { path: &'a [u8] },
    /// `remove PATH`
    Remove { path: &'a [u8] },
    /// `check`
    Check,
    /// `status`
    Status,
    /// `stop`
    Stop,
    /// Anything else.
    Unknown,
}

/// The command that a line spells.
#[tactic(auto, unfolding(crate::specs::Command::spelled))]
pub fn parse(line: &[u8]) -> Command<'_>
    ensures { said result ≡ spelled line.now }
{
    if line.len() > LONGEST_LINE {
        return Command::Unknown;
    }
    let (word, rest) = cut_word(line);
    match rest {
        None => single_command(word),
        Some(rest) => longer_command(word, rest),
    }
}

/// The first word of a line, and what stands after the space that ends it.
fn cut_word(line: &[u8]) -> (&[u8], Option<&[u8]>)
    ensures { MatchOption result.1 (slice_split is_space line.now ≡ result.0.now ∷ [])
        (λ rest. slice_split is_space line.now ≡ result.0.now ∷ slice_split is_space rest.now) }
{
    match space_in(line) {
        Some(end) => (&line[..end], Some(&line[end + 1..])),
        None => (line, None),
    }
}

/// Where the first space stands.
fn space_in(line: &[u8]) -> Option<usize>
    ensures place { result ≡ position_from is_space 0 line.now }
    ensures within { IfSome result (λ end. end < length line.now) }
{
    line.iter().position(|b| *b == b' ')
}

/// A command of one word.
#[tactic(auto, unfolding(crate::specs::Command::single_of))]
fn single_command(word: &[u8]) -> Command<'_>
    ensures { said result ≡ single_of word.now }
{
    if word == b"check".as_slice() {
        Command::Check
    } else if word == b"status".as_slice() {
        Command::Status
    } else if word == b"stop".as_slice() {
        Command::Stop
    } else {
        Command::Unknown
    }
}

/// A command of two words or more.
#[tactic(auto, using(crate::proofs::CommandWords::many_words))]
fn longer_command<'a>(word: &[u8], rest: &'a [u8]) -> Command<'a>
    ensures { said result ≡ command_of (word.now ∷ words_of rest.now) }
{
    let (path, rest) = cut_word(rest);
    let Some(rest) = rest else {
        return path_command(word, path);
    };
    let (count, rest) = cut_word(rest);
    match rest {
        Some(_) => Command::Unknown,
        None => file_command(word, path, count),
    }
}

/// A command with a path.
#[tactic(auto, unfolding(crate::specs::Command::path_command_of))]
fn path_command<'a>(word: &[u8], path: &'a [u8]) -> Command<'a>
    ensures { said result ≡ path_command_of word.now path.now }
{
    if path.is_empty() {
        Command::Unknown
    } else if word == b"update".as_slice() {
        Command::Update { path }
    } else if word == b"remove".as_slice() {
        Command::Remove { path }
    } else {
        Command::Unknown
    }
}

/// A command with a path and a number.
#[tactic(auto, unfolding(crate::specs::Command::file_command_of, crate::specs::Command::counted_command_of))]
fn file_command<'a>(word: &[u8], path: &'a [u8], count: &[u8]) -> Command<'a>
    ensures { said result ≡ file_command_of word.now path.now count.now }
{
    let is_add = word == b"add".as_slice();
    if !is_add && word != b"change".as_slice() {
        return Command::Unknown;
    }
    if path.is_empty() || !is_number(count) {
        return Command::Unknown;
    }
    if count.len() > MOST_DIGITS {
        return Command::Endless;
    }
    let size = number(count);
    if is_add {
        Command::Add { path, size }
    } else {
        Command::Change { path, size }
    }
}

/// Whether a word is one or more digits.
fn is_number(word: &[u8]) -> bool
    ensures { result ≡ is_number word.now }
{
    !word.is_empty() && are_digits(word)
}

/// Whether each byte is a digit.
fn are_digits(word: &[u8]) -> bool
    ensures { result ≡ list_all is_ascii_digit word.now }
{
    word.iter().all(|b| b.is_ascii_digit())
}

/// The value of decimal digits.
fn number(digits: &[u8]) -> usize
    requires number { is_number digits.now ≡ true }
    requires short { length digits.now ≤ 10 }
    ensures { result ≡ number_of digits.now }
{
    let mut value = 0;
    for digit in digits {
        value = 10 * value + (*digit - b'0') as usize;
    }
    value
}
