//! Splits a line into words, as a shell does.
ghost use Rattle.std.specs.Prelude.{◌≡◌, IfOk, OnOk, Some, chars, map, string_bytes};
ghost use Rattle.text_fields.specs.LineWords.{after_between, after_double, after_double_escape, after_letter};
ghost use Rattle.text_fields.specs.LineWords.{after_letters, after_plain, after_single, begun};
ghost use Rattle.text_fields.specs.LineWords.{ended, is_space, is_special};
ghost use Rattle.text_fields.specs.LineWords.{reading, with_letter, with_word, words_of_line};

use std::alloc::{AllocError, Global};
use std::mem;

// What is wrong with a line that can't be split.

const NOT_UTF8: &str = "it is not UTF-8";

const OPEN_QUOTE: &str = "a quotation mark is not closed";

const OPEN_ESCAPE: &str = "nothing follows the backslash at its end";

/// What the next character is read as.
#[derive(Clone, Copy, PartialEq, Eq)]
enum State {
    Between,
    InWord,
    /// Up to the other `'`.
    InSingle,
    /// Up to the other `"`.
    InDouble,
    /// The next character stands for itself.
    Escaped,
    /// The next character stands for itself if it is special between `"`; otherwise the `\` before it does, too.
    EscapedInDouble,
    InComment,
}

/// A line that was read up to a character.
#[derive(Drop)]
struct LineReader {
    alloc: Global,
    /// The words that have ended.
    words: Vec<String>,
    /// The word that has not ended.
    word: String,
    state: State,
}

/// Returns the words of a line: none if it is empty or a comment. Spaces and tabs separate words; `'` and `"` quote the
/// characters of a word between them, and `\` the next one; `#` at the start of a word begins a comment. The inner
/// `Err` says what is wrong with the line: it is not UTF-8, or ends in a backslash or within quotation marks.
pub fn line_words(
    alloc: Global,
    line: &[u8],
) -> Result<Result<Vec<String>, &'static str>, AllocError>
    // Promise: a line is split into words as a shell splits it, with the same quotation marks, escapes and comments.
    ensures words { IfOk result (λ read. IfOk read (λ words.
        words_of_line line.now ≡ Some (map string_bytes words.items))) }
{
    let Ok(text) = std::str::from_utf8(line) else {
        return Ok(Err(NOT_UTF8));
    };
    let letters = letters_of(alloc, text)?;
    let mut reader = LineReader::new(alloc);
    reader.read_all(&letters)?;
    reader.end()
}

/// Returns the characters of a text.
fn letters_of(alloc: Global, text: &str) -> Result<Vec<char>, AllocError>
    ensures { IfOk result (λ letters. letters.items ≡ chars text.now) }
{
    text.chars().collect(alloc)
}

impl LineReader {
    fn new(alloc: Global) -> LineReader
        ensures { reading result ≡ begun }
    {
        LineReader {
            alloc,
            words: Vec::new(alloc),
            word: String::new(alloc),
            state: State::Between,
        }
    }

    fn read_all(&mut self, letters: &[char]) -> Result<(), AllocError>
        ensures { OnOk result (reading self.new ≡ after_letters letters.now (reading self.old)) }
    {
        for letter in letters {
            self.read(*letter)?;
        }
        Ok(())
    }

    /// Reads a character.
    fn read(&mut self, letter: char) -> Result<(), AllocError>
        ensures { OnOk result (reading self.new ≡ after_letter letter (reading self.old)) }
    {
        match self.state {
            State::Between => self.read_between(letter),
            State::InWord => self.read_plain(letter),
            State::InSingle => self.read_single(letter),
            State::InDouble => self.read_double(letter),
            State::Escaped => self.push(letter, State::InWord),
            State::EscapedInDouble => self.read_escaped(letter),
            State::InComment => Ok(()),
        }
    }

    /// Reads a character after a space: it begins a word or a comment, or is a space itself.
    fn read_between(&mut self, letter: char) -> Result<(), AllocError>
        ensures { OnOk result (reading self.new ≡ after_between letter (reading self.old)) }
    {
        if is_space(letter) {
            return Ok(());
        }
        if letter == '#' {
            self.state = State::InComment;
            return Ok(());
        }
        self.read_plain(letter)
    }

    /// Reads a character of a word outside quotation marks.
    fn read_plain(&mut self, letter: char) -> Result<(), AllocError>
        ensures { OnOk result (reading self.new ≡ after_plain letter (reading self.old)) }
    {
        if is_space(letter) {
            return self.end_word();
        }
        match letter {
            '\'' => self.state = State::InSingle,
            '"' => self.state = State::InDouble,
            '\\' => self.state = State::Escaped,
            _ => return self.push(letter, State::InWord),
        }
        Ok(())
    }

    fn read_single(&mut self, letter: char) -> Result<(), AllocError>
        ensures { OnOk result (reading self.new ≡ after_single letter (reading self.old)) }
    {
        if letter == '\'' {
            self.state = State::InWord;
            return Ok(());
        }
        self.push(letter, State::InSingle)
    }

    fn read_double(&mut self, letter: char) -> Result<(), AllocError>
        ensures { OnOk result (reading self.new ≡ after_double letter (reading self.old)) }
    {
        match letter {
            '"' => self.state = State::InWord,
            '\\' => self.state = State::EscapedInDouble,
            _ => return self.push(letter, State::InDouble),
        }
        Ok(())
    }

    /// Reads a character after a `\` between `"`.
    fn read_escaped(&mut self, letter: char) -> Result<(), AllocError>
        ensures { OnOk result (reading self.new ≡ after_double_escape letter (reading self.old)) }
    {
        if !is_special(letter) {
            self.push('\\', State::InDouble)?;
        }
        self.push(letter, State::InDouble)
    }

    /// Adds a character to the word.
    fn push(&mut self, letter: char, state: State) -> Result<(), AllocError>
        ensures { OnOk result (reading self.new ≡ with_letter letter state (reading self.old)) }
    {
        self.word.push(letter)?;
        self.state = state;
        Ok(())
    }

    /// Ends the word.
    fn end_word(&mut self) -> Result<(), AllocError>
        ensures { OnOk result (reading self.new ≡ with_word (reading self.old)) }
    {
        let word = mem::replace(&mut self.word, String::new(self.alloc));
        self.words.push(word)?;
        self.state = State::Between;
        Ok(())
    }

    /// Returns the words of the whole line. The inner `Err` says why it can't end here.
    fn end(self) -> Result<Result<Vec<String>, &'static str>, AllocError>
        ensures { IfOk result (λ read. IfOk read (λ words.
            ended (reading self) ≡ Some (map string_bytes words.items))) }
    {
        let LineReader {
            alloc: _,
            mut words,
            word,
            state,
        } = self;
        match state {
            State::Between | State::InComment => Ok(Ok(words)),
            State::InWord => {
                words.push(word)?;
                Ok(Ok(words))
            }
            State::InSingle | State::InDouble => Ok(Err(OPEN_QUOTE)),
            State::Escaped | State::EscapedInDouble => Ok(Err(OPEN_ESCAPE)),
        }
    }
}

/// Checks whether a `\` between `"` quotes this character. Otherwise the `\` stands for itself.
fn is_special(letter: char) -> bool
    ensures { result ≡ is_special letter }
{
    matches!(letter, '"' | '\\' | '$' | '`')
}

/// Checks whether a character separates words. A line of a text from another system may end in a carriage return.
fn is_space(letter: char) -> bool
    ensures { result ≡ is_space letter }
{
    matches!(letter, ' ' | '\t' | '\r')
}
