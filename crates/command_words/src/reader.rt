ghost use Rattle.std.specs.Prelude.{◌≡◌, [], Some, None, IfOk, is_some, if◌then◌else◌};
ghost use Rattle.std.specs.Prelude.{map, option_map, string_bytes};
ghost use Rattle.clap.specs.Lexer.{long_of};
ghost use Rattle.command_words.specs.Lines.{is_value, has_piece, is_filled};
ghost use Rattle.command_words.specs.Reading.{with_piece, idle_with, placed, named, opened};
ghost use Rattle.command_words.specs.Reading.{after_word, ended, pieces_of};
ghost use Rattle.command_words.specs.Views.{row_of, state_of};

use crate::long::long_of;
use crate::row::Row;
use std::alloc::{AllocError, Global};

/// The name of an option or of the place, with its value.
#[derive(Clone, Copy)]
struct Piece<'a> {
    name: &'a str,
    value: &'a str,
}

/// What was read of the words behind a command's name: the option that waits for its value, and
/// the pieces.
#[derive(Drop)]
struct Reader<'a> {
    waiting: Option<&'a str>,
    pieces: Vec<Piece<'a>>,
}

/// Whether the words are a line of the row: options and the word at its place, in any order, each
/// at most once.
pub fn is_line<'a>(alloc: Global, row: Row<'a>, words: &'a [String]) -> Result<bool, AllocError>
    ensures { IfOk result (λ b. b
        ≡ is_some (pieces_of (row_of row.entry) (map string_bytes words.entry.now))) }
{
    let mut reader = Reader::new(alloc);
    for word in words {
        if !reader.take(row, word.as_str())? {
            return Ok(false);
        }
    }
    Ok(reader.is_done(row))
}

impl<'a> Reader<'a> {
    fn new(alloc: Global) -> Reader<'a>
        ensures { state_of result ≡ (None, []) }
    {
        Reader {
            waiting: None,
            pieces: Vec::new(alloc),
        }
    }

    // Takes one word more, where it may stand here.
    fn take(&mut self, row: Row<'a>, word: &'a str) -> Result<bool, AllocError>
        ensures { IfOk result (λ b.
            after_word (row_of row.entry) (state_of self.old).0 word.entry.now (state_of self.old).1
            ≡ (if b then Some (state_of self.new) else None)) }
    {
        match self.waiting {
            None => self.take_idle(row, word),
            Some(name) => self.add(name, word),
        }
    }

    // The same where no option waits.
    fn take_idle(&mut self, row: Row<'a>, word: &'a str) -> Result<bool, AllocError>
        ensures { IfOk result (λ b.
            opened (row_of row.entry) (long_of word.entry.now) word.entry.now (state_of self.old).1
            ≡ (if b then Some (state_of self.new) else None)) }
    {
        match long_of(word) {
            None => self.take_place(row.place, word),
            Some((name, _)) if !row.has_option(name) => Ok(false),
            Some((name, value)) => self.take_option(name, value),
        }
    }

    fn take_place(&mut self, place: Option<&'a str>, word: &'a str) -> Result<bool, AllocError>
        ensures { IfOk result (λ b. placed (option_map (λ n. n.now) place.entry) word.entry.now
            (state_of self.old).1 ≡ (if b then Some (state_of self.new) else None)) }
    {
        match place {
            None => Ok(false),
            Some(name) => self.add(name, word),
        }
    }

    fn take_option(&mut self, name: &'a str, value: Option<&'a str>) -> Result<bool, AllocError>
        ensures { IfOk result (λ b. named (option_map (λ v. v.now) value.entry) name.entry.now
            (state_of self.old).1 ≡ (if b then Some (state_of self.new) else None)) }
    {
        match value {
            None => {
                self.waiting = Some(name);
                Ok(true)
            }
            Some(value) => self.add(name, value),
        }
    }

    // Adds a piece, where its name is new and its value may be one.
    fn add(&mut self, name: &'a str, value: &'a str) -> Result<bool, AllocError>
        ensures { IfOk result (λ b. idle_with (with_piece name.entry.now value.entry.now
            (state_of self.old).1) ≡ (if b then Some (state_of self.new) else None)) }
    {
        if self.has(name) || !is_value(value) {
            return Ok(false);
        }
        self.pieces.push(Piece { name, value })?;
        self.waiting = None;
        Ok(true)
    }

    fn has(&self, name: &str) -> bool
        ensures { result ≡ has_piece name.now (state_of self.now).1 }
    {
        for piece in &self.pieces {
            if piece.name == name {
                return true;
            }
        }
        false
    }

    // Whether the words may end here.
    fn is_done(&self, row: Row<'a>) -> bool
        ensures { result
            ≡ is_some (ended (row_of row.entry) (state_of self.now).0 (state_of self.now).1) }
    {
        self.waiting.is_none() && self.has_place(row.place)
    }

    fn has_place(&self, place: Option<&str>) -> bool
        ensures { result ≡ is_filled (option_map (λ n. n.now) place.entry) (state_of self.now).1 }
    {
        match place {
            None => true,
            Some(name) => self.has(name),
        }
    }
}

fn is_value(word: &str) -> bool
    ensures { result ≡ is_value word.now }
{
    match word.as_bytes() {
        [] => false,
        [first, ..] => *first != b'-',
    }
}
