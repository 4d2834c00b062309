//! Text that is made piece by piece.
ghost use Rattle.std.specs.Prelude.{◌≡◌, ◌+◌, ◌≤◌, [], ◌++◌, length, take, decimal, IfOk, OnOk, OnErr};

use goal_limits::NoMemory;
use itoa::Buffer;
use std::alloc::Global;
use std::marker::Model;

/// A text in memory that grows at its end. Contracts see its bytes.
#[derive(Drop)]
pub struct TextOut {
    bytes: Vec<u8>,
}

impl Model for TextOut {
    ghost use Rattle.std.specs.Prelude.{List, ℕ};

    ghost Value = { List ℕ };

    ghost view = { λ t. t.bytes.items };
}

impl TextOut {
    ghost use Rattle.std.specs.Prelude.{ℕ, List};
    ghost use Rattle.goal_base.specs.Text.{pair_text};

    /// Creates an empty text. It allocates nothing.
    pub fn new(alloc: Global) -> TextOut
        ensures { result ≡ [] }
    {
        TextOut {
            bytes: Vec::new(alloc),
        }
    }

    /// Creates an empty text with room for `bytes` bytes. Until it is longer, appending to it allocates nothing.
    pub fn with_room(alloc: Global, bytes: usize) -> Result<TextOut, NoMemory>
        ensures { IfOk result (λ text. text ≡ []) }
    {
        Ok(TextOut {
            bytes: Vec::with_capacity(alloc, bytes)?,
        })
    }

    /// Makes room for a line of `line` bytes in the array `lines`, whose first `end` bytes are not yet in the text.
    /// Returns the place in the array where the line is to begin. This is `end` if the line fits there. Otherwise the
    /// `end` bytes are appended to the text, and it is 0. On `NoMemory` the text is unchanged.
    #[inline(always)]
    pub fn room_for(&mut self, line: usize, lines: &[u8], end: usize) -> Result<usize, NoMemory>
        requires some { line ≤ length lines.now }
        requires within { end ≤ length lines.now }
        ensures text { IfOk result (λ at. self.new ++ take at lines.now ≡ self.old ++ take end lines.now) }
        ensures room { IfOk result (λ at. at + line ≤ length lines.now) }
    {
        if line <= lines.len() - end {
            return Ok(end);
        }
        self.piece(&lines[..end])?;
        Ok(0)
    }

    /// Appends a word. On `NoMemory` the text is unchanged.
    #[inline(always)]
    pub fn word(&mut self, text: &str) -> Result<(), NoMemory>
        ensures ok { OnOk result (self.new ≡ self.old ++ text.now) }
        ensures err { OnErr result (self.new ≡ self.old) }
    {
        self.bytes.extend_from_slice(text.as_bytes())?;
        Ok(())
    }

    /// Appends a piece of text. On `NoMemory` the text is unchanged.
    pub fn piece(&mut self, piece: &[u8]) -> Result<(), NoMemory>
        ensures ok { OnOk result (self.new ≡ self.old ++ piece.now) }
        ensures err { OnErr result (self.new ≡ self.old) }
    {
        self.bytes.extend_from_slice(piece)?;
        Ok(())
    }

    /// Appends a number in decimal. On `NoMemory` the text is unchanged.
    pub fn number(&mut self, n: u128) -> Result<(), NoMemory>
        ensures ok { OnOk result (self.new ≡ self.old ++ decimal n) }
        ensures err { OnErr result (self.new ≡ self.old) }
    {
        let mut buffer = Buffer::new();
        self.word(buffer.format(n))
    }

    // Appends two numbers with a blank between them. On `NoMemory` a part of them may have been appended.
    fn put_pair(&mut self, first: u32, second: u32) -> Result<(), NoMemory>
        ensures ok { OnOk result (self.new ≡ self.old ++ pair_text first second) }
        ensures err { OnErr result ((part : List ℕ) × (self.new ≡ self.old ++ part)) }
    {
        self.number(u128::from(first))?;
        self.word(" ")?;
        self.number(u128::from(second))
    }

    /// Appends two numbers with a blank between them, such as the rank and the number of an operation. On `NoMemory`
    /// the text is unchanged.
    pub fn pair(&mut self, first: u32, second: u32) -> Result<(), NoMemory>
        ensures ok { OnOk result (self.new ≡ self.old ++ pair_text first second) }
        ensures err { OnErr result (self.new ≡ self.old) }
    {
        let before = self.bytes.len();
        match self.put_pair(first, second) {
            Ok(()) => Ok(()),
            Err(NoMemory) => {
                self.bytes.truncate(before);
                Err(NoMemory)
            }
        }
    }

    /// Returns the bytes of the text.
    pub fn into_bytes(self) -> Vec<u8>
        ensures { result.items ≡ self }
    {
        self.bytes
    }
}
