//! Texts that are made piece by piece in one buffer. The promise: each piece comes behind the
//! others, spelled as the definitions say.
ghost use Rattle.std.specs.Prelude.{◌≡◌, ◌++◌, [], OnOk, decimal};
ghost use Rattle.script_lang.specs.Spelling.{bytes_word};

use itoa::Buffer;
use obj_model::NoMemory;
use std::alloc::Global;
use std::marker::Model;

/// A text, seen as the list of its bytes. Its room is kept when it is cleared, so that one text
/// serves line after line. After a call that lacked memory it is of no use until it is cleared.
#[derive(Drop)]
pub struct Text {
    bytes: Vec<u8>,
}

impl Model for Text {
    ghost use Rattle.std.specs.Prelude.{List, ℕ};

    ghost Value = { List ℕ };

    ghost view = { λ t. t.bytes.items };
}

impl Text {
    /// An empty text.
    pub fn new(alloc: Global) -> Text
        ensures { result ≡ [] }
    {
        Text {
            bytes: Vec::new(alloc),
        }
    }

    /// Its bytes.
    pub fn as_slice(&self) -> &[u8]
        ensures { result.now ≡ self.now }
    {
        self.bytes.as_slice()
    }

    /// Takes all bytes away, and keeps their room.
    pub fn clear(&mut self)
        ensures { self.new ≡ [] }
    {
        self.bytes.clear();
    }

    /// Puts bytes behind, as they are.
    pub fn push_bytes(&mut self, piece: &[u8]) -> Result<(), NoMemory>
        ensures { OnOk result (self.new ≡ self.old ++ piece.now) }
    {
        self.bytes.extend_from_slice(piece)?;
        Ok(())
    }

    /// Puts a word or a mark behind.
    pub fn push(&mut self, piece: &str) -> Result<(), NoMemory>
        ensures { OnOk result (self.new ≡ self.old ++ piece.now) }
    {
        self.push_bytes(piece.as_bytes())
    }

    /// Puts a number behind, in decimal.
    pub fn push_number(&mut self, number: u64) -> Result<(), NoMemory>
        ensures { OnOk result (self.new ≡ self.old ++ decimal number) }
    {
        let mut buffer = Buffer::new();
        self.push(buffer.format(number))
    }

    /// Puts bytes behind as one word: pairs of lower-case hexadecimal digits, or a dash for none.
    pub fn push_word(&mut self, bytes: &[u8]) -> Result<(), NoMemory>
        ensures { OnOk result (self.new ≡ self.old ++ bytes_word bytes.now) }
    {
        if bytes.is_empty() {
            return self.push("-");
        }
        let digits = hex::encode(*self.bytes.allocator(), bytes)?;
        self.push(digits.as_str())
    }
}
