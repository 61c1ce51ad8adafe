//! What is wrong with a script.
use obj_model::Bytes;

/// Why a line is none, or a text no script: what the first word from the left is that does not fit,
/// then what is wrong with the vector as a whole, then with the line's place in a block.
#[derive(Debug, Drop, PartialEq, Eq)]
pub enum Cause {
    /// A byte outside 0x20 to 0x7e in a line that is no comment. It is told before all others.
    Byte,
    /// An empty word, a word too few, a `;` where a sub-operation still wants a field, or a word
    /// too many.
    Words,
    /// A verb, a sub-operation or a mode of the real system that is left out here: this word.
    LeftOut(Bytes),
    /// Another unknown verb; behind `begin` and `stop`, any word that does not fit.
    Verb,
    /// Another unknown sub-operation.
    Subop,
    /// Another unknown mode.
    Mode,
    /// No decimal digits without a leading zero, or a number above 2^62.
    Number,
    /// A client outside 1 to 256.
    Client,
    /// No name or key.
    Name,
    /// No pairs of lower-case hexadecimal digits, nor the dash for none.
    Hex,
    /// More than 16 sub-operations.
    Many,
    /// The sub-operation at this place, from 0, writes behind one that reads, or the other way
    /// round; or, at 0, an `op` has none that writes, or a `get` has one.
    Mixed(usize),
    /// The vector carries more than 16,777,216 bytes.
    Heavy,
    /// A moment below an earlier one.
    Time,
    /// A line in a block that may not stand there, the one that brings its 17th client, an `end`
    /// outside a block, or a `par` without a later `end`.
    Par,
    /// The script has more than 268,435,456 bytes. This is told with line 0.
    Long,
    /// The script has more than 1,000,000 lines. This is told with line 0.
    Lines,
}

/// Why a text is no script.
#[derive(Debug, Drop, PartialEq, Eq)]
pub enum ScriptFault {
    /// The first wrong line, counted from 1, or 0 for the text as a whole.
    Bad { line: u32, cause: Cause },
    /// There was not enough memory.
    NoMemory,
}

/// Why words were not read.
#[derive(Debug, Drop)]
pub(crate) enum LineFault {
    /// They are no spelling.
    Wrong(Cause),
    /// There was not enough memory.
    NoMemory,
}
