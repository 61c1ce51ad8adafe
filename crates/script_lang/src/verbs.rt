//! The first words of lines and of sub-operations.
ghost use Rattle.std.specs.Prelude.{◌≡◌, bytes_eq};
ghost use Rattle.script_lang.specs.Verbs.{line_verb_among, line_verb_of, line_word, op_verb_of, op_word, verb_among};

/// The verb of a line.
#[derive(Clone, Copy, Debug, PartialEq, Eq)]
pub enum LineVerb {
    Op,
    Get,
    Flush,
    Tryflush,
    Begin,
    Finish,
    Evict,
    Drain,
    Agent,
    Mode,
    Time,
    Stop,
    Par,
    End,
}

/// The verb of a sub-operation.
#[derive(Clone, Copy, Debug, PartialEq, Eq)]
pub enum OpVerb {
    Create,
    WriteFull,
    Write,
    Append,
    Zero,
    Truncate,
    Remove,
    SetXattr,
    RmXattr,
    OmapSet,
    OmapRm,
    OmapClear,
    AssertExists,
    AssertVer,
    CmpXattr,
    Read,
    Stat,
    GetXattr,
    ListXattrs,
    OmapGet,
    OmapList,
}

// All verbs of lines.
const LINE_VERBS: [LineVerb; 14] = [
    LineVerb::Op,
    LineVerb::Get,
    LineVerb::Flush,
    LineVerb::Tryflush,
    LineVerb::Begin,
    LineVerb::Finish,
    LineVerb::Evict,
    LineVerb::Drain,
    LineVerb::Agent,
    LineVerb::Mode,
    LineVerb::Time,
    LineVerb::Stop,
    LineVerb::Par,
    LineVerb::End,
];

// All verbs of sub-operations.
const OP_VERBS: [OpVerb; 21] = [
    OpVerb::Create,
    OpVerb::WriteFull,
    OpVerb::Write,
    OpVerb::Append,
    OpVerb::Zero,
    OpVerb::Truncate,
    OpVerb::Remove,
    OpVerb::SetXattr,
    OpVerb::RmXattr,
    OpVerb::OmapSet,
    OpVerb::OmapRm,
    OpVerb::OmapClear,
    OpVerb::AssertExists,
    OpVerb::AssertVer,
    OpVerb::CmpXattr,
    OpVerb::Read,
    OpVerb::Stat,
    OpVerb::GetXattr,
    OpVerb::ListXattrs,
    OpVerb::OmapGet,
    OpVerb::OmapList,
];

impl LineVerb {
    /// Its word.
    pub(crate) fn word(self) -> &'static str
        ensures { result.now ≡ line_word self }
    {
        match self {
            LineVerb::Op => "op",
            LineVerb::Get => "get",
            LineVerb::Flush => "flush",
            LineVerb::Tryflush => "tryflush",
            LineVerb::Begin => "begin",
            LineVerb::Finish => "finish",
            LineVerb::Evict => "evict",
            LineVerb::Drain => "drain",
            LineVerb::Agent => "agent",
            LineVerb::Mode => "mode",
            LineVerb::Time => "time",
            LineVerb::Stop => "stop",
            LineVerb::Par => "par",
            LineVerb::End => "end",
        }
    }

    /// Whether this is its word.
    pub(crate) fn is(&self, word: &[u8]) -> bool
        ensures { result ≡ bytes_eq word.now (line_word self.now) }
    {
        word == self.word().as_bytes()
    }

    /// The verb of this word, if there is one.
    #[tactic(auto, unfolding(crate::specs::Verbs::line_verb_of))]
    pub(crate) fn of(word: &[u8]) -> Option<LineVerb>
        ensures { result ≡ line_verb_of word.now }
    {
        line_verb_among(&LINE_VERBS, word)
    }
}

// The verb of this word among these, if there is one.
fn line_verb_among(verbs: &[LineVerb], word: &[u8]) -> Option<LineVerb>
    ensures { result ≡ line_verb_among verbs.now word.now }
{
    for verb in verbs {
        if verb.is(word) {
            return Some(*verb);
        }
    }
    None
}

impl OpVerb {
    /// Its word.
    pub(crate) fn word(self) -> &'static str
        ensures { result.now ≡ op_word self }
    {
        match self {
            OpVerb::Create => "create",
            OpVerb::WriteFull => "writefull",
            OpVerb::Write => "write",
            OpVerb::Append => "append",
            OpVerb::Zero => "zero",
            OpVerb::Truncate => "truncate",
            OpVerb::Remove => "remove",
            OpVerb::SetXattr => "setxattr",
            OpVerb::RmXattr => "rmxattr",
            OpVerb::OmapSet => "omapset",
            OpVerb::OmapRm => "omaprm",
            OpVerb::OmapClear => "omapclear",
            OpVerb::AssertExists => "assert_exists",
            OpVerb::AssertVer => "assert_ver",
            OpVerb::CmpXattr => "cmpxattr",
            OpVerb::Read => "read",
            OpVerb::Stat => "stat",
            OpVerb::GetXattr => "getxattr",
            OpVerb::ListXattrs => "listxattrs",
            OpVerb::OmapGet => "omapget",
            OpVerb::OmapList => "omaplist",
        }
    }

    // Whether this is its word.
    fn is(&self, word: &[u8]) -> bool
        ensures { result ≡ bytes_eq word.now (op_word self.now) }
    {
        word == self.word().as_bytes()
    }

    /// The verb of this word, if there is one.
    #[tactic(auto, unfolding(crate::specs::Verbs::op_verb_of))]
    pub(crate) fn of(word: &[u8]) -> Option<OpVerb>
        ensures { result ≡ op_verb_of word.now }
    {
        op_verb_among(&OP_VERBS, word)
    }
}

// The verb of this word among these, if there is one.
fn op_verb_among(verbs: &[OpVerb], word: &[u8]) -> Option<OpVerb>
    ensures { result ≡ verb_among verbs.now word.now }
{
    for verb in verbs {
        if verb.is(word) {
            return Some(*verb);
        }
    }
    None
}
