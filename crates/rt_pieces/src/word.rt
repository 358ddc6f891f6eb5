//! The reserved words.

ghost use Rattle.std.specs.Prelude.{◌≡◌, find};
ghost use Rattle.std.specs.Str.{bytes_eq};
ghost use Rattle.rt_pieces.specs.Pieces as pieces;

use crate::bytes::same;
use crate::item::Word;

/// Each reserved word once.
pub const WORDS: [Word; 54] = [
    Word::Title,
    Word::Option,
    Word::Let,
    Word::Mode,
    Word::Proc,
    Word::EndProc,
    Word::Data,
    Word::EndData,
    Word::Stack,
    Word::Ent,
    Word::Ext,
    Word::Svc,
    Word::Block,
    Word::EndBlock,
    Word::If,
    Word::Then,
    Word::ElseIf,
    Word::Else,
    Word::End,
    Word::For,
    Word::By,
    Word::To,
    Word::Do,
    Word::Rep,
    Word::While,
    Word::Goto,
    Word::Switch,
    Word::Of,
    Word::Return,
    Word::Val,
    Word::Length,
    Word::Byte,
    Word::Int,
    Word::Frac,
    Word::Ref,
    Word::Array,
    Word::Label,
    Word::Abs,
    Word::Not,
    Word::And,
    Word::Or,
    Word::Mod,
    Word::Land,
    Word::Lor,
    Word::Nev,
    Word::Sll,
    Word::Srl,
    Word::Sla,
    Word::Sra,
    Word::Bin,
    Word::Oct,
    Word::Hex,
    Word::Real,
    Word::Code,
];

impl Word {
    /// How the word is written, in upper case.
    pub fn spelling(self) -> &'static [u8]
        ensures { result.now ≡ pieces.spelling self }
    {
        match self {
            Word::Title => b"TITLE",
            Word::Option => b"OPTION",
            Word::Let => b"LET",
            Word::Mode => b"MODE",
            Word::Proc => b"PROC",
            Word::EndProc => b"ENDPROC",
            Word::Data => b"DATA",
            Word::EndData => b"ENDDATA",
            Word::Stack => b"STACK",
            Word::Ent => b"ENT",
            Word::Ext => b"EXT",
            Word::Svc => b"SVC",
            Word::Block => b"BLOCK",
            Word::EndBlock => b"ENDBLOCK",
            Word::If => b"IF",
            Word::Then => b"THEN",
            Word::ElseIf => b"ELSEIF",
            Word::Else => b"ELSE",
            Word::End => b"END",
            Word::For => b"FOR",
            Word::By => b"BY",
            Word::To => b"TO",
            Word::Do => b"DO",
            Word::Rep => b"REP",
            Word::While => b"WHILE",
            Word::Goto => b"GOTO",
            Word::Switch => b"SWITCH",
            Word::Of => b"OF",
            Word::Return => b"RETURN",
            Word::Val => b"VAL",
            Word::Length => b"LENGTH",
            Word::Byte => b"BYTE",
            Word::Int => b"INT",
            Word::Frac => b"FRAC",
            Word::Ref => b"REF",
            Word::Array => b"ARRAY",
            Word::Label => b"LABEL",
            Word::Abs => b"ABS",
            Word::Not => b"NOT",
            Word::And => b"AND",
            Word::Or => b"OR",
            Word::Mod => b"MOD",
            Word::Land => b"LAND",
            Word::Lor => b"LOR",
            Word::Nev => b"NEV",
            Word::Sll => b"SLL",
            Word::Srl => b"SRL",
            Word::Sla => b"SLA",
            Word::Sra => b"SRA",
            Word::Bin => b"BIN",
            Word::Oct => b"OCT",
            Word::Hex => b"HEX",
            Word::Real => b"REAL",
            Word::Code => b"CODE",
        }
    }
}

/// The reserved word that is spelled so, in upper case.
pub fn word_of(text: &[u8]) -> Option<Word>
    ensures { result ≡ pieces.word_of text.now }
{
    WORDS
        .iter()
        .copied()
        .find(|word| same(word.spelling(), text))
}
