//! The words that a line is made of.

ghost use Rattle.std.specs.Prelude.{◌≡◌};
ghost use Rattle.scr_tokens.specs.Words.{relation_sign};

use base::{Name, Relation};

/// The reserved words, in the order in which the language lists them. `TypeWord` is `TYPE`.
#[derive(Clone, Copy, PartialEq, Eq)]
pub enum Keyword {
    Specification,
    TypeWord,
    Const,
    Monitored,
    ModeClass,
    Term,
    Controlled,
    Init,
    Condition,
    Event,
    Modes,
    Over,
    Row,
    Values,
    From,
    To,
    End,
    Finish,
    And,
    Or,
    Not,
    True,
    False,
    When,
    Never,
    Boolean,
    Nat,
    Step,
    Assert,
}

/// The signs `@T @F @C ( ) { } , : | = != < <= > >= + - * ..`, in this order.
#[derive(Clone, Copy, PartialEq, Eq)]
pub enum Sign {
    AtT,
    AtF,
    AtC,
    OpenParen,
    CloseParen,
    OpenBrace,
    CloseBrace,
    Comma,
    Colon,
    Bar,
    Equal,
    Differ,
    Less,
    AtMost,
    Greater,
    AtLeast,
    Plus,
    Minus,
    Times,
    Dots,
}

/// A word of a line. A number is at most 1,000,000 in a line that is not refused.
#[derive(Drop)]
pub enum Word {
    Name(Name),
    Primed(Name),
    Number(i64),
    Reserved(Keyword),
    Sign(Sign),
}

/// A word, and the place of its first byte in the line, from 0.
#[derive(Drop)]
pub struct Token {
    pub column: u32,
    pub word: Word,
}

/// The sign that spells a relation.
pub fn sign_of_relation(relation: Relation) -> Sign
    ensures { result ≡ relation_sign relation }
{
    match relation {
        Relation::Equal => Sign::Equal,
        Relation::Differ => Sign::Differ,
        Relation::Less => Sign::Less,
        Relation::AtMost => Sign::AtMost,
        Relation::Greater => Sign::Greater,
        Relation::AtLeast => Sign::AtLeast,
    }
}
