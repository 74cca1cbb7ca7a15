// The classes of tokens that the grammar tells apart.
ghost use Rattle.std.specs.Prelude.{◌≡◌, ℕ};
ghost use Rattle.types.specs.Types.{Name};
ghost use Rattle.reader.specs.Tokens.{mark_class, keyword_class, class_of, word_token};

use cores::interface::Kind;
use tokens::token::{Keyword, Mark};

// One variant for each mark and keyword, then names, integers and core words by their number of parts or arguments.
// One flat list: each class has its number by its place, and rows of the grammar name it.
#[derive(Clone, Copy, PartialEq, Eq, Debug)]
pub enum Class {
    Open,
    Close,
    Colon,
    Equals,
    Comma,
    Dot,
    Arrow,
    OpenAttribute,
    CloseAttribute,
    Module,
    Struct,
    Sig,
    End,
    Functor,
    Type,
    Val,
    Let,
    Fun,
    Rank,
    Lower,
    Upper,
    SmallInteger,
    LargeInteger,
    Label0,
    Label1,
    Label2,
    Operator0,
    Operator1,
    Operator2,
    Operator3,
    TextEnd,
}

impl From<Mark> for Class {
    ghost from_gives = { λ mark class. class ≡ mark_class mark };

    fn from(mark: Mark) -> Class {
        match mark {
            Mark::Open => Class::Open,
            Mark::Close => Class::Close,
            Mark::Colon => Class::Colon,
            Mark::Equals => Class::Equals,
            Mark::Comma => Class::Comma,
            Mark::Dot => Class::Dot,
            Mark::Arrow => Class::Arrow,
            Mark::OpenAttribute => Class::OpenAttribute,
            Mark::CloseAttribute => Class::CloseAttribute,
        }
    }
}

impl From<Keyword> for Class {
    ghost from_gives = { λ keyword class. class ≡ keyword_class keyword };

    fn from(keyword: Keyword) -> Class {
        match keyword {
            Keyword::Module => Class::Module,
            Keyword::Struct => Class::Struct,
            Keyword::Sig => Class::Sig,
            Keyword::End => Class::End,
            Keyword::Functor => Class::Functor,
            Keyword::Type => Class::Type,
            Keyword::Val => Class::Val,
            Keyword::Let => Class::Let,
            Keyword::Fun => Class::Fun,
            Keyword::Rank => Class::Rank,
        }
    }
}

// A core's word by its number of parts or arguments; a word with more than any may have is a name.
impl From<Kind> for Class {
    ghost from_gives = { λ kind class. (w : ℕ) (x : Name) → class ≡ class_of (word_token kind w x) };

    fn from(kind: Kind) -> Class {
        match kind {
            Kind::Label(0) => Class::Label0,
            Kind::Label(1) => Class::Label1,
            Kind::Label(2) => Class::Label2,
            Kind::Operator(0) => Class::Operator0,
            Kind::Operator(1) => Class::Operator1,
            Kind::Operator(2) => Class::Operator2,
            Kind::Operator(3) => Class::Operator3,
            Kind::Label(_) | Kind::Operator(_) => Class::Lower,
        }
    }
}
