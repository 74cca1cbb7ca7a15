// Tokens, and the words and marks that the language fixes.
ghost use Rattle.std.specs.Prelude.{◌≡◌};
ghost use Rattle.tokens.specs.Keywords.{keyword_of};

// The nine marks: ( ) : = , . -> [@@ ]
#[derive(Clone, Copy, PartialEq, Eq, Debug)]
pub enum Mark {
    Open,
    Close,
    Colon,
    Equals,
    Comma,
    Dot,
    Arrow,
    OpenAttribute,
    CloseAttribute,
}

// The ten words that are never names, over any core.
#[derive(Clone, Copy, PartialEq, Eq, Debug)]
pub enum Keyword {
    Module,
    Struct,
    Sig,
    End,
    Functor,
    Type,
    Val,
    Let,
    Fun,
    Rank,
}

// A token; names and integers are the bytes of the text that spell them.
#[derive(Clone, Copy, PartialEq, Eq, Debug)]
pub enum Token<'a> {
    Mark(Mark),
    Keyword(Keyword),
    Lower(&'a [u8]),
    Upper(&'a [u8]),
    Integer(&'a [u8]),
}

// The keyword that these bytes spell, if they spell one. Constant time.
// A look-up and no `TryFrom`: most names are no keyword, and that is no error.
pub fn keyword_of(name: &[u8]) -> Option<Keyword>
    ensures { result ≡ keyword_of name.now }
{
    match name {
        b"module" => Some(Keyword::Module),
        b"struct" => Some(Keyword::Struct),
        b"sig" => Some(Keyword::Sig),
        b"end" => Some(Keyword::End),
        b"functor" => Some(Keyword::Functor),
        b"type" => Some(Keyword::Type),
        b"val" => Some(Keyword::Val),
        b"let" => Some(Keyword::Let),
        b"fun" => Some(Keyword::Fun),
        b"rank" => Some(Keyword::Rank),
        _ => None,
    }
}
