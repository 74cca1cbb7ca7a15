// The symbols of the grammar: what a reader may still have to read.
ghost use Rattle.std.specs.Prelude.{◌≡◌, slice_index_or};
ghost use Rattle.reader.specs.Codes.{symbol_number, symbol_at};

use crate::class::Class;

// What follows a type.
#[derive(Clone, Copy, PartialEq, Eq, Debug)]
pub enum TypeContext {
    Items,
    Specs,
    Closed,
    Bracketed,
}

// What follows a module.
#[derive(Clone, Copy, PartialEq, Eq, Debug)]
pub enum ModuleContext {
    Items,
    Bracketed,
}

#[derive(Clone, Copy, PartialEq, Eq, Debug)]
pub enum Symbol {
    Token(Class),
    Unit,
    UnitName,
    UnitEnd,
    RankValue,
    Items,
    TypeItem,
    ValueItem,
    ModuleItem,
    Module(ModuleContext),
    Parameter(ModuleContext),
    Path(ModuleContext),
    PathName(ModuleContext),
    Arguments(ModuleContext),
    ModuleEnd,
    Argument,
    ArgumentEnd,
    Signature,
    SignatureParameter,
    Specs,
    TypeSpec,
    TypeSpecEnd,
    ValueSpec,
    ModuleSpec,
    Term,
    Variable,
    Atom,
    PathEnd,
    Type(TypeContext),
    Labels(TypeContext),
    TypeEnd,
    ArgumentName,
}

// The symbols in the order of their numbers. The numbers are said again below: a search of this list for one would be linear.
const SYMBOLS: [Symbol; 73] = [
    Symbol::Token(Class::Open),
    Symbol::Token(Class::Close),
    Symbol::Token(Class::Colon),
    Symbol::Token(Class::Equals),
    Symbol::Token(Class::Comma),
    Symbol::Token(Class::Dot),
    Symbol::Token(Class::Arrow),
    Symbol::Token(Class::OpenAttribute),
    Symbol::Token(Class::CloseAttribute),
    Symbol::Token(Class::Module),
    Symbol::Token(Class::Struct),
    Symbol::Token(Class::Sig),
    Symbol::Token(Class::End),
    Symbol::Token(Class::Functor),
    Symbol::Token(Class::Type),
    Symbol::Token(Class::Val),
    Symbol::Token(Class::Let),
    Symbol::Token(Class::Fun),
    Symbol::Token(Class::Rank),
    Symbol::Token(Class::Lower),
    Symbol::Token(Class::Upper),
    Symbol::Token(Class::SmallInteger),
    Symbol::Token(Class::LargeInteger),
    Symbol::Token(Class::Label0),
    Symbol::Token(Class::Label1),
    Symbol::Token(Class::Label2),
    Symbol::Token(Class::Operator0),
    Symbol::Token(Class::Operator1),
    Symbol::Token(Class::Operator2),
    Symbol::Token(Class::Operator3),
    Symbol::Token(Class::TextEnd),
    Symbol::Unit,
    Symbol::UnitName,
    Symbol::UnitEnd,
    Symbol::RankValue,
    Symbol::Items,
    Symbol::TypeItem,
    Symbol::ValueItem,
    Symbol::ModuleItem,
    Symbol::Module(ModuleContext::Items),
    Symbol::Module(ModuleContext::Bracketed),
    Symbol::Parameter(ModuleContext::Items),
    Symbol::Parameter(ModuleContext::Bracketed),
    Symbol::Path(ModuleContext::Items),
    Symbol::Path(ModuleContext::Bracketed),
    Symbol::PathName(ModuleContext::Items),
    Symbol::PathName(ModuleContext::Bracketed),
    Symbol::Arguments(ModuleContext::Items),
    Symbol::Arguments(ModuleContext::Bracketed),
    Symbol::ModuleEnd,
    Symbol::Argument,
    Symbol::ArgumentEnd,
    Symbol::Signature,
    Symbol::SignatureParameter,
    Symbol::Specs,
    Symbol::TypeSpec,
    Symbol::TypeSpecEnd,
    Symbol::ValueSpec,
    Symbol::ModuleSpec,
    Symbol::Term,
    Symbol::Variable,
    Symbol::Atom,
    Symbol::PathEnd,
    Symbol::Type(TypeContext::Items),
    Symbol::Type(TypeContext::Specs),
    Symbol::Type(TypeContext::Closed),
    Symbol::Type(TypeContext::Bracketed),
    Symbol::Labels(TypeContext::Items),
    Symbol::Labels(TypeContext::Specs),
    Symbol::Labels(TypeContext::Closed),
    Symbol::Labels(TypeContext::Bracketed),
    Symbol::TypeEnd,
    Symbol::ArgumentName,
];

// The number by which a symbol is kept in memory. Constant time.
impl From<Symbol> for u32 {
    ghost from_gives = { λ symbol n. n ≡ symbol_number symbol };

    fn from(symbol: Symbol) -> u32 {
        match symbol {
            Symbol::Token(class) => class as u32,
            Symbol::Unit => 31,
            Symbol::UnitName => 32,
            Symbol::UnitEnd => 33,
            Symbol::RankValue => 34,
            Symbol::Items => 35,
            Symbol::TypeItem => 36,
            Symbol::ValueItem => 37,
            Symbol::ModuleItem => 38,
            Symbol::Module(context) => 39 + context as u32,
            Symbol::Parameter(context) => 41 + context as u32,
            Symbol::Path(context) => 43 + context as u32,
            Symbol::PathName(context) => 45 + context as u32,
            Symbol::Arguments(context) => 47 + context as u32,
            Symbol::ModuleEnd => 49,
            Symbol::Argument => 50,
            Symbol::ArgumentEnd => 51,
            Symbol::Signature => 52,
            Symbol::SignatureParameter => 53,
            Symbol::Specs => 54,
            Symbol::TypeSpec => 55,
            Symbol::TypeSpecEnd => 56,
            Symbol::ValueSpec => 57,
            Symbol::ModuleSpec => 58,
            Symbol::Term => 59,
            Symbol::Variable => 60,
            Symbol::Atom => 61,
            Symbol::PathEnd => 62,
            Symbol::Type(context) => 63 + context as u32,
            Symbol::Labels(context) => 67 + context as u32,
            Symbol::TypeEnd => 71,
            Symbol::ArgumentName => 72,
        }
    }
}

// By hand: a derived default takes no variant with a field.
impl Default for Symbol {
    ghost use Rattle.reader.specs.declared.class.Class.{Class};
    ghost use Rattle.reader.specs.declared.symbol.Symbol.{Symbol};

    ghost is_default = { λ symbol. symbol ≡ Symbol.Token Class.Open };

    fn default() -> Symbol {
        Symbol::Token(Class::Open)
    }
}

// The symbol of a number; a number that is none stands for the first symbol. Constant time.
// From and no TryFrom: only numbers that were written from a symbol stand in the words.
impl From<u32> for Symbol {
    ghost from_gives = { λ n symbol. symbol ≡ symbol_at n };

    fn from(n: u32) -> Symbol {
        SYMBOLS.get(n as usize).copied().unwrap_or_default()
    }
}
