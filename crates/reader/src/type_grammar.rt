// The grammar of types: what follows a type depends on where it stands. All of these take constant time.
ghost use Rattle.std.specs.Prelude.{◌≡◌, [], ◌∷◌};
ghost use Rattle.reader.specs.Grammar.{find, expand, after_type_rows};

use super::class::Class;
use super::grammar::{After, items, row, specs, token, type_end};
use super::symbol::{Symbol, TypeContext};

// what follows a type
fn after_type(context: TypeContext, c: Class) -> Option<After>
    ensures { result ≡ find c (after_type_rows context) }
{
    match context {
        TypeContext::Items => items(c),
        TypeContext::Specs => specs(c),
        TypeContext::Closed => token(Class::Close, c),
        TypeContext::Bracketed => type_end(c),
    }
}

// a type path, a label without parts, or `(`
pub fn type_start(context: TypeContext, c: Class) -> Option<After>
    ensures { result ≡ expand (Symbol.«Type» context) c }
{
    match c {
        Class::Lower | Class::Label0 => Some(row(&[Symbol::Labels(context)])),
        Class::Upper => Some(row(&[
            Symbol::Token(Class::Dot),
            Symbol::PathEnd,
            Symbol::Labels(context),
        ])),
        Class::Open => Some(row(&[
            Symbol::Type(TypeContext::Bracketed),
            Symbol::Labels(context),
        ])),
        _ => None,
    }
}

// a one-part label, or what follows the type
pub fn labels(context: TypeContext, c: Class) -> Option<After>
    ensures { result ≡ expand (Symbol.Labels context) c }
{
    match c {
        Class::Label1 => Some(row(&[Symbol::Labels(context)])),
        _ => after_type(context, c),
    }
}
