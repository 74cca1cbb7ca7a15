// The grammar: one function for each symbol. It tells what has to follow a token of a class where the symbol is to be read,
// or None where the symbol cannot begin with such a token. All of them take constant time.
// Symbols whose rows look alike keep functions of their own, each what specs/Grammar writes for it.
// No table of data: its rows would need a hole for the context.
// Context and class stay two parameters: a context is a part of some symbols alone.
ghost use Rattle.std.specs.Prelude.{◌≡◌, ◌≤◌, [], ◌∷◌, length, slice_index_or};
ghost use Rattle.reader.specs.Grammar.{find, rows, expand, after_type_rows, after_module_rows, ◌⇒◌};

use super::class::Class;
use super::symbol::{ModuleContext, Symbol, TypeContext};
use std::marker::Model;

// What has to follow a token: at most five symbols.
// Symbols and count by hand: an `ArrayVec` is filled in a loop, and a row of constants is to be a few stores. No Debug: symbols behind
// the count mean nothing.
#[derive(Drop)]
pub struct After {
    symbols: [Symbol; 5],
    count: u8,
}

impl Model for After {
    ghost use Rattle.std.specs.Prelude.{◌≤◌, List, take};
    ghost use Rattle.reader.specs.declared.symbol.Symbol.{Symbol};

    ghost Value = { List Symbol };

    ghost view = { λ r. take r.count r.symbols };

    ghost invariant = { λ r. r.count ≤ 5 };
}

impl After {
    // The symbols of a row.
    pub fn as_slice(&self) -> &[Symbol]
        ensures value { result.now ≡ self.now }
        ensures fits { length result.now ≤ 5 }
    {
        &self.symbols[..self.count as usize]
    }
}

// The symbol at a place; behind the end, one that nothing reads. Constant time.
fn nth_symbol(symbols: &[Symbol], i: usize) -> Symbol
    ensures { result ≡ slice_index_or symbols.now i (Symbol.Token Class.Open) }
{
    symbols.get(i).copied().unwrap_or_default()
}

// One look for each of the five places, and no loop: where the symbols are known, so are the places.
pub fn row(symbols: &[Symbol]) -> After
    requires { length symbols.now ≤ 5 }
    ensures { result ≡ symbols.now }
{
    After {
        symbols: [
            nth_symbol(symbols, 0),
            nth_symbol(symbols, 1),
            nth_symbol(symbols, 2),
            nth_symbol(symbols, 3),
            nth_symbol(symbols, 4),
        ],
        count: symbols.len() as u8,
    }
}

// A symbol that begins in one way: this token, and what has to follow it.
fn only(first: Class, after: &[Symbol], c: Class) -> Option<After>
    requires { length after.now ≤ 5 }
    ensures { result ≡ find c ((first ⇒ after.now) ∷ []) }
{
    if c == first { Some(row(after)) } else { None }
}

// Exactly this token.
pub fn token(wanted: Class, c: Class) -> Option<After>
    ensures { result ≡ expand (Symbol.Token wanted) c }
{
    only(wanted, &[], c)
}

// `module U = struct` items `end` and the unit's end
pub fn unit(c: Class) -> Option<After>
    ensures { result ≡ expand Symbol.«Unit» c }
{
    only(
        Class::Module,
        &[
            Symbol::UnitName,
            Symbol::Token(Class::Equals),
            Symbol::Token(Class::Struct),
            Symbol::Items,
            Symbol::UnitEnd,
        ],
        c,
    )
}

// the text's end, or `[@@ rank n ]` before it
pub fn unit_end(c: Class) -> Option<After>
    ensures { result ≡ expand Symbol.UnitEnd c }
{
    match c {
        Class::TextEnd => Some(row(&[])),
        Class::OpenAttribute => Some(row(&[
            Symbol::Token(Class::Rank),
            Symbol::RankValue,
            Symbol::Token(Class::CloseAttribute),
            Symbol::Token(Class::TextEnd),
        ])),
        _ => None,
    }
}

// `end`, or an item and more
// Not one function with specs: the row of `end` is all that they share.
pub fn items(c: Class) -> Option<After>
    ensures { result ≡ expand Symbol.Items c }
{
    match c {
        Class::End => Some(row(&[])),
        Class::Type => Some(row(&[Symbol::TypeItem])),
        Class::Let => Some(row(&[Symbol::ValueItem])),
        Class::Module => Some(row(&[Symbol::ModuleItem])),
        _ => None,
    }
}

// `t =` type, behind `type`
pub fn type_item(c: Class) -> Option<After>
    ensures { result ≡ expand Symbol.TypeItem c }
{
    only(
        Class::Lower,
        &[
            Symbol::Token(Class::Equals),
            Symbol::Type(TypeContext::Items),
        ],
        c,
    )
}

// `x =` term, behind `let`
pub fn value_item(c: Class) -> Option<After>
    ensures { result ≡ expand Symbol.ValueItem c }
{
    only(
        Class::Lower,
        &[Symbol::Token(Class::Equals), Symbol::Term, Symbol::Items],
        c,
    )
}

// `X =` module, behind `module`
pub fn module_item(c: Class) -> Option<After>
    ensures { result ≡ expand Symbol.ModuleItem c }
{
    only(
        Class::Upper,
        &[
            Symbol::Token(Class::Equals),
            Symbol::Module(ModuleContext::Items),
        ],
        c,
    )
}

// `functor (`, a path, `struct` items `end`, or `(` module
pub fn module(context: ModuleContext, c: Class) -> Option<After>
    ensures { result ≡ expand (Symbol.Module context) c }
{
    match c {
        Class::Functor => Some(row(&[Symbol::Token(Class::Open), Symbol::Parameter(context)])),
        Class::Upper => Some(row(&[Symbol::Path(context)])),
        Class::Struct => Some(row(&[Symbol::Items, Symbol::Arguments(context)])),
        Class::Open => Some(row(&[
            Symbol::Module(ModuleContext::Bracketed),
            Symbol::Arguments(context),
        ])),
        _ => None,
    }
}

// `X : signature ) ->` and a functor's body, behind `functor (`
fn behind_functor(body: Symbol, c: Class) -> Option<After>
    ensures { result ≡ find c ((Class.Upper ⇒ Symbol.Token Class.Colon ∷ Symbol.Signature ∷ Symbol.Token Class.Close ∷ Symbol.Token Class.Arrow ∷ body ∷ []) ∷ []) }
{
    only(
        Class::Upper,
        &[
            Symbol::Token(Class::Colon),
            Symbol::Signature,
            Symbol::Token(Class::Close),
            Symbol::Token(Class::Arrow),
            body,
        ],
        c,
    )
}

// a parameter, and a module
pub fn parameter(context: ModuleContext, c: Class) -> Option<After>
    ensures { result ≡ expand (Symbol.Parameter context) c }
{
    behind_functor(Symbol::Module(context), c)
}

// `.` and a name, or what follows a path
pub fn path(context: ModuleContext, c: Class) -> Option<After>
    ensures { result ≡ expand (Symbol.«Path» context) c }
{
    match c {
        Class::Dot => Some(row(&[Symbol::PathName(context)])),
        _ => arguments(context, c),
    }
}

// a name, behind a dot of a module path
pub fn path_name(context: ModuleContext, c: Class) -> Option<After>
    ensures { result ≡ expand (Symbol.PathName context) c }
{
    only(Class::Upper, &[Symbol::Path(context)], c)
}

// what follows a module
fn after_module(context: ModuleContext, c: Class) -> Option<After>
    ensures { result ≡ find c (after_module_rows context) }
{
    match context {
        ModuleContext::Items => items(c),
        ModuleContext::Bracketed => module_end(c),
    }
}

// `(path)`, or what follows a module
pub fn arguments(context: ModuleContext, c: Class) -> Option<After>
    ensures { result ≡ expand (Symbol.Arguments context) c }
{
    match c {
        Class::Open => Some(row(&[Symbol::Argument, Symbol::Arguments(context)])),
        _ => after_module(context, c),
    }
}

// `)`, or `: signature )`
// Not one function with type_end: the row of `)` is all that they share.
pub fn module_end(c: Class) -> Option<After>
    ensures { result ≡ expand Symbol.ModuleEnd c }
{
    match c {
        Class::Close => Some(row(&[])),
        Class::Colon => Some(row(&[Symbol::Signature, Symbol::Token(Class::Close)])),
        _ => None,
    }
}

// the path of an application and its `)`, or its rest behind a dot
pub fn argument(c: Class) -> Option<After>
    ensures { result ≡ expand Symbol.Argument c }
{
    only(Class::Upper, &[Symbol::ArgumentEnd], c)
}

pub fn argument_end(c: Class) -> Option<After>
    ensures { result ≡ expand Symbol.ArgumentEnd c }
{
    match c {
        Class::Dot => Some(row(&[Symbol::ArgumentName])),
        Class::Close => Some(row(&[])),
        _ => None,
    }
}

// `sig` specs `end`, or `functor (`
pub fn signature(c: Class) -> Option<After>
    ensures { result ≡ expand Symbol.Signature c }
{
    match c {
        Class::Sig => Some(row(&[Symbol::Specs])),
        Class::Functor => Some(row(&[Symbol::Token(Class::Open), Symbol::SignatureParameter])),
        _ => None,
    }
}

// a parameter, and a signature
pub fn signature_parameter(c: Class) -> Option<After>
    ensures { result ≡ expand Symbol.SignatureParameter c }
{
    behind_functor(Symbol::Signature, c)
}

// `end`, or a spec and more
pub fn specs(c: Class) -> Option<After>
    ensures { result ≡ expand Symbol.Specs c }
{
    match c {
        Class::End => Some(row(&[])),
        Class::Type => Some(row(&[Symbol::TypeSpec])),
        Class::Val => Some(row(&[Symbol::ValueSpec])),
        Class::Module => Some(row(&[Symbol::ModuleSpec])),
        _ => None,
    }
}

// `t`, behind `type`
pub fn type_spec(c: Class) -> Option<After>
    ensures { result ≡ expand Symbol.TypeSpec c }
{
    only(Class::Lower, &[Symbol::TypeSpecEnd], c)
}

// `=` type, or more specs
pub fn type_spec_end(c: Class) -> Option<After>
    ensures { result ≡ expand Symbol.TypeSpecEnd c }
{
    match c {
        Class::Equals => Some(row(&[Symbol::Type(TypeContext::Specs)])),
        _ => specs(c),
    }
}

// `x :` type, behind `val`
pub fn value_spec(c: Class) -> Option<After>
    ensures { result ≡ expand Symbol.ValueSpec c }
{
    only(
        Class::Lower,
        &[
            Symbol::Token(Class::Colon),
            Symbol::Type(TypeContext::Specs),
        ],
        c,
    )
}

// `X :` signature, behind `module`
pub fn module_spec(c: Class) -> Option<After>
    ensures { result ≡ expand Symbol.ModuleSpec c }
{
    only(
        Class::Upper,
        &[
            Symbol::Token(Class::Colon),
            Symbol::Signature,
            Symbol::Specs,
        ],
        c,
    )
}

// `fun (`, an operator and its atoms, or an atom
pub fn term(c: Class) -> Option<After>
    ensures { result ≡ expand Symbol.Term c }
{
    match c {
        Class::Fun => Some(row(&[Symbol::Token(Class::Open), Symbol::Variable])),
        Class::Operator1 => Some(row(&[Symbol::Atom])),
        Class::Operator2 => Some(row(&[Symbol::Atom, Symbol::Atom])),
        Class::Operator3 => Some(row(&[Symbol::Atom, Symbol::Atom, Symbol::Atom])),
        _ => atom(c),
    }
}

// `x : type ) -> term`, behind `fun (`
pub fn variable(c: Class) -> Option<After>
    ensures { result ≡ expand Symbol.Variable c }
{
    only(
        Class::Lower,
        &[
            Symbol::Token(Class::Colon),
            Symbol::Type(TypeContext::Closed),
            Symbol::Token(Class::Arrow),
            Symbol::Term,
        ],
        c,
    )
}

// a literal, a value path, an operator without arguments, or `(term)`
pub fn atom(c: Class) -> Option<After>
    ensures { result ≡ expand Symbol.Atom c }
{
    match c {
        Class::SmallInteger | Class::LargeInteger | Class::Lower | Class::Operator0 => {
            Some(row(&[]))
        }
        Class::Upper => Some(row(&[Symbol::Token(Class::Dot), Symbol::PathEnd])),
        Class::Open => Some(row(&[Symbol::Term, Symbol::Token(Class::Close)])),
        _ => None,
    }
}

// the rest of a type or value path, behind a dot
pub fn path_end(c: Class) -> Option<After>
    ensures { result ≡ expand Symbol.PathEnd c }
{
    match c {
        Class::Lower => Some(row(&[])),
        Class::Upper => Some(row(&[Symbol::Token(Class::Dot), Symbol::PathEnd])),
        _ => None,
    }
}

// `)`, or `, type ) label`
pub fn type_end(c: Class) -> Option<After>
    ensures { result ≡ expand Symbol.TypeEnd c }
{
    match c {
        Class::Close => Some(row(&[])),
        Class::Comma => Some(row(&[
            Symbol::Type(TypeContext::Closed),
            Symbol::Token(Class::Label2),
        ])),
        _ => None,
    }
}
