// The grammar's table: each symbol is read by its own function.
ghost use Rattle.std.specs.Prelude.{◌≡◌};
ghost use Rattle.reader.specs.Grammar.{expand as expansion};

use super::class::Class;
use super::grammar::After;
use super::symbol::Symbol;
use super::{grammar, type_grammar};

// What has to follow a token of this class where this symbol is to be read; None where the symbol cannot begin so.
// Constant time. Two parameters and no Met: parse has no use for one, and the rows take symbol and class apart.
// A match and no table of functions: symbols lie in lent memory as numbers.
pub fn expand(symbol: Symbol, c: Class) -> Option<After>
    ensures { result ≡ expansion symbol c }
{
    match symbol {
        Symbol::Token(wanted) => grammar::token(wanted, c),
        Symbol::Unit => grammar::unit(c),
        Symbol::UnitName => grammar::token(Class::Upper, c),
        Symbol::UnitEnd => grammar::unit_end(c),
        Symbol::RankValue => grammar::token(Class::SmallInteger, c),
        Symbol::Items => grammar::items(c),
        Symbol::TypeItem => grammar::type_item(c),
        Symbol::ValueItem => grammar::value_item(c),
        Symbol::ModuleItem => grammar::module_item(c),
        Symbol::Module(context) => grammar::module(context, c),
        Symbol::Parameter(context) => grammar::parameter(context, c),
        Symbol::Path(context) => grammar::path(context, c),
        Symbol::PathName(context) => grammar::path_name(context, c),
        Symbol::Arguments(context) => grammar::arguments(context, c),
        Symbol::ModuleEnd => grammar::module_end(c),
        Symbol::Argument | Symbol::ArgumentName => grammar::argument(c),
        Symbol::ArgumentEnd => grammar::argument_end(c),
        Symbol::Signature => grammar::signature(c),
        Symbol::SignatureParameter => grammar::signature_parameter(c),
        Symbol::Specs => grammar::specs(c),
        Symbol::TypeSpec => grammar::type_spec(c),
        Symbol::TypeSpecEnd => grammar::type_spec_end(c),
        Symbol::ValueSpec => grammar::value_spec(c),
        Symbol::ModuleSpec => grammar::module_spec(c),
        Symbol::Term => grammar::term(c),
        Symbol::Variable => grammar::variable(c),
        Symbol::Atom => grammar::atom(c),
        Symbol::PathEnd => grammar::path_end(c),
        Symbol::Type(context) => type_grammar::type_start(context, c),
        Symbol::Labels(context) => type_grammar::labels(context, c),
        Symbol::TypeEnd => grammar::type_end(c),
    }
}
