// What a symbol does with a token besides reading it: what it opens, declares and enters, and what it hands on.
// All of these take constant time.
ghost use Rattle.std.specs.Prelude.{◌≡◌, ◌≤◌, IfSome, [], if◌then◌else◌};
ghost use Rattle.reader.specs.Annotate.{is_outside, opening, extra, declaring, head_kind, introduces, rules, path_head, module_rules, arguments_rules, atom_rules, type_rules, signature_rules, is};

use super::class::Class;
use super::scope::{Binder, Inherit, PathHead, Sort};
use super::symbol::Symbol;

// A token's class, and the symbol for which the token is read.
#[derive(Clone, Copy, PartialEq, Eq, Debug)]
pub struct Met {
    pub symbol: Symbol,
    pub class: Class,
}

// How many more are open from a token on.
fn opens(class: Class) -> Option<u32>
    ensures value { result ≡ opening class }
    ensures small { IfSome result (λ n. n ≤ 2) }
{
    match class {
        Class::Open | Class::Struct | Class::Sig | Class::Functor | Class::Fun => Some(1),
        _ => None,
    }
}

// The sort of which a symbol's token declares a name.
pub fn declared_sort(symbol: Symbol) -> Option<Sort>
    ensures { result ≡ declaring symbol }
{
    match symbol {
        Symbol::TypeItem | Symbol::TypeSpec => Some(Sort::Type),
        Symbol::ValueItem | Symbol::ValueSpec => Some(Sort::Value),
        Symbol::ModuleItem | Symbol::ModuleSpec => Some(Sort::Module),
        _ => None,
    }
}

// A head of a type or a value, by the class of the token.
fn path_head(sort: Sort, class: Class) -> Option<PathHead>
    ensures { result ≡ path_head sort class }
{
    match class {
        Class::Lower => Some(PathHead::Lower(sort)),
        Class::Upper => Some(PathHead::Upper),
        _ => None,
    }
}

fn module_rules(class: Class) -> &'static [Inherit]
    ensures { result.now ≡ module_rules class }
{
    match class {
        Class::Functor => &[Inherit::Bracket, Inherit::Same],
        Class::Struct => &[Inherit::Opened, Inherit::Same],
        Class::Open => &[Inherit::Inside, Inherit::Same],
        _ => &[Inherit::Same],
    }
}

// Not one function with atom_rules: the specs name both, and they share no more than only_at.
fn arguments_rules(class: Class) -> &'static [Inherit]
    ensures { result.now ≡ arguments_rules class }
{
    only_at(Class::Open, class, &[Inherit::Inside, Inherit::Same])
}

fn atom_rules(class: Class) -> &'static [Inherit]
    ensures { result.now ≡ atom_rules class }
{
    only_at(Class::Open, class, &[Inherit::Inside, Inherit::Inside])
}

fn type_rules(class: Class) -> &'static [Inherit]
    ensures { result.now ≡ type_rules class }
{
    match class {
        Class::Open => &[Inherit::Inside, Inherit::Same],
        Class::Upper => &[Inherit::Here, Inherit::Here, Inherit::Same],
        _ => &[Inherit::Same],
    }
}

fn signature_rules(class: Class) -> &'static [Inherit]
    ensures { result.now ≡ signature_rules class }
{
    match class {
        Class::Sig => &[Inherit::Opened],
        Class::Functor => &[Inherit::Bracket],
        _ => &[],
    }
}

// These rules where a token of this class is read, nothing else named.
fn only_at(wanted: Class, class: Class, rules: &'static [Inherit]) -> &'static [Inherit]
    ensures { result.now ≡ (if is class wanted then rules.now else []) }
{
    if class == wanted { rules } else { &[] }
}

impl Met {
    // Whether the token belongs to what follows a type or a module.
    pub fn is_outside(self) -> bool
        ensures { result ≡ is_outside self.symbol self.class }
    {
        match self.symbol {
            Symbol::Path(_) => !matches!(self.class, Class::Dot | Class::Open),
            Symbol::Arguments(_) => self.class != Class::Open,
            Symbol::Labels(_) => self.class != Class::Label1,
            Symbol::TypeSpecEnd => self.class != Class::Equals,
            _ => false,
        }
    }

    // How many more are open at the token than around it.
    pub fn extra_open(self) -> Option<u32>
        ensures value { result ≡ extra self.symbol self.class }
        ensures small { IfSome result (λ n. n ≤ 2) }
    {
        match self.symbol {
            Symbol::Module(_)
            | Symbol::Path(_)
            | Symbol::Arguments(_)
            | Symbol::Signature
            | Symbol::Term
            | Symbol::Atom
            | Symbol::Type(_) => opens(self.class),
            Symbol::Parameter(_) | Symbol::SignatureParameter | Symbol::Variable => Some(2),
            _ => None,
        }
    }

    // What the token is as a head, if it is one.
    pub fn head_kind(self) -> Option<PathHead>
        ensures { result ≡ head_kind self.symbol self.class }
    {
        match self.symbol {
            Symbol::Type(_) => path_head(Sort::Type, self.class),
            Symbol::Term | Symbol::Atom => path_head(Sort::Value, self.class),
            Symbol::Module(_) | Symbol::Argument => {
                (self.class == Class::Upper).then_some(PathHead::Upper)
            }
            _ => None,
        }
    }

    // What the token enters into the scope.
    pub fn introduced(self) -> Option<Binder>
        ensures { result ≡ introduces self.symbol self.class }
    {
        match (self.symbol, self.class) {
            (Symbol::Unit, _)
            | (Symbol::Module(_), Class::Struct)
            | (Symbol::Signature, Class::Sig) => { Some(Binder::Itself) }
            (Symbol::Parameter(_) | Symbol::SignatureParameter, _) => Some(Binder::Parameter),
            (Symbol::Variable, _) => Some(Binder::Variable),
            _ => declared_sort(self.symbol).map(Binder::Component),
        }
    }

    // What each symbol that follows gets; those that are not named get what holds at the token.
    pub fn rules(self) -> &'static [Inherit]
        ensures { result.now ≡ rules self.symbol self.class }
    {
        match self.symbol {
            Symbol::Unit => &[
                Inherit::Here,
                Inherit::Here,
                Inherit::Inside,
                Inherit::Opened,
            ],
            Symbol::TypeItem | Symbol::ModuleItem | Symbol::ValueSpec => &[
                Inherit::Here,
                Inherit::Declared,
            ],
            Symbol::ValueItem | Symbol::ModuleSpec => &[
                Inherit::Here,
                Inherit::Here,
                Inherit::Entered,
            ],
            Symbol::TypeSpec => &[Inherit::Declared],
            Symbol::Module(_) => module_rules(self.class),
            Symbol::Parameter(_) => {
                &[
                    Inherit::Bracket,
                    Inherit::Bracket,
                    Inherit::Bracket,
                    Inherit::Inside,
                    Inherit::Body,
                ]
            }
            Symbol::SignatureParameter => {
                &[
                    Inherit::Bracket,
                    Inherit::Bracket,
                    Inherit::Bracket,
                    Inherit::Inside,
                    Inherit::Opened,
                ]
            }
            Symbol::Variable => &[
                Inherit::Bracket,
                Inherit::Bracket,
                Inherit::Inside,
                Inherit::Opened,
            ],
            Symbol::Path(_) => match self.class {
                Class::Dot => &[Inherit::Same],
                _ => arguments_rules(self.class),
            },
            Symbol::PathName(_) => &[Inherit::Same],
            Symbol::Arguments(_) => arguments_rules(self.class),
            Symbol::Signature => signature_rules(self.class),
            Symbol::TypeSpecEnd => only_at(Class::Equals, self.class, &[Inherit::Same]),
            Symbol::Labels(_) => only_at(Class::Label1, self.class, &[Inherit::Same]),
            Symbol::Term => match self.class {
                Class::Fun => &[Inherit::Bracket],
                _ => atom_rules(self.class),
            },
            Symbol::Atom => atom_rules(self.class),
            Symbol::Type(_) => type_rules(self.class),
            _ => &[],
        }
    }
}
