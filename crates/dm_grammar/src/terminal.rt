//! Terminals: what a step of the grammar takes, and whether it takes a symbol; many symbols are names.

ghost use Rattle.std.specs.Prelude.{◌≡◌};
ghost use Rattle.dm_grammar.specs.Grammar.{is_name_symbol, fits};

use crate::symbol::Symbol;

/// What a step of the grammar takes: any name, any but one word, or the tokens of one symbol.
#[derive(Clone, Copy)]
pub enum Terminal {
    AnyName,
    NameBut(Symbol),
    One(Symbol),
}

/// Whether a token is a name; so is a word that has a place of its own elsewhere.
fn is_name_symbol(symbol: Symbol) -> bool
    ensures { result ≡ is_name_symbol symbol }
{
    match symbol {
        Symbol::Name
        | Symbol::Diameter
        | Symbol::Header
        | Symbol::DiameterHeader
        | Symbol::Avp
        | Symbol::AvpHeader
        | Symbol::Req
        | Symbol::Pxy
        | Symbol::Err
        | Symbol::Vendor
        | Symbol::Enumerated => true,
        _ => false,
    }
}

/// Whether a step that takes the terminal takes a token of the symbol.
pub(crate) fn terminal_takes_symbol(terminal: Terminal, symbol: Symbol) -> bool
    ensures { result ≡ fits terminal symbol }
{
    match terminal {
        Terminal::AnyName => is_name_symbol(symbol),
        Terminal::NameBut(one) => is_name_symbol(symbol) && one as u8 != symbol as u8,
        Terminal::One(one) => one as u8 == symbol as u8,
    }
}
