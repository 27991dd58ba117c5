//! Symbols: what a token is, told by its octets.

ghost use Rattle.std.specs.Prelude.{◌≡◌, map};
ghost use Rattle.dm_grammar.specs.Symbols.{mark_of, key_word, key_words, symbol_among, symbol_of_word, is_digits};

/// What a token is. A word that has a place of its own in the grammar has a symbol of its own; in any
/// other place it is a name.
#[derive(Clone, Copy, PartialEq, Eq)]
pub enum Symbol {
    Less,
    Greater,
    OpenBrace,
    CloseBrace,
    OpenSquare,
    CloseSquare,
    Star,
    Comma,
    Colon,
    At,
    Define,
    Number,
    Name,
    Diameter,
    Header,
    DiameterHeader,
    Avp,
    AvpHeader,
    Req,
    Pxy,
    Err,
    Vendor,
    Enumerated,
    /// An octet that begins no token.
    Stray,
}

/// The symbol of a mark, which is one octet; `Stray` for any other octet.
pub(crate) fn symbol_of_mark(octet: u8) -> Symbol
    ensures { result ≡ mark_of octet }
{
    if octet == b'<' {
        Symbol::Less
    } else if octet == b'>' {
        Symbol::Greater
    } else if octet == b'{' {
        Symbol::OpenBrace
    } else if octet == b'}' {
        Symbol::CloseBrace
    } else if octet == b'[' {
        Symbol::OpenSquare
    } else if octet == b']' {
        Symbol::CloseSquare
    } else if octet == b'*' {
        Symbol::Star
    } else if octet == b',' {
        Symbol::Comma
    } else if octet == b':' {
        Symbol::Colon
    } else if octet == b'@' {
        Symbol::At
    } else {
        Symbol::Stray
    }
}

/// Whether a word is digits alone.
fn is_digits(word: &[u8]) -> bool
    ensures { result ≡ is_digits word.now }
{
    word.iter().all(|octet| octet.is_ascii_digit())
}

/// A word that has a place of its own in the grammar.
struct KeyWord {
    word: &'static [u8],
    symbol: Symbol,
}

macro_rules! key_word {
    ($word:literal, $symbol:ident) => {
        KeyWord {
            word: $word,
            symbol: Symbol::$symbol,
        }
    };
}

static KEY_WORDS: [KeyWord; 10] = [
    key_word!(b"Diameter", Diameter),
    key_word!(b"Header", Header),
    key_word!(b"Diameter-Header", DiameterHeader),
    key_word!(b"AVP", Avp),
    key_word!(b"AVP-Header", AvpHeader),
    key_word!(b"REQ", Req),
    key_word!(b"PXY", Pxy),
    key_word!(b"ERR", Err),
    key_word!(b"vendor", Vendor),
    key_word!(b"Enumerated", Enumerated),
];

fn key_words() -> &'static [KeyWord]
    ensures { map key_word result.now ≡ key_words }
{
    &KEY_WORDS
}

/// The symbol of a word that isn't digits alone.
fn symbol_of_key_word_or_name(word: &[u8]) -> Symbol
    ensures { result ≡ symbol_among key_words word.now }
{
    for row in key_words() {
        if word == row.word {
            return row.symbol;
        }
    }
    Symbol::Name
}

/// The symbol of a word.
pub(crate) fn symbol_of_word(word: &[u8]) -> Symbol
    ensures { result ≡ symbol_of_word word.now }
{
    if is_digits(word) {
        Symbol::Number
    } else {
        symbol_of_key_word_or_name(word)
    }
}
