//! The types of the items of a dictionary text, as they are written: each part is its token.

use crate::token::Token;

/// `@` `vendor` name number, in a text of version 2.
#[derive(Clone, Copy)]
pub struct VendorItem<'a> {
    pub name: Token<'a>,
    pub number: Token<'a>,
}

/// A vendor as it is written behind a type or a code: its number, or `:` and its name.
#[derive(Clone, Copy)]
pub enum VendorWord<'a> {
    Numbered(Token<'a>),
    Named(Token<'a>),
}

/// A value of a list: its name and its number.
#[derive(Clone, Copy)]
pub struct ValueItem<'a> {
    pub name: Token<'a>,
    pub number: Token<'a>,
}

/// `@` name code type, the vendor where one is written, and the list of values, empty where none is
/// written.
#[derive(Drop)]
pub struct AvpItem<'a> {
    pub name: Token<'a>,
    pub code: Token<'a>,
    pub kind: Token<'a>,
    pub vendor: Option<VendorWord<'a>>,
    pub values: Vec<ValueItem<'a>>,
}

/// How an entry is bracketed: `< >`, `{ }` or `[ ]`.
#[derive(Clone, Copy, Debug, PartialEq, Eq)]
pub enum Form {
    Fixed,
    Required,
    Optional,
}

/// The `*` before an entry, with its numbers where they are written.
#[derive(Clone, Copy)]
pub struct Qualifier<'a> {
    pub low: Option<Token<'a>>,
    pub high: Option<Token<'a>>,
}

/// An entry of a rule.
#[derive(Clone, Copy)]
pub struct EntryItem<'a> {
    pub form: Form,
    pub name: Token<'a>,
    pub qualifier: Option<Qualifier<'a>>,
}

/// A Grouped AVP: its name, its code, its vendor where one is written, and its rule.
#[derive(Drop)]
pub struct GroupItem<'a> {
    pub name: Token<'a>,
    pub code: Token<'a>,
    pub vendor: Option<VendorWord<'a>>,
    pub rule: Vec<EntryItem<'a>>,
}

/// A command: its name, its code, its flags REQ, PXY and ERR, its Application-ID where one is written,
/// and its rule.
#[derive(Drop)]
pub struct CommandItem<'a> {
    pub name: Token<'a>,
    pub code: Token<'a>,
    pub request: bool,
    pub proxiable: bool,
    pub error: bool,
    pub application: Option<Token<'a>>,
    pub rule: Vec<EntryItem<'a>>,
}

/// An item of a dictionary text.
#[derive(Drop)]
pub enum Item<'a> {
    Vendor(VendorItem<'a>),
    Avp(AvpItem<'a>),
    Group(GroupItem<'a>),
    Command(CommandItem<'a>),
}
