//! The dictionary text of Diameter (RFC 6733 section 3.2): its tokens, its grammar
//! and its items, in both versions of the text.
#![tactic(auto)]

mod avp;
mod entry;
mod fault;
mod first_tokens;
mod head;
mod item;
mod items;
mod law;
mod lex;
mod reading;
mod rule;
mod symbol;
mod terminal;
mod title;
mod token;
mod value;
mod vendor;
mod version;

pub use fault::ItemFault;
pub use item::{
    AvpItem, CommandItem, EntryItem, Form, GroupItem, Item, Qualifier, ValueItem, VendorItem,
    VendorWord,
};
pub use items::read_items;
pub use law::{
    items_are_what_steps_take, tokens_are_items_or_have_a_fault,
    unmarked_texts_have_first_version_items, words_not_all_digits_are_names,
};
pub use reading::Version;
pub use symbol::Symbol;
pub use terminal::Terminal;
pub use token::Token;
