//! The items of a dictionary text, read one after the other.

ghost use Rattle.std.specs.Prelude.{◌≡◌, ◌<◌, ◌++◌, ◌∷◌, ℕ, Result, length, map};
ghost use Rattle.std.specs.Prelude.{false, [], MatchResult, IfOk, IfErr, Ok, Err};
ghost use Rattle.dm_grammar.specs.declared.item.Item.{Item};
ghost use Rattle.dm_grammar.specs.declared.symbol.Symbol.TheVariants.{At};
ghost use Rattle.dm_grammar.specs.declared.terminal.Terminal.TheVariants.{One};
ghost use Rattle.dm_grammar.specs.Places.GrammarPlace.{AtSign, Text};
ghost use Rattle.dm_grammar.specs.Places.TokenRole.{TitleIs};
ghost use Rattle.dm_grammar.specs.Readers.{IfSyntax, begins_with, with_head, adding_item, with_rule};
ghost use Rattle.dm_grammar.specs.Spelling.{AreItems};
ghost use Rattle.dm_grammar.specs.Syntax.{IsSyntaxFault};
ghost use Rattle.dm_grammar.specs.Told.{Gathered, collect, filled, items_told, items_or_line};
ghost use Rattle.dm_grammar.specs.Tokens.{tokens};
ghost use Rattle.dm_grammar.specs.Views.{view_word, view_entry, view_head, view_item, view_words};

use crate::avp::read_avp_item_from_name;
use crate::fault::ItemFault;
use crate::first_tokens::{same_tokens, take_token_if};
use crate::head::Head;
use crate::item::{CommandItem, EntryItem, GroupItem, Item};
use crate::lex::{line_of_last_octet, read_tokens};
use crate::reading::Reading;
use crate::rule::read_rule;
use crate::symbol::Symbol;
use crate::terminal::Terminal;
use crate::title::read_title_and_head;
use crate::token::Token;
use crate::vendor::{begins_vendor_item, named_or_numbered_vendor, read_vendor_item_behind_at};
use crate::version::read_version_and_body;
use std::alloc::Global;

/// The command or the group of a title, a head and a rule.
fn command_or_group_item<'a>(name: Token<'a>, head: Head<'a>, rule: Vec<EntryItem<'a>>) -> Item<'a>
    ensures { (r : Result Gathered ℕ) → filled TitleIs (view_word name.entry)
        (with_head (view_head head.entry) (with_rule (map view_entry rule.entry.items) r))
        ≡ adding_item (view_item result) r }
{
    if head.command {
        Item::Command(CommandItem {
            name,
            code: head.code,
            request: head.request,
            proxiable: head.proxiable,
            error: head.error,
            application: head.second,
            rule,
        })
    } else {
        Item::Group(GroupItem {
            name,
            code: head.code,
            vendor: named_or_numbered_vendor(head.named, head.second),
            rule,
        })
    }
}

/// A command or a group: title "::=" "<" head ">" *entry.
fn read_command_or_group<'t, 'a>(
    alloc: Global,
    tokens: &'t [Token<'a>],
    how: Reading,
) -> Result<(Item<'a>, &'t [Token<'a>]), ItemFault>
    requires some { 0 < length tokens.now }
    requires no_avp { begins_with (One At) (view_words tokens.now) ≡ false }
    ensures tells { MatchResult result
        (λ x. collect how Text (view_words tokens.now)
        ≡ adding_item (view_item x.0) (collect how Text (view_words x.1.now)))
        (λ fault. IfSyntax fault (λ line. collect how Text (view_words tokens.now) ≡ Err line)) }
    ensures shorter { IfOk result (λ x. length x.1.now < length tokens.now) }
{
    match read_title_and_head(tokens, how) {
        Ok(((name, head), rest)) => {
            let (rule, rest) = read_rule(alloc, rest, how)?;
            Ok((command_or_group_item(name, head, rule), rest))
        }
        Err(line) => Err(ItemFault::Syntax(line)),
    }
}

/// A vendor or an AVP: what follows `@`.
fn read_vendor_or_avp<'t, 'a>(
    alloc: Global,
    tokens: &'t [Token<'a>],
    how: Reading,
) -> Result<(Item<'a>, &'t [Token<'a>]), ItemFault>
    ensures tells { MatchResult result
        (λ x. collect how AtSign (view_words tokens.now)
        ≡ adding_item (view_item x.0) (collect how Text (view_words x.1.now)))
        (λ fault. IfSyntax fault (λ line. collect how AtSign (view_words tokens.now) ≡ Err line)) }
    ensures shorter { IfOk result (λ x. length x.1.now < length tokens.now) }
{
    if begins_vendor_item(tokens, how) {
        match read_vendor_item_behind_at(tokens, how) {
            Ok((vendor, rest)) => Ok((Item::Vendor(vendor), rest)),
            Err(line) => Err(ItemFault::Syntax(line)),
        }
    } else {
        let (avp, rest) = read_avp_item_from_name(alloc, tokens, how)?;
        Ok((Item::Avp(avp), rest))
    }
}

/// The next item.
fn read_item<'t, 'a>(
    alloc: Global,
    tokens: &'t [Token<'a>],
    how: Reading,
) -> Result<(Item<'a>, &'t [Token<'a>]), ItemFault>
    requires { 0 < length tokens.now }
    ensures tells { MatchResult result
        (λ x. collect how Text (view_words tokens.now)
        ≡ adding_item (view_item x.0) (collect how Text (view_words x.1.now)))
        (λ fault. IfSyntax fault (λ line. collect how Text (view_words tokens.now) ≡ Err line)) }
    ensures shorter { IfOk result (λ x. length x.1.now < length tokens.now) }
{
    let (at, rest) = take_token_if(tokens, Terminal::One(Symbol::At));
    match at {
        Some(_) => read_vendor_or_avp(alloc, rest, how),
        None => read_command_or_group(alloc, tokens, how),
    }
}

/// Puts the next item behind the others, and gives what is left.
fn push_next_item<'t, 'a>(
    alloc: Global,
    tokens: &'t [Token<'a>],
    how: Reading,
    found: &mut Vec<Item<'a>>,
) -> Result<&'t [Token<'a>], ItemFault>
    requires { 0 < length tokens.now }
    ensures tells { MatchResult result
        (λ rest. (i : Item) × ((found.new.items ≡ found.old.items ++ i ∷ [])
        × (collect how Text (view_words tokens.now)
        ≡ adding_item (view_item i) (collect how Text (view_words rest.now)))))
        (λ fault. IfSyntax fault (λ line. collect how Text (view_words tokens.now) ≡ Err line)) }
    ensures shorter { IfOk result (λ rest. length rest.now < length tokens.now) }
{
    let (item, rest) = read_item(alloc, tokens, how)?;
    if found.push(item).is_err() {
        return Err(ItemFault::NoMemory);
    }
    Ok(rest)
}

/// Puts all items, to the end of the tokens, into a list that is empty.
fn push_all_items<'a>(
    alloc: Global,
    tokens: &[Token<'a>],
    how: Reading,
    found: &mut Vec<Item<'a>>,
) -> Result<(), ItemFault>
    requires { found.old.items ≡ [] }
    ensures items { IfOk result (λ _. items_told (collect how Text (view_words tokens.now))
        ≡ Ok (map view_item found.new.items)) }
    ensures fault { IfErr result (λ fault. IfSyntax fault (λ line. items_told (collect how Text (view_words tokens.now))
        ≡ Err line)) }
{
    let mut rest = tokens;
    while !rest.is_empty() {
        let after = push_next_item(alloc, rest, how, found)?;
        rest = same_tokens(after);
    }
    Ok(())
}

/// All items, to the end of the tokens.
fn read_all_items<'a>(
    alloc: Global,
    tokens: &[Token<'a>],
    how: Reading,
) -> Result<Vec<Item<'a>>, ItemFault>
    ensures items { IfOk result (λ items. items_told (collect how Text (view_words tokens.now))
        ≡ Ok (map view_item items.items)) }
    ensures fault { IfErr result (λ fault. IfSyntax fault (λ line. items_told (collect how Text (view_words tokens.now))
        ≡ Err line)) }
{
    let mut found = Vec::new(alloc);
    let done = push_all_items(alloc, tokens, how, &mut found);
    done.and(Ok(found))
}

/// The items of the text, in order, whatever its version, as the steps of the grammar take its tokens; or the line of
/// its syntax fault, or want of memory.
fn read_items_by_steps(alloc: Global, text: &[u8]) -> Result<Vec<Item<'_>>, ItemFault>
    ensures items { IfOk result (λ items. items_or_line text.now ≡ Ok (map view_item items.items)) }
    ensures fault { IfErr result (λ fault. IfSyntax fault (λ line. items_or_line text.now ≡ Err line)) }
{
    let last = line_of_last_octet(text);
    let all = read_tokens(alloc, text).map_err(|_| ItemFault::NoMemory)?;
    let (version, body) = read_version_and_body(all.as_slice());
    let found = read_all_items(alloc, body, Reading { version, last });
    drop(all);
    found
}

/// The items of a dictionary text (RFC 6733 section 3.2) of version 1 or 2, in order: those that its tokens are, form
/// by form. The tokens are borrowed from the text.
///
/// # Errors
///
/// `Syntax` with the line of the first token that can't stand there, or the last line where the text ends
/// too early; `NoMemory`.
pub fn read_items(alloc: Global, text: &[u8]) -> Result<Vec<Item<'_>>, ItemFault>
    // The tokens of the text are these items, form by form.
    ensures items { IfOk result (λ items. AreItems (map view_item items.items) (tokens text.now)) }
    // No step of the grammar takes the token there, or the text can't end.
    ensures fault { IfErr result (λ fault. IfSyntax fault (IsSyntaxFault text.now)) }
{
    read_items_by_steps(alloc, text)
}
