//! The rule of a command or a group.

ghost use Rattle.std.specs.Prelude.{◌≡◌, ◌≤◌, length, map, MatchResult, IfOk, Err};
ghost use Rattle.dm_grammar.specs.Places.GrammarPlace.{InRule, Text};
ghost use Rattle.dm_grammar.specs.Readers.{IfSyntax, with_rule};
ghost use Rattle.dm_grammar.specs.Told.{collect};
ghost use Rattle.dm_grammar.specs.Views.{view_entry, view_words};

use crate::entry::{begins_entry_not_title, read_entry};
use crate::fault::ItemFault;
use crate::first_tokens::same_tokens;
use crate::item::EntryItem;
use crate::reading::Reading;
use crate::token::Token;
use std::alloc::Global;

/// *entry: the entries up to the next item.
pub(crate) fn read_rule<'t, 'a>(
    alloc: Global,
    tokens: &'t [Token<'a>],
    how: Reading,
) -> Result<(Vec<EntryItem<'a>>, &'t [Token<'a>]), ItemFault>
    ensures tells { MatchResult result
        (λ x. collect how InRule (view_words tokens.now)
        ≡ with_rule (map view_entry x.0.items) (collect how Text (view_words x.1.now)))
        (λ fault. IfSyntax fault (λ line. collect how InRule (view_words tokens.now) ≡ Err line)) }
    ensures shorter { IfOk result (λ x. length x.1.now ≤ length tokens.now) }
{
    let mut entries = Vec::new(alloc);
    let mut rest = tokens;
    while begins_entry_not_title(rest) {
        match read_entry(rest, how) {
            Ok((entry, after)) => {
                entries.push(entry).map_err(|_| ItemFault::NoMemory)?;
                rest = same_tokens(after);
            }
            Err(line) => return Err(ItemFault::Syntax(line)),
        }
    }
    Ok((entries, rest))
}
