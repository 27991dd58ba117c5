//! The words behind an order's name.
ghost use Rattle.std.specs.Prelude.{◌≡◌, ◌∷◌, [], ℕ, List, IfSome, IfNone};
ghost use Rattle.dm_text.specs.Words.{words};
ghost use Rattle.dm_text.specs.Numbers.{TellsLongNumber};
ghost use Rattle.dm_live.specs.OrderLines.{TellsConn, NamesNeighbour};

use crate::form::Form;
use dm_machine::Conn;
use dm_text::{Words, read_long_number};
use dm_words::only_word_left;

/// The connection that the next word tells; None where it tells none, or another word follows.
pub(crate) fn only_conn_left(left: &mut Words<'_>) -> Option<Conn>
    ensures told { IfSome result (λ c. TellsConn c (words left.old)) }
    ensures none { IfNone result ((n : ℕ) (number : List ℕ) → words left.old ≡ number ∷ []
        → TellsLongNumber n number → ⊥) }
{
    Some(Conn(read_long_number(only_word_left(left)?)?))
}

/// The neighbour that the next word names, where there are several, else the one that is alone; None where none is
/// named.
pub(crate) fn next_neighbour(form: Form, left: &mut Words<'_>) -> Option<usize>
    ensures told { IfSome result (λ i. NamesNeighbour form i (words left.old) (words left.new)) }
    ensures none { IfNone result ((n : ℕ) (more : List (List ℕ)) → NamesNeighbour form n (words left.old) more
        → ⊥) }
{
    match form {
        Form::Alone => Some(0),
        Form::Several => Some(read_long_number(left.next()?)? as usize),
    }
}

/// The neighbour of the order; None where none is named, or another word follows.
pub(crate) fn only_neighbour_left(form: Form, left: &mut Words<'_>) -> Option<usize>
    ensures told { IfSome result (λ i. NamesNeighbour form i (words left.old) []) }
    ensures none { IfNone result ((n : ℕ) → NamesNeighbour form n (words left.old) [] → ⊥) }
{
    match form {
        Form::Alone => match left.next() {
            None => Some(0),
            Some(_) => None,
        },
        Form::Several => Some(read_long_number(only_word_left(left)?)? as usize),
    }
}
