//! Slots of octets by number: what came of each.
ghost use Rattle.std.specs.Prelude.{◌≡◌, ◌<◌, ◌≤◌, ◌+◌, ℕ, Some, length, max, slice_set, OnOk, OnErr};
ghost use Rattle.dm_flows.specs.Windows.{slot, first_known, known_octets, IsFilled};

use std::alloc::AllocError;
use std::collections::VecDeque;

/// How many slots have an octet.
pub(crate) fn count_filled_slots(slots: &VecDeque<Option<u8>>) -> usize
    ensures known { result ≡ known_octets slots.now.items }
    ensures most { result ≤ length slots.now.items }
{
    slots.iter().filter(|slot| slot.is_some()).count()
}

/// Makes empty slots until there are so many, or answers want of memory and changes nothing.
pub(crate) fn grow_slots(slots: &mut VecDeque<Option<u8>>, size: usize) -> Result<(), AllocError>
    ensures same { OnOk result ((k : ℕ) → slot slots.new.items k ≡ slot slots.old.items k) }
    ensures grown { OnOk result (length slots.new.items ≡ max size (length slots.old.items)) }
    ensures err { OnErr result (slots.new.items ≡ slots.old.items) }
{
    if slots.len() < size {
        slots.resize(size, None)
    } else {
        Ok(())
    }
}

/// Fills a slot, if it is empty.
fn fill_slot_if_empty(slots: &mut VecDeque<Option<u8>>, at: usize, octet: u8)
    requires { at < length slots.old.items }
    ensures { slots.new.items
        ≡ slice_set slots.old.items at (first_known (slot slots.old.items at) (Some octet)) }
{
    if slots[at].is_none() {
        slots[at] = Some(octet);
    }
}

/// Fills those of the slots from a place on that are empty.
pub(crate) fn fill_empty_slots(slots: &mut VecDeque<Option<u8>>, at: usize, octets: &[u8])
    requires { at + length octets.now ≤ length slots.old.items }
    ensures { IsFilled slots.old.items at octets.now slots.new.items }
{
    'octets: for index in 0..octets.len() {
        fill_slot_if_empty(slots, at + index, octets[index]);
    }
}
