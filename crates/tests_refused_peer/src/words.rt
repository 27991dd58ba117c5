//! Calls of the program that take no memory.
use crate::quiet::check_quiet;
use dm_refusal::refuse_each_request;
use dm_tool::{Choice, ToolFault, choose, ending};

#[test]
fn words_are_chosen(rt: HostRuntime) {
    let word = String::from_str(rt.alloc(), "show").expect(&rt, "memory");
    let words = vec![in rt.alloc(); word].expect(&rt, "memory");
    refuse_each_request(rt.alloc());
    let chosen = choose(words.as_slice()) == Some(Choice::Show);
    let told = ending(Some(Err(ToolFault::Memory))) == (3, "dmpeer: memory");
    check_quiet(&rt, chosen && told);
    drop(words);
}
