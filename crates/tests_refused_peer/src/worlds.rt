//! Lists of happenings. A twin, of which no request is refused, goes through the same.
use crate::each::each;
use crate::scripts::{SCRIPTS, list_of, world};
use dm_refusal::{
    End, Subject, end_of_answered_call, end_of_repeated_call, refuse_nth_request,
    was_request_refused_and_stop, worse_end,
};
use dm_world::{Effect, Happening, Side, World, WorldFault};
use std::alloc::Global;
use std::process::Abort;

/// Whether both peers of a side tell the same of themselves.
fn is_same_side(one: &World, other: &World, side: Side) -> bool {
    let (one, other) = (one.peer(side), other.peer(side));
    one.state() == other.state()
        && one.initiated() == other.initiated()
        && one.accepted() == other.accepted()
}

/// Whether both worlds tell the same of themselves.
fn is_same(one: &World, other: &World) -> bool {
    is_same_side(one, other, Side::A)
        && is_same_side(one, other, Side::B)
        && one.agreed() == other.agreed()
        && one.quiet() == other.quiet()
        && one.open_link() == other.open_link()
}

/// Whether both answered the same, and not want of memory.
fn is_same_answer(one: Result<Effect, WorldFault>, other: Result<Effect, WorldFault>) -> bool {
    one == other && one != Err(WorldFault::NoMemory)
}

/// The happening in both worlds, with memory.
fn apply_both(alloc: Global, world: &mut World, twin: &mut World, happening: &Happening) -> bool {
    let first = world.apply(alloc, happening);
    let second = twin.apply(alloc, happening);
    is_same_answer(first, second) && is_same(world, twin)
}

/// The happening with the nth request refused, and once more where memory was wanted. The twin has memory.
fn apply(
    alloc: Global,
    world: &mut World,
    twin: &mut World,
    happening: &Happening,
    nth: u32,
) -> End {
    refuse_nth_request(alloc, nth);
    let first = world.apply(alloc, happening);
    let refused = was_request_refused_and_stop(alloc);
    if first == Err(WorldFault::NoMemory) {
        let same = is_same(world, twin);
        end_of_repeated_call(refused, same && apply_both(alloc, world, twin, happening))
    } else {
        let second = twin.apply(alloc, happening);
        end_of_answered_call(
            refused,
            is_same_answer(first, second) && is_same(world, twin),
        )
    }
}

/// One after the other, that of this place with the nth request refused.
fn apply_all(
    alloc: Global,
    world: &mut World,
    twin: &mut World,
    list: &[Happening],
    place: usize,
    nth: u32,
) -> End {
    let mut end = End::Whole;
    for (at, happening) in list.iter().enumerate() {
        let nth = if at == place { nth } else { 0 };
        end = worse_end(end, apply(alloc, world, twin, happening, nth));
    }
    end
}

/// A script, and the place of the happening.
#[derive(Clone, Copy)]
struct Applying<'a>(&'a str, &'a [Happening], usize);

/// How it ends beside a twin.
fn end_beside(
    rt: &(impl Abort + AllocGlobal),
    one: &mut World,
    applying: &Applying<'_>,
    nth: u32,
) -> End {
    let Applying(text, list, place) = *applying;
    let mut twin = world(rt, text);
    let end = apply_all(rt.alloc(), one, &mut twin, list, place, nth);
    drop(twin);
    end
}

impl<R: Abort + AllocGlobal> Subject<R> for Applying<'_> {
    fn end_when_refused(&self, rt: &R, nth: u32) -> End {
        let mut one = world(rt, self.0);
        let end = end_beside(rt, &mut one, self, nth);
        drop(one);
        end
    }
}

/// The rest of the list in both worlds, which are the same before and after.
fn go_on(alloc: Global, world: &mut World, twin: &mut World, rest: &[Happening]) -> bool {
    let before = is_same(world, twin);
    let wanted = (rest.len(), None);
    let done = world.run(alloc, rest) == wanted && twin.run(alloc, rest) == wanted;
    before && done && is_same(world, twin)
}

/// The list by one `run` with the nth request refused, and then what is left of it. The twin has memory.
fn run(alloc: Global, world: &mut World, twin: &mut World, list: &[Happening], nth: u32) -> End {
    refuse_nth_request(alloc, nth);
    let (count, fault) = world.run(alloc, list);
    let refused = was_request_refused_and_stop(alloc);
    let Some((front, rest)) = list.split_at_checked(count) else {
        return End::Fault;
    };
    let is_told = twin.run(alloc, front) == (count, None) && go_on(alloc, world, twin, rest);
    match fault {
        None => end_of_answered_call(refused, is_told && rest.is_empty()),
        Some(WorldFault::NoMemory) => end_of_repeated_call(refused, is_told && !rest.is_empty()),
        Some(_) => End::Fault,
    }
}

/// A script by one `run`.
#[derive(Clone, Copy)]
struct Running<'a>(&'a str, &'a [Happening]);

/// How it ends beside a twin.
fn run_beside(
    rt: &(impl Abort + AllocGlobal),
    one: &mut World,
    running: &Running<'_>,
    nth: u32,
) -> End {
    let mut twin = world(rt, running.0);
    let end = run(rt.alloc(), one, &mut twin, running.1, nth);
    drop(twin);
    end
}

impl<R: Abort + AllocGlobal> Subject<R> for Running<'_> {
    fn end_when_refused(&self, rt: &R, nth: u32) -> End {
        let mut one = world(rt, self.0);
        let end = run_beside(rt, &mut one, self, nth);
        drop(one);
        end
    }
}

fn check_applied(rt: &(impl Abort + AllocGlobal), text: &str) {
    let list = list_of(rt, text);
    for place in 0..list.as_slice().len() {
        each(rt, &Applying(text, list.as_slice(), place), text);
    }
    drop(list);
}

fn check_run(rt: &(impl Abort + AllocGlobal), text: &str) {
    let list = list_of(rt, text);
    each(rt, &Running(text, list.as_slice()), text);
    drop(list);
}

fn check_all_applied(rt: &(impl Abort + AllocGlobal), scripts: &[&str]) {
    for text in scripts {
        check_applied(rt, text);
    }
}

fn check_all_run(rt: &(impl Abort + AllocGlobal), scripts: &[&str]) {
    for text in scripts {
        check_run(rt, text);
    }
}

#[test]
fn happenings_applied(rt: HostRuntime) {
    check_all_applied(&rt, &SCRIPTS);
}

#[test]
fn lists_run(rt: HostRuntime) {
    check_all_run(&rt, &SCRIPTS);
}
