//! Guesses where a command stands, by its code and its REQ, and whether it stands there (RFC 6733, 3.1).
ghost use Rattle.std.specs.Prelude.{◌≡◌, ◌<◌};
ghost use Rattle.dm_tables.specs.Definitions.{is_headed};
ghost use Rattle.dm_dict.specs.Limits.{head_slots};

use dm_tables::CommandDef;

/// A slot for which nothing is guessed, and the place of no command.
const NONE: u16 = u16::MAX;

/// The slot of a code with REQ.
#[inline(always)]
pub(crate) fn command_slot(code: u32, request: bool) -> usize
    ensures { result < head_slots }
{
    (code % 32) as usize * 2 + usize::from(request)
}

/// Whether the command has the code with REQ and ERR.
#[inline(always)]
pub(crate) fn is_command_of_code(command: &CommandDef, code: u32, request: bool, err: bool) -> bool
    ensures { result ≡ is_headed code request err command.now }
{
    code == command.code && request == command.request && err == command.err
}

/// The guess of a slot once the command at the place, to whose code the slot belongs, is noted: the first one stays.
fn guess_keeping_first(guess: u16, place: usize) -> u16 {
    if guess == NONE {
        place.min(NONE as usize) as u16
    } else {
        guess
    }
}

/// For each slot the place of the first of the commands that has it.
pub(crate) fn guesses_of_commands(commands: &[CommandDef]) -> [u16; 64] {
    let mut guesses = [NONE; 64];
    for (place, command) in commands.iter().enumerate() {
        let slot = command_slot(command.code, command.request);
        guesses[slot] = guess_keeping_first(guesses[slot], place);
    }
    guesses
}
