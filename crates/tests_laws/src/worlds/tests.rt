//! Each law with its search: how many lists are run, and of how many the turned law doesn't hold.
use super::laws::Law;
use super::pair::{Deliveries, Letter, run_deliveries};
use super::{Choice, Search, run_all};
use crate::search::found;
use dm_world::Side;

/// What may happen where two links are made at most.
const ANY: &[Choice] = &[
    Choice::Start(Side::A),
    Choice::Start(Side::B),
    Choice::Ack(0),
    Choice::Ack(1),
    Choice::Nack(0),
    Choice::Deliver(0, Side::A),
    Choice::Deliver(0, Side::B),
    Choice::Deliver(1, Side::A),
    Choice::Deliver(1, Side::B),
    Choice::Lose(0),
    Choice::Restart(Side::A),
    Choice::Timeout(Side::B),
    Choice::Stop(Side::B),
];

/// What may happen where both sides start, with restarts of A, in longer lists.
const ELECTIONS: &[Choice] = &[
    Choice::Start(Side::A),
    Choice::Start(Side::B),
    Choice::Ack(0),
    Choice::Ack(1),
    Choice::Deliver(0, Side::A),
    Choice::Deliver(0, Side::B),
    Choice::Deliver(1, Side::A),
    Choice::Deliver(1, Side::B),
    Choice::Restart(Side::A),
];

/// All that happens in clean runs. None makes a third link.
const CLEAN: &[Choice] = &[
    Choice::Start(Side::A),
    Choice::Start(Side::B),
    Choice::Ack(0),
    Choice::Ack(1),
    Choice::Deliver(0, Side::A),
    Choice::Deliver(0, Side::B),
    Choice::Deliver(1, Side::A),
    Choice::Deliver(1, Side::B),
];

/// A clean run that A alone starts, with pieces.
const PIECES: &[Choice] = &[
    Choice::Start(Side::A),
    Choice::Ack(0),
    Choice::Deliver(0, Side::A),
    Choice::Deliver(0, Side::B),
    Choice::Piece(0, Side::A, 1),
    Choice::Piece(0, Side::B, 1),
    Choice::Piece(0, Side::A, 200),
    Choice::Piece(0, Side::B, 200),
];

const NEVER_TWO: Search = Search {
    law: Law::NeverTwo,
    winner: Side::B,
    letters: ANY,
    longest: 7,
};

const COMES_UP: Search = Search {
    law: Law::ComesUp,
    winner: Side::A,
    letters: CLEAN,
    longest: 10,
};

const FOUR_STEPS: Search = Search {
    law: Law::FourSteps,
    winner: Side::B,
    letters: PIECES,
    longest: 7,
};

const QUIET_IS_SHARED: Search = Search {
    law: Law::QuietIsShared,
    winner: Side::B,
    letters: ANY,
    longest: 7,
};

const QUIET_IS_JOINED: Search = Search {
    law: Law::QuietIsJoined,
    winner: Side::B,
    letters: ANY,
    longest: 7,
};

const QUIET_IS_SETTLED: Search = Search {
    law: Law::QuietIsSettled,
    winner: Side::B,
    letters: ANY,
    longest: 7,
};

const NO_TRAP: Search = Search {
    law: Law::NoTrap,
    winner: Side::B,
    letters: ANY,
    longest: 5,
};

const NO_TRAP_TURNED: Search = Search {
    law: Law::NoTrapTurned,
    winner: Side::B,
    letters: ANY,
    longest: 2,
};

const SETTLED_BEHIND_ELECTIONS: Search = Search {
    law: Law::QuietIsSettled,
    winner: Side::B,
    letters: ELECTIONS,
    longest: 9,
};

/// Both are open on the link of A.
const JOINED: &[Letter] = &[
    Letter::Happens(Choice::Start(Side::A)),
    Letter::Happens(Choice::Ack(0)),
    Letter::Happens(Choice::Deliver(0, Side::B)),
    Letter::Happens(Choice::Deliver(0, Side::A)),
];

const DELIVERIES: Deliveries = Deliveries {
    before: JOINED,
    letters: &[
        Letter::Submit(Side::A, 1),
        Letter::Submit(Side::A, 2),
        Letter::Submit(Side::B, 1),
        Letter::Happens(Choice::Deliver(0, Side::A)),
        Letter::Happens(Choice::Deliver(0, Side::B)),
        Letter::Happens(Choice::Lose(0)),
        Letter::Happens(Choice::Stop(Side::A)),
        Letter::Happens(Choice::Restart(Side::B)),
    ],
    longest: 6,
};

mod never_two {
    use super::*;

    #[test]
    fn agreed_in_one_role_is_false(rt: HostRuntime) {
        assert_eq!(rt; run_all(&rt, &NEVER_TWO), found(49_470, 494));
    }
}

mod comes_up {
    use super::*;

    #[test]
    fn winner_keeps_its_own_link_is_false(rt: HostRuntime) {
        assert_eq!(rt; run_all(&rt, &COMES_UP), found(299, 90));
    }
}

mod comes_up_in_four_steps {
    use super::*;

    #[test]
    fn part_of_a_message_is_a_step_is_false(rt: HostRuntime) {
        assert_eq!(rt; run_all(&rt, &FOUR_STEPS), found(78, 63));
    }
}

mod quiet_peers_hold_the_same {
    use super::*;

    #[test]
    fn quiet_with_a_disconnect_is_false(rt: HostRuntime) {
        assert_eq!(rt; run_all(&rt, &QUIET_IS_SHARED), found(49_470, 3_873));
    }
}

mod quiet_peers_are_closed_or_joined {
    use super::*;

    #[test]
    fn accepting_side_is_not_left_open_is_false(rt: HostRuntime) {
        assert_eq!(rt; run_all(&rt, &QUIET_IS_JOINED), found(49_470, 294));
    }
}

mod quiet_is_settled {
    use super::*;

    #[test]
    fn both_open_in_one_role_is_false(rt: HostRuntime) {
        assert_eq!(rt; run_all(&rt, &QUIET_IS_SETTLED), found(49_470, 294));
    }

    #[test]
    fn both_open_in_one_role_behind_elections_is_false(rt: HostRuntime) {
        assert_eq!(rt; run_all(&rt, &SETTLED_BEHIND_ELECTIONS), found(46_485, 191));
    }
}

mod no_state_is_a_trap {
    use super::*;

    #[test]
    fn opening_answers_first_is_false(rt: HostRuntime) {
        assert_eq!(rt; run_all(&rt, &NO_TRAP_TURNED), found(23, 23));
    }

    #[test]
    fn each_world_can_restart_and_open(rt: HostRuntime) {
        assert_eq!(rt; run_all(&rt, &NO_TRAP), found(2_196, 0));
    }
}

mod each_message_once {
    use super::*;

    #[test]
    fn loss_is_not_counted_is_false(rt: HostRuntime) {
        assert_eq!(rt; run_deliveries(&rt, &DELIVERIES), found(57_311, 16_214));
    }
}
