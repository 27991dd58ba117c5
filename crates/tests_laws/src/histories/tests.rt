//! Each law with its search: how many lists are run, and of how many the turned law doesn't hold.
use super::laws::Law;
use super::letters::{I, Letter, R, Said};
use super::{Search, run_all};
use crate::search::found;

/// A new peer.
const NEW: &[Letter] = &[];

/// One that accepted a connection.
const ACCEPTED: &[Letter] = &[Letter::Hears(R, Said::Cer)];

/// One whose connection was made, and accepted by the other side.
const MADE: &[Letter] = &[Letter::Start, Letter::Ack, Letter::Hears(I, Said::Cea)];

/// What opens connections, and goes over them.
const TALK: &[Letter] = &[
    Letter::Start,
    Letter::Ack,
    Letter::Hears(I, Said::Cea),
    Letter::Hears(R, Said::Cer),
    Letter::Hears(I, Said::One),
    Letter::Hears(R, Said::One),
    Letter::Hears(R, Said::Two),
    Letter::Submit,
    Letter::Timeout,
    Letter::Gone(I),
];

/// What comes to an open peer.
const OPEN: &[Letter] = &[
    Letter::Tick,
    Letter::Submit,
    Letter::Hears(R, Said::Dwr),
    Letter::Hears(R, Said::Dwa),
    Letter::Hears(R, Said::StrayDwa),
    Letter::Hears(R, Said::Cer),
    Letter::Hears(R, Said::Dpr),
    Letter::Gone(R),
];

/// The same, where the peer opened the connection.
const OPENED: &[Letter] = &[
    Letter::Tick,
    Letter::Stop,
    Letter::Hears(I, Said::One),
    Letter::Hears(I, Said::Dwa),
    Letter::Hears(I, Said::Cea),
    Letter::Hears(I, Said::Cer),
    Letter::Hears(I, Said::Broken),
    Letter::Hears(R, Said::Cer),
];

const IN_ORDER: Search = Search {
    law: Law::InOrder,
    before: NEW,
    letters: TALK,
    longest: 5,
};

const UP_WAS_OPEN: Search = Search {
    law: Law::UpWasOpen,
    before: NEW,
    letters: TALK,
    longest: 5,
};

const SUBMIT_IS_SENT: Search = Search {
    law: Law::SubmitIsSent,
    before: NEW,
    letters: TALK,
    longest: 5,
};

const OPEN_STAYS: Search = Search {
    law: Law::OpenStays,
    before: ACCEPTED,
    letters: OPEN,
    longest: 5,
};

const OPEN_STAYS_AT_CER: Search = Search {
    law: Law::OpenStaysAtCer,
    before: MADE,
    letters: OPENED,
    longest: 5,
};

const TICKS_ARE_COUNTED: Search = Search {
    law: Law::TicksAreCounted,
    before: ACCEPTED,
    letters: OPEN,
    longest: 5,
};

const ANSWERS_MATCH: Search = Search {
    law: Law::AnswersMatch,
    before: NEW,
    letters: TALK,
    longest: 5,
};

mod in_order {
    use super::*;

    #[test]
    fn message_overtakes_another_is_false(rt: HostRuntime) {
        assert_eq!(rt; run_all(&rt, &IN_ORDER), found(62_005, 1_058));
    }
}

mod up_was_open {
    use super::*;

    #[test]
    fn handed_up_where_it_is_not_open_is_false(rt: HostRuntime) {
        assert_eq!(rt; run_all(&rt, &UP_WAS_OPEN), found(62_005, 52_277));
    }
}

mod submit_is_sent {
    use super::*;

    #[test]
    fn submit_sent_twice_is_false(rt: HostRuntime) {
        assert_eq!(rt; run_all(&rt, &SUBMIT_IS_SENT), found(62_005, 2_020));
    }
}

mod open_stays {
    use super::*;

    #[test]
    fn second_tick_ends_it_is_false(rt: HostRuntime) {
        assert_eq!(rt; run_all(&rt, &OPEN_STAYS), found(28_184, 277));
    }
}

mod open_stays_at_messages {
    use super::*;

    #[test]
    fn cer_leaves_it_open_is_false(rt: HostRuntime) {
        assert_eq!(rt; run_all(&rt, &OPEN_STAYS_AT_CER), found(28_876, 1_534));
    }
}

mod ticks_are_counted {
    use super::*;

    #[test]
    fn dropped_answer_counts_as_heard_is_false(rt: HostRuntime) {
        assert_eq!(rt; run_all(&rt, &TICKS_ARE_COUNTED), found(28_184, 1_306));
    }
}

mod answers_match {
    use super::*;

    #[test]
    fn cea_has_the_command_of_a_dpa_is_false(rt: HostRuntime) {
        assert_eq!(rt; run_all(&rt, &ANSWERS_MATCH), found(62_005, 3_930));
    }
}
