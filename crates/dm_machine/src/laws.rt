//! The laws of one step, for those who build on `step`; no code here calls them. Each is the contract of a function
//! that does nothing.
ghost use Rattle.dm_machine.specs.Answering.{AnswersWhatIsHeard};
ghost use Rattle.dm_machine.specs.Causes.{EachHoldIsCaused};
ghost use Rattle.dm_machine.specs.Changes.{EachConnectionChangesAsAllowed};
ghost use Rattle.dm_machine.specs.EachStep.{EachStepHolds};
ghost use Rattle.dm_machine.specs.Elections.{WinnerCountsInElections};
ghost use Rattle.dm_machine.specs.Forms.{EachShapeIsAForm, EachFormIsShaped};
ghost use Rattle.dm_machine.specs.Openings.{
  OpensAcceptedWithCea,
  OpensInitiatedAtCea,
  SendsCerAtAck,
  ClosesWhatItGivesUp,
  LeavesOthersAlone,
  EndsAtClose,
};
ghost use Rattle.dm_machine.specs.Ordered.{OrdersAreToldApart, EachOrderIsACommand, EachCommandIsAnOrder};
ghost use Rattle.dm_machine.specs.Refusals.{RefusesByState};
ghost use Rattle.dm_machine.specs.Rows.{HasOneRowEach};
ghost use Rattle.dm_machine.specs.Shape.{EachStepKeepsShape};
ghost use Rattle.dm_machine.specs.Strangers.{TurnsStrangersAway};
ghost use Rattle.dm_machine.specs.Upward.{SubmitsWhereOpen, HandsUpWhereOpen, HandsUpEach, OpenOnOne};
ghost use Rattle.dm_machine.specs.Unread.{
  ClosesUnread,
  DropsBeforeAck,
  ReadsAsPeerDisc,
  EndsAtWord,
};

/// What one step does to one connection: by how the input concerns it and what it is to the node, what it may become
/// and what it is ordered.
pub fn connection_changes_and_orders_are_allowed()
    ensures { EachConnectionChangesAsAllowed }
{}

/// What a connection is ordered by a list of commands are those of them that name it, whatever step gave them: each
/// order is one of the commands, and each command to the connection is an order.
pub fn connection_orders_are_its_commands()
    ensures apart { OrdersAreToldApart }
    ensures command { EachOrderIsACommand }
    ensures order { EachCommandIsAnOrder }
{}

/// What those changes come to where a connection is opened: which command or message goes with each opening, and when a
/// CER goes out.
pub fn ceas_open_and_cers_go_at_acks()
    ensures accepted { OpensAcceptedWithCea }
    ensures initiated { OpensInitiatedAtCea }
    ensures asked { SendsCerAtAck }
{}

/// What those changes come to where none is: what is closed, that what isn't held and isn't named stays so and is
/// ordered nothing, and that nothing is ordered behind a Close.
pub fn given_up_is_closed_unnamed_stays_unheld()
    ensures closed { ClosesWhatItGivesUp }
    ensures alone { LeavesOthersAlone }
    ensures last { EndsAtClose }
{}

/// What brings a connection to what it is to a node: a good CER, the CEA that is sent to it, its Ack with the CER, a
/// good CEA. Of a connection that is pending, closing or not held it says nothing.
pub fn acked_taken_and_open_connections_have_causes()
    ensures { EachHoldIsCaused }
{}

/// What an answer answers: a DWA, a DPA and an answer that refuses go out only where the request that asks for them is
/// heard.
pub fn dwas_dpas_and_refusing_answers_have_requests()
    ensures { AnswersWhatIsHeard }
{}

/// What goes through an open connection, which is one at most: the messages of the user go out on it at a Submit, and
/// each message of another command that is heard on it goes up, and nothing else does.
pub fn one_open_connection_carries_user_messages()
    ensures submits { SubmitsWhereOpen }
    ensures up { HandsUpWhereOpen }
    ensures each { HandsUpEach }
    ensures one { OpenOnOne }
{}

/// A core of the right shape, a node in the definitions, is one of eight forms: each state with the connections that it
/// holds, and the counts of the open ones.
pub fn shaped_cores_have_eight_forms()
    ensures formed { EachShapeIsAForm }
    ensures shaped { EachFormIsShaped }
{}

/// A test of a step that looks at no connection holds of every step, where it holds of the few that the states, the
/// places of a connection and the inputs make: those are proved by computing.
pub fn few_steps_stand_for_all()
    ensures { EachStepHolds }
{}

/// What shape a node keeps: which connections each state holds, and which counts. A step gives at most four commands.
pub fn steps_keep_shape_in_few_commands()
    ensures { EachStepKeepsShape }
{}

/// Where what a message says makes no difference: on a new connection in a state that reads no first message, before an
/// Ack, and on an accepted connection that waits for its CEA.
pub fn messages_do_the_same_where_unread()
    ensures rejected { ClosesUnread }
    ensures dropped { DropsBeforeAck }
    ensures read { ReadsAsPeerDisc }
    ensures ended { EndsAtWord }
{}

/// A stranger changes nothing: what comes on a connection that isn't held leaves the node as it is, and the connection
/// is closed, behind an answer where a CER is refused; but for a good CER where first messages are read.
pub fn only_good_cers_admit_strangers()
    ensures { TurnsStrangersAway }
{}

/// What goes by the state: which inputs are refused, and that it counts who would win an election only where one can be
/// held.
pub fn each_state_decides_refusals_and_elections()
    ensures refused { RefusesByState }
    ensures elected { WinnerCountsInElections }
{}

/// The state table with the own rows: a state and an event have at most one row, and it is the one that is followed.
pub fn no_state_and_event_have_two_rows()
    ensures { HasOneRowEach }
{}
