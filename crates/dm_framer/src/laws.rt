//! Laws of how a stream is cut into messages. Each function is a law: it does nothing, and its contract is the law.
ghost use Rattle.dm_framer.specs.Laws.{EachStreamIsFramed, OneFraming, Cuts, FaultStays, WholeFrames};
ghost use Rattle.dm_framer.specs.Laws.{OneFront, FrameOrFault, FaultStands};

/// Each stream has frames, a rest, and a fault of the rest or none.
pub fn each_stream_is_framed()
    ensures { EachStreamIsFramed }
{}

/// A stream has its frames, rest and fault in one way only.
pub fn each_stream_is_framed_in_one_way()
    ensures { OneFraming }
{}

/// The frames of a stream that goes on are those before it went on, and then those of the rest with what came. So it
/// doesn't matter into which pieces the stream was cut.
pub fn cuts_change_no_frames()
    ensures { Cuts }
{}

/// A fault stays, however the stream goes on, so that nothing is lost where it is kept. It stands for users.
pub fn faults_of_streams_stay()
    ensures { FaultStays }
{}

/// Frames, one after the other, are cut into just these frames, with no rest and no fault. It stands for users.
pub fn frames_in_a_row_stay_themselves()
    ensures { WholeFrames }
{}

/// At most one frame stands at a stream's front, and none where a fault does; a fault stands there whatever comes
/// behind.
pub fn one_front_frame_or_lasting_fault()
    ensures frame { OneFront }
    ensures either { FrameOrFault }
    ensures fault { FaultStands }
{}
