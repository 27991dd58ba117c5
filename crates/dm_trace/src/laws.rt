//! Laws of what is said of a message that was seen. Each function is a law: it does nothing, and its contract is the
//! law.
ghost use Rattle.dm_trace.specs.Laws.{EachInstantIsSaid, OneInstantText};

/// The text of an instant is the date of the value of type Time that has its seconds, as `dm_value::Utc` is displayed,
/// with the fraction before its `Z`; where no value of type Time has them it is these seconds, with the fraction behind
/// them. An instant has no other text.
pub fn instant_texts_are_dates_or_seconds()
    ensures each { EachInstantIsSaid }
    ensures one { OneInstantText }
{}
