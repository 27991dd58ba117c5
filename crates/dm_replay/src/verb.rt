//! The first words of happenings.
ghost use Rattle.std.specs.Prelude.{◌≡◌, IfSome, IfNone};
ghost use Rattle.dm_replay.specs.declared.verb.Verb.{Verb};
ghost use Rattle.dm_replay.specs.HappeningLines.{word_of};

/// What a happening's first word asks for.
#[derive(Clone, Copy, Drop)]
pub enum Verb {
    Start,
    Stop,
    Timeout,
    Tick,
    Restart,
    Ack,
    Nack,
    Deliver,
    Piece,
    Lose,
    Submit,
}

/// What a word asks for; None where it is no verb.
pub fn read_verb(word: &[u8]) -> Option<Verb>
    ensures told { IfSome result (λ verb. word.now ≡ word_of verb) }
    ensures none { IfNone result ((verb : Verb) → word.now ≡ word_of verb → ⊥) }
{
    match word {
        b"start" => Some(Verb::Start),
        b"stop" => Some(Verb::Stop),
        b"timeout" => Some(Verb::Timeout),
        b"tick" => Some(Verb::Tick),
        b"restart" => Some(Verb::Restart),
        b"ack" => Some(Verb::Ack),
        b"nack" => Some(Verb::Nack),
        b"deliver" => Some(Verb::Deliver),
        b"piece" => Some(Verb::Piece),
        b"lose" => Some(Verb::Lose),
        b"submit" => Some(Verb::Submit),
        _ => None,
    }
}
