//! Laws of lines, and of numbers and octets as text. Each function is a law: it does nothing, and its contract is the
//! law.
ghost use Rattle.dm_text.specs.Joined.{ContentIsJoined, LinesAreFew};
ghost use Rattle.dm_text.specs.ReadBack.{OneNumber, NumberOrNone, NumberReadBack, OctetsReadBack};

/// A word tells one number at most.
pub fn each_word_tells_one_number_at_most()
    ensures { OneNumber }
{}

/// Each word tells a number or none. The law stands for users.
pub fn each_word_tells_number_or_none()
    ensures { NumberOrNone }
{}

/// The decimal text of a number of 64 bits tells that number. The law stands for users.
pub fn decimal_text_reads_back()
    ensures { NumberReadBack }
{}

/// Octets in lower case hexadecimal are read as what they were. The law stands for users.
pub fn hexadecimal_reads_back()
    ensures { OctetsReadBack }
{}

/// Of lines one behind the other those that stand for something are those of the first lines, and then those of the
/// others.
pub fn joined_lines_have_joined_content()
    ensures { ContentIsJoined }
{}

/// A text has at most as many lines as octets, and one.
pub fn lines_exceed_octets_by_one_at_most()
    ensures { LinesAreFew }
{}
