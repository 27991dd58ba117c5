//! Laws of tables. Each function is a law: it does nothing, and its contract is the law.
ghost use Rattle.dm_tables.specs.OneOfEach.{OneOfEach};

/// Of what one name or code asks for, sound definitions have one at most (RFC 6733, 3.2, 3 and 4.1).
pub fn each_name_and_code_defines_one_at_most()
    ensures { OneOfEach }
{}
