//! Laws over spellings: functions with an empty body, whose contract is the law.

ghost use Rattle.batch_pack.specs.Spelling.{SpellingLaw};

/// Of two spellings neither is a proper prefix of the other, and equal ones spell the same call and segments.
pub fn spelling_law(one: &[u64], other: &[u64])
    ensures { SpellingLaw one.now other.now }
{}
